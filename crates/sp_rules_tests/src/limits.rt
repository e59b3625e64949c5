//! Steps at the limits on hypotheses, subgoals and depth, and one past them.

use crate::calls::{Call, Cells, Equation, Logic, Number, Place, Quantified, perform};
use crate::states::{image, start};
use bumpalo::Bump;
use sp_base::Loc;
use sp_rules::cut;
use sp_term::{Kind, Term, Var, make};
use std::alloc::Global;
use std::process::Abort;
use std::test::Fail;

/// A state with so many hypotheses `(z = 1)` after some others, a step, and whether it applies.
pub struct Filled {
    pub first: &'static [&'static str],
    pub more: u32,
    pub goal: &'static str,
    pub step: Call,
    pub applies: bool,
}

pub static HYPOTHESES: [Filled; 18] = [
    Filled {
        first: &[],
        more: 4095,
        goal: "((a = 0) -> (b = 0))",
        step: Call::Logic(Logic::Intro),
        applies: true,
    },
    Filled {
        first: &[],
        more: 4096,
        goal: "((a = 0) -> (b = 0))",
        step: Call::Logic(Logic::Intro),
        applies: false,
    },
    Filled {
        first: &["((a = 0) and (b = 0))"],
        more: 4093,
        goal: "false",
        step: Call::Logic(Logic::Unpack(1)),
        applies: true,
    },
    Filled {
        first: &["((a = 0) and (b = 0))"],
        more: 4094,
        goal: "false",
        step: Call::Logic(Logic::Unpack(1)),
        applies: false,
    },
    Filled {
        first: &[],
        more: 4093,
        goal: "false",
        step: Call::Number(Number::DivMod("a", 2)),
        applies: true,
    },
    Filled {
        first: &[],
        more: 4094,
        goal: "false",
        step: Call::Number(Number::DivMod("a", 2)),
        applies: false,
    },
    Filled {
        first: &[],
        more: 4094,
        goal: "false",
        step: Call::Number(Number::Bits("a")),
        applies: true,
    },
    Filled {
        first: &[],
        more: 4095,
        goal: "false",
        step: Call::Number(Number::Bits("a")),
        applies: false,
    },
    Filled {
        first: &[],
        more: 4095,
        goal: "false",
        step: Call::Cells(Cells::Frame("mem_1", "a")),
        applies: true,
    },
    Filled {
        first: &[],
        more: 4096,
        goal: "false",
        step: Call::Cells(Cells::Frame("mem_1", "a")),
        applies: false,
    },
    Filled {
        first: &[],
        more: 4095,
        goal: "false",
        step: Call::Logic(Logic::Cut("(a = 0)")),
        applies: true,
    },
    Filled {
        first: &[],
        more: 4096,
        goal: "false",
        step: Call::Logic(Logic::Cut("(a = 0)")),
        applies: false,
    },
    Filled {
        first: &[],
        more: 4094,
        goal: "for_all(i1: 0..3, (i1 = a))",
        step: Call::Quantified(Quantified::Fix),
        applies: true,
    },
    Filled {
        first: &[],
        more: 4095,
        goal: "for_all(i1: 0..3, (i1 = a))",
        step: Call::Quantified(Quantified::Fix),
        applies: false,
    },
    Filled {
        first: &["(a = b)"],
        more: 4094,
        goal: "false",
        step: Call::Equation(Equation::Rewrite(1, Some(1), false)),
        applies: true,
    },
    Filled {
        first: &["(a = b)"],
        more: 4095,
        goal: "false",
        step: Call::Equation(Equation::Rewrite(1, Some(1), false)),
        applies: false,
    },
    Filled {
        first: &["(a = b)"],
        more: 5000,
        goal: "(a = 0)",
        step: Call::Equation(Equation::Rewrite(1, None, false)),
        applies: true,
    },
    Filled {
        first: &["(c = 0)"],
        more: 5000,
        goal: "(c = 0)",
        step: Call::Logic(Logic::Close(1)),
        applies: true,
    },
];

fn check_filled(rt: &impl Abort, alloc: Global, row: &Filled) -> Result<(), Fail> {
    let arena = Bump::new(alloc);
    let image = image(alloc)?;
    let place = Place {
        alloc,
        arena: &arena,
        image: &image,
    };
    let goals = start(rt, alloc, row.first, row.more, &[row.goal], &arena)?;
    let after = perform(rt, place, goals, row.step)?;
    assert_eq!(rt; after.is_ok(), row.applies, "{} and {}", row.more, row.goal);
    Ok(())
}

#[test]
fn hypotheses_at_the_limit(rt: HostRuntime) -> Result<(), Fail> {
    for row in &HYPOTHESES {
        check_filled(&rt, rt.alloc(), row)?;
    }
    Ok(())
}

/// Subgoals that `cut` makes, one a time, and whether one more is made.
fn check_subgoals(rt: &impl Abort, alloc: Global, cuts: u32, applies: bool) -> Result<(), Fail> {
    let arena = Bump::new(alloc);
    let t = make(&arena, Kind::Truth(true))?;
    let mut goals = start(rt, alloc, &[], 0, &["false"], &arena)?;
    for _ in 0..cuts {
        let Ok(next) = cut(&arena, goals, t) else {
            panic!(rt; "{cuts}");
        };
        goals = next;
    }
    assert_eq!(rt; cut(&arena, goals, t).is_ok(), applies, "{cuts}");
    Ok(())
}

#[test]
fn subgoals_at_the_limit(rt: HostRuntime) -> Result<(), Fail> {
    for (cuts, applies) in &[(4094, true), (4095, false)] {
        check_subgoals(&rt, rt.alloc(), *cuts, *applies)?;
    }
    Ok(())
}

/// `(x = x)` after so many `not`, where x is `a`, added to itself so many times: each time its nodes double, and one more.
pub struct Large {
    pub nots: u32,
    pub doublings: u32,
    pub applies: bool,
}

/// The limits are 65,536 nodes and a depth of 2,000.
static LARGE: [Large; 4] = [
    Large {
        nots: 1,
        doublings: 14,
        applies: true,
    },
    Large {
        nots: 2,
        doublings: 14,
        applies: false,
    },
    Large {
        nots: 1998,
        doublings: 0,
        applies: true,
    },
    Large {
        nots: 1999,
        doublings: 0,
        applies: false,
    },
];

/// `a`, added to itself so many times.
fn doubled<'a>(arena: &'a Bump, times: u32) -> Result<&'a Term<'a>, Fail> {
    let mut x = make(arena, Kind::Variable(Var::Now(Loc::A)))?;
    for _ in 0..times {
        x = make(arena, Kind::Add(x, x))?;
    }
    Ok(x)
}

/// `(x = x)` after so many `not`.
fn negated<'a>(arena: &'a Bump, x: &'a Term<'a>, times: u32) -> Result<&'a Term<'a>, Fail> {
    let mut p = make(arena, Kind::Equal(x, x))?;
    for _ in 0..times {
        p = make(arena, Kind::Not(p))?;
    }
    Ok(p)
}

fn check_large(rt: &impl Abort, alloc: Global, row: &Large) -> Result<(), Fail> {
    let arena = Bump::new(alloc);
    let x = doubled(&arena, row.doublings)?;
    let t = negated(&arena, x, row.nots)?;
    let goals = start(rt, alloc, &[], 0, &["false"], &arena)?;
    let after = cut(&arena, goals, t);
    assert_eq!(rt;
        after.is_ok(),
        row.applies,
        "{} and {}",
        row.nots,
        row.doublings
    );
    Ok(())
}

#[test]
fn formulas_at_the_limits(rt: HostRuntime) -> Result<(), Fail> {
    for row in &LARGE {
        check_large(&rt, rt.alloc(), row)?;
    }
    Ok(())
}
