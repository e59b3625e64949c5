use crate::rows::{CLOSING, COUNTED, REFUSED, Repeated, Row};
use bumpalo::Bump;
use sp_fdl::read;
use sp_linear::follows;
use sp_term::Term;
use std::alloc::Global;
use std::process::Abort;
use std::test::Fail;

/// The term that a text stands for.
fn term<'a>(
    rt: &impl Abort,
    alloc: Global,
    text: &str,
    arena: &'a Bump,
) -> Result<&'a Term<'a>, Fail> {
    match read(alloc, text.as_bytes(), arena) {
        Ok(t) => Ok(t),
        Err(_) => panic!(rt; "{text}"),
    }
}

/// The terms that texts stand for.
fn terms<'a>(
    rt: &impl Abort,
    alloc: Global,
    texts: &[&str],
    arena: &'a Bump,
) -> Result<Vec<&'a Term<'a>>, Fail> {
    let mut out = Vec::new(alloc);
    for text in texts {
        out.push(term(rt, alloc, text, arena)?)?;
    }
    Ok(out)
}

fn check(rt: &impl Abort, alloc: Global, row: &Row) -> Result<(), Fail> {
    let arena = Bump::new(alloc);
    let hyps = terms(rt, alloc, row.hypotheses, &arena)?;
    let goal = term(rt, alloc, row.goal, &arena)?;
    let mut by = Vec::new(alloc);
    for (c, k) in row.by {
        match hyps.get(k.wrapping_sub(1)) {
            Some(h) => by.push((*c, *h))?,
            None => panic!(rt; "{}", row.goal),
        }
    }
    assert_eq!(rt;
        follows(alloc, goal, row.n0, by.as_slice())?,
        row.follows,
        "{}",
        row.goal
    );
    Ok(())
}

#[test]
fn steps_that_close_their_goal(rt: HostRuntime) -> Result<(), Fail> {
    for row in &CLOSING {
        check(&rt, rt.alloc(), row)?;
    }
    Ok(())
}

#[test]
fn steps_that_are_refused(rt: HostRuntime) -> Result<(), Fail> {
    for row in &REFUSED {
        check(&rt, rt.alloc(), row)?;
    }
    Ok(())
}

fn check_repeated(rt: &impl Abort, alloc: Global, row: &Repeated) -> Result<(), Fail> {
    let arena = Bump::new(alloc);
    let hyps = terms(rt, alloc, row.hypotheses, &arena)?;
    let goal = term(rt, alloc, row.goal, &arena)?;
    let mut by = Vec::new(alloc);
    for (times, c, k) in row.by {
        match hyps.get(k.wrapping_sub(1)) {
            Some(h) => {
                for _ in 0..*times {
                    by.push((*c, *h))?;
                }
            }
            None => panic!(rt; "{}", row.goal),
        }
    }
    assert_eq!(rt;
        follows(alloc, goal, row.n0, by.as_slice())?,
        row.follows,
        "{}",
        row.goal
    );
    Ok(())
}

#[test]
fn hypotheses_named_many_times(rt: HostRuntime) -> Result<(), Fail> {
    for row in &COUNTED {
        check_repeated(&rt, rt.alloc(), row)?;
    }
    Ok(())
}
