use crate::conditions::{CONDITIONS, Row};
use crate::rows::{CELLS, COMPARISONS, FORMULAS, PRODUCTS, SUMS};
use bumpalo::Bump;
use sp_base::Loc;
use sp_fdl::{print, read};
use sp_simp::{Memo, simple, simplify};
use sp_term::{Cond, Pool, Shape, Term, Var};
use std::alloc::Global;
use std::process::Abort;
use std::test::Fail;

/// The simple form of a term that a text stands for is printed as another text.
fn check(rt: &impl Abort, alloc: Global, text: &str, form: &str) -> Result<(), Fail> {
    let arena = Bump::new(alloc);
    let Ok(t) = read(alloc, text.as_bytes(), &arena) else {
        assert!(rt; false, "{text}");
        return Ok(());
    };
    let r = simple(alloc, t, &arena)?;
    assert_eq!(rt; print(alloc, r)?.as_slice(), form.as_bytes(), "{text}");
    Ok(())
}

#[test]
fn sums_and_differences(rt: HostRuntime) -> Result<(), Fail> {
    for (text, form) in &SUMS {
        check(&rt, rt.alloc(), text, form)?;
    }
    Ok(())
}

#[test]
fn products_quotients_and_remainders(rt: HostRuntime) -> Result<(), Fail> {
    for (text, form) in &PRODUCTS {
        check(&rt, rt.alloc(), text, form)?;
    }
    Ok(())
}

#[test]
fn bits_bytes_choices_and_cells(rt: HostRuntime) -> Result<(), Fail> {
    for (text, form) in &CELLS {
        check(&rt, rt.alloc(), text, form)?;
    }
    Ok(())
}

#[test]
fn comparisons(rt: HostRuntime) -> Result<(), Fail> {
    for (text, form) in &COMPARISONS {
        check(&rt, rt.alloc(), text, form)?;
    }
    Ok(())
}

#[test]
fn formulas_and_totals(rt: HostRuntime) -> Result<(), Fail> {
    for (text, form) in &FORMULAS {
        check(&rt, rt.alloc(), text, form)?;
    }
    Ok(())
}

/// The terms that texts stand for.
fn terms<'a>(
    rt: &impl Abort,
    alloc: Global,
    texts: &[&str],
    arena: &'a Bump,
) -> Result<Vec<&'a Term<'a>>, Fail> {
    let mut out = Vec::new(alloc);
    for text in texts {
        match read(alloc, text.as_bytes(), arena) {
            Ok(t) => out.push(t)?,
            Err(_) => assert!(rt; false, "{text}"),
        }
    }
    Ok(out)
}

/// The terms are printed as the texts.
fn are(rt: &impl Abort, alloc: Global, terms: &[&Term], texts: &[&str]) -> Result<(), Fail> {
    assert_eq!(rt; terms.len(), texts.len());
    for (t, text) in terms.iter().zip(texts) {
        assert_eq!(rt; print(alloc, t)?.as_slice(), text.as_bytes(), "{text}");
    }
    Ok(())
}

fn check_condition(rt: &impl Abort, alloc: Global, row: &Row) -> Result<(), Fail> {
    let arena = Bump::new(alloc);
    let hyps = terms(rt, alloc, row.hypotheses, &arena)?;
    let goals = terms(rt, alloc, row.goals, &arena)?;
    let c = Cond {
        hyps: hyps.as_slice(),
        goals: goals.as_slice(),
        frames: &[],
    };
    let r = simplify(alloc, c, &arena)?;
    are(rt, alloc, r.hyps, row.left)?;
    are(rt, alloc, r.goals, row.open)
}

#[test]
fn conditions(rt: HostRuntime) -> Result<(), Fail> {
    for row in &CONDITIONS {
        check_condition(&rt, rt.alloc(), row)?;
    }
    Ok(())
}

/// `(t + t)` nested 60 times over `b~` has 61 places, and more than 2 to the power 60 nodes as a tree. Its simple form is
/// found at once, since each place is simplified once.
#[test]
fn shared_parts_are_simplified_once(rt: HostRuntime) -> Result<(), Fail> {
    let arena = Bump::new(rt.alloc());
    let mut pool = Pool::new(rt.alloc(), &arena);
    let mut memo = Memo::new(rt.alloc());
    let mut n = pool.add(Shape::Variable(Var::Entry(Loc::B)))?;
    for _ in 0..60 {
        n = pool.add(Shape::Add(n, n))?;
    }
    let r = memo.simple(&mut pool, n)?;
    assert_eq!(rt; (r, pool.len(), memo.len()), (n, 61, 61));
    Ok(())
}
