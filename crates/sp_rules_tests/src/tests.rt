use crate::calls::{Place, perform};
use crate::cells::CELLS;
use crate::equations::EQUATIONS;
use crate::logic::LOGIC;
use crate::numbers::NUMBERS;
use crate::quantified::QUANTIFIED;
use crate::states::{Row, image, show, start};
use bumpalo::Bump;
use std::alloc::Global;
use std::process::Abort;
use std::test::Fail;

/// The subgoals after a step are printed as they should be.
fn check(rt: &impl Abort, alloc: Global, row: &Row) -> Result<(), Fail> {
    let arena = Bump::new(alloc);
    let image = image(alloc)?;
    let place = Place {
        alloc,
        arena: &arena,
        image: &image,
    };
    let mut goals = start(rt, alloc, row.hypotheses, 0, row.goals, &arena)?;
    for step in row.before {
        let Ok(next) = perform(rt, place, goals, *step)? else {
            panic!(rt; "{}", row.after);
        };
        goals = next;
    }
    let after = perform(rt, place, goals, row.step)?;
    assert_eq!(rt;
        show(alloc, after)?.as_slice(),
        row.after.as_bytes(),
        "{}",
        row.after
    );
    Ok(())
}

#[test]
fn steps_on_logic(rt: HostRuntime) -> Result<(), Fail> {
    for row in &LOGIC {
        check(&rt, rt.alloc(), row)?;
    }
    Ok(())
}

#[test]
fn steps_on_quantifiers_and_choices(rt: HostRuntime) -> Result<(), Fail> {
    for row in &QUANTIFIED {
        check(&rt, rt.alloc(), row)?;
    }
    Ok(())
}

#[test]
fn steps_on_equations(rt: HostRuntime) -> Result<(), Fail> {
    for row in &EQUATIONS {
        check(&rt, rt.alloc(), row)?;
    }
    Ok(())
}

#[test]
fn steps_on_numbers(rt: HostRuntime) -> Result<(), Fail> {
    for row in &NUMBERS {
        check(&rt, rt.alloc(), row)?;
    }
    Ok(())
}

#[test]
fn steps_on_cells(rt: HostRuntime) -> Result<(), Fail> {
    for row in &CELLS {
        check(&rt, rt.alloc(), row)?;
    }
    Ok(())
}
