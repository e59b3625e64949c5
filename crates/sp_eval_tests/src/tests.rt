ghost use Rattle.std.specs.Prelude.{◌<◌, ◌-◌, ◌^◌};

use crate::printed::read;
use crate::states::{STATES, State, machine_of};
use sp_eval::{holds, is_narrow};
use sp_logic::print;
use std::alloc::Global;
use std::process::Abort;
use std::test::Fail;

/// Reads a note, prints it again, and evaluates it in a state: its value, None where it is too long, and its nodes.
fn check(
    rt: &impl Abort,
    alloc: Global,
    state: &State,
    text: &str,
    budget: u64,
    value: Option<bool>,
    nodes: u64,
) -> Result<(), Fail>
    requires { budget < 2 ^ 64 - 1 }
{
    let Some(note) = read(alloc, text.as_bytes()) else {
        assert!(rt; false, "{text}");
        return Ok(());
    };
    assert_eq!(rt; print(alloc, &note)?.as_slice(), text.as_bytes());
    if !is_narrow(&note) {
        assert!(rt; false, "{text}");
        return Ok(());
    }
    let entry = machine_of(alloc, &state.entry)?;
    let now = machine_of(alloc, &state.now)?;
    let (seen, counted) = match holds(&note, state.frame, &entry, &now, budget) {
        Ok(seen) => (Some(seen.value), seen.nodes),
        Err(long) => (None, long.nodes),
    };
    assert_eq!(rt; seen, value, "{text}");
    assert_eq!(rt; counted, nodes, "{text}");
    Ok(())
}

/// A note with its value and its nodes in each of the three states.
static VALUES: [(&str, [(Option<bool>, u64); 3]); 37] = [
    (
        "(A = 5)",
        [(Some(false), 3), (Some(false), 3), (Some(false), 3)],
    ),
    (
        "(DE~ <> DE)",
        [(Some(true), 3), (Some(true), 3), (Some(false), 3)],
    ),
    (
        "(mem[HL] = 0)",
        [(Some(false), 4), (Some(false), 4), (Some(true), 4)],
    ),
    (
        "(mem[8960] = 0)",
        [(Some(true), 4), (Some(true), 4), (Some(true), 4)],
    ),
    (
        "(mem[(8192 + (8208 - 8192))] = mem[8208])",
        [(Some(true), 9), (Some(true), 9), (Some(true), 9)],
    ),
    (
        "((mem~[8210] + (256 * mem~[8211])) = ((256 * 18) + 52))",
        [(Some(true), 13), (Some(false), 13), (Some(false), 13)],
    ),
    (
        "(65535 = 65535)",
        [(Some(true), 3), (Some(true), 3), (Some(true), 3)],
    ),
    (
        "((STK1 = STK1) and (not (STK1 <> STK1)))",
        [(Some(true), 8), (Some(true), 8), (Some(true), 8)],
    ),
    (
        "((7 div 0) = 0)",
        [(Some(true), 5), (Some(true), 5), (Some(true), 5)],
    ),
    (
        "(((-1) mod 9223372036854775807) = 9223372036854775806)",
        [(Some(true), 6), (Some(true), 6), (Some(true), 6)],
    ),
    (
        "((-A) = (0 - A))",
        [(Some(true), 6), (Some(true), 6), (Some(true), 6)],
    ),
    (
        "(band(12, 10) = 8)",
        [(Some(true), 5), (Some(true), 5), (Some(true), 5)],
    ),
    (
        "(par(7) = 0)",
        [(Some(true), 4), (Some(true), 4), (Some(true), 4)],
    ),
    (
        "(band((A + (256 * B)), 255) = A)",
        [(Some(true), 9), (Some(true), 9), (Some(true), 9)],
    ),
    (
        "((A = 1) <-> ((B = 2) -> (C = 3)))",
        [(Some(false), 11), (Some(false), 11), (Some(false), 11)],
    ),
    (
        "(A = 6)",
        [(Some(true), 3), (Some(false), 3), (Some(false), 3)],
    ),
    (
        "(for some I in 0..3: (I = 2))",
        [(Some(true), 15), (Some(true), 15), (Some(true), 15)],
    ),
    (
        "(for all I in 0..3: (for all J in I..3: (I <= J)))",
        [(Some(true), 45), (Some(true), 45), (Some(true), 45)],
    ),
    (
        "(for some SAME in 100..101: (SAME = 100))",
        [(Some(true), 9), (Some(true), 9), (Some(true), 9)],
    ),
    (
        "(for all I in 0..3: ((A~ = 5) -> (for some J in 0..3: (J = I))))",
        [(Some(true), 79), (Some(true), 79), (Some(true), 79)],
    ),
    (
        "(for all @I in 0..1: (@I < 2))",
        [(Some(true), 9), (Some(true), 9), (Some(true), 9)],
    ),
    (
        "(total(8950, 9220) = 195)",
        [(Some(true), 276), (Some(false), 276), (Some(false), 276)],
    ),
    (
        "((total(5, 3) + total~(5, 3)) = 0)",
        [(Some(true), 9), (Some(true), 9), (Some(true), 9)],
    ),
    (
        "((((((HL * HL) * HL) * HL) * HL) * HL) >= 0)",
        [(Some(true), 13), (Some(true), 13), (Some(true), 13)],
    ),
    (
        "(for all I in 0..10000000: (I >= 0))",
        [(None, 10000001), (None, 10000001), (None, 10000001)],
    ),
    (
        "(for all K in 0..0: ((for all J in 0..(L mod 4): (((band(STK1, 40) mod 255) + STK2) = P)) and (par(A~) >= AC)))",
        [(Some(false), 22), (Some(false), 31), (Some(false), 31)],
    ),
    (
        "(for all I in 0..2: ((total~(8192, (8192 + (HL mod 8))) + par(DE~)) >= ((CY * 16) mod (-STK1))))",
        [(Some(true), 57), (Some(true), 72), (Some(true), 60)],
    ),
    (
        "(for some K in B..(L mod 4): ((K * (STK1 mod K)) > (STK3 - P)))",
        [(Some(false), 14), (Some(false), 23), (Some(false), 5)],
    ),
    (
        "(for some I in B..(mem[8208] mod 5): (((3 div CY) * mem[(8192 + 16)]) <= ((I - B~) - I)))",
        [(Some(false), 62), (Some(false), 20), (Some(false), 6)],
    ),
    (
        "(for all I in B..2: ((par(B~) div mem[255]) <= (((mem[65534] + (256 * mem[65535])) * H) div (-S))))",
        [(Some(false), 57), (Some(true), 57), (Some(true), 3)],
    ),
    (
        "(bxor(bor(mem[8208], HL), (-STK2)) <> ((-16) div bor(AC, 16)))",
        [(Some(true), 14), (Some(true), 14), (Some(true), 14)],
    ),
    (
        "(((((-HL) - total(8192, (8192 + (L mod 8)))) = (B div (16 * L~))) or ((C + (L + C)) = STK3)) -> (L > (-(L~ div STK2))))",
        [(Some(true), 32), (Some(true), 37), (Some(true), 33)],
    ),
    (
        "(((STK3 - 65535) - STK2) = par(par(16)))",
        [(Some(false), 9), (Some(false), 9), (Some(false), 9)],
    ),
    (
        "((-(H * B)) <= ((A * E~) - CY))",
        [(Some(true), 10), (Some(true), 10), (Some(true), 10)],
    ),
    (
        "(par((mem~[8209] * (mem[65534] + (256 * mem[65535])))) < bor(16, DE~))",
        [(Some(true), 15), (Some(true), 15), (Some(true), 15)],
    ),
    (
        "(total(8192, (8192 + (Z mod 8))) > ((-B) div mem[(8192 + H~)]))",
        [(Some(true), 16), (Some(true), 16), (Some(false), 16)],
    ),
    (
        "(((((total~(8192, (8192 + (5 mod 8))) * CY) mod STK3) > (AC mod HL~)) or (for all J in 1..0: (band((AC div 16), J) > bxor(total(8192, (8192 + (J mod 8))), DE~)))) -> ((255 mod mem[(8192 + S)]) <> bxor(bor(B, CY), (mem[8208] * S))))",
        [(Some(true), 41), (Some(false), 41), (Some(true), 41)],
    ),
];

#[test]
fn notes_have_values(rt: HostRuntime) -> Result<(), Fail> {
    for (text, seen) in &VALUES {
        for ((value, nodes), state) in seen.iter().zip(&STATES) {
            check(&rt, rt.alloc(), state, text, 10_000_000, *value, *nodes)?;
        }
    }
    Ok(())
}

/// A note, the place of a state, a budget, and what is answered.
static BUDGETS: [(&str, usize, u32, Option<bool>, u64); 13] = [
    ("(for all I in 0..3: (I >= 0))", 0, 14, None, 15),
    ("(for all I in 0..3: (I >= 0))", 0, 15, Some(true), 15),
    ("(A = 5)", 0, 3, Some(false), 3),
    (
        "(mem[(8192 + (8208 - 8192))] = mem[8208])",
        0,
        9,
        Some(true),
        9,
    ),
    ("((7 div 0) = 0)", 0, 5, Some(true), 5),
    ("(par(7) = 0)", 0, 4, Some(true), 4),
    ("(for some I in 0..3: (I = 2))", 1, 15, Some(true), 15),
    (
        "((((((HL * HL) * HL) * HL) * HL) * HL) >= 0)",
        2,
        13,
        Some(true),
        13,
    ),
    (
        "(for some K in B..(L mod 4): ((K * (STK1 mod K)) > (STK3 - P)))",
        2,
        5,
        Some(false),
        5,
    ),
    (
        "(((((-HL) - total(8192, (8192 + (L mod 8)))) = (B div (16 * L~))) or ((C + (L + C)) = STK3)) -> (L > (-(L~ div STK2))))",
        2,
        33,
        Some(true),
        33,
    ),
    (
        "(total(8192, (8192 + (Z mod 8))) > ((-B) div mem[(8192 + H~)]))",
        2,
        16,
        Some(false),
        16,
    ),
    (
        "(for all I in 0..(1125899906842624 * 1125899906842624): (I >= 0))",
        0,
        10_000_000,
        None,
        10_000_001,
    ),
    (
        "(total(0, (1125899906842624 * 1125899906842624)) = 0)",
        0,
        10_000_000,
        None,
        10_000_001,
    ),
];

#[test]
fn budgets_are_exact(rt: HostRuntime) -> Result<(), Fail> {
    for (text, place, budget, value, nodes) in &BUDGETS {
        if let Some(state) = STATES.get(*place) {
            check(
                &rt,
                rt.alloc(),
                state,
                text,
                u64::from(*budget),
                *value,
                *nodes,
            )?;
        }
    }
    Ok(())
}
