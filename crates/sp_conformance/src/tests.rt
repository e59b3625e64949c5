//! What the tables share: a machine with bytes in memory, and its flags as digits.
mod codes;
mod edges;
mod examples;
mod exerciser;
mod locations;
mod status_word;
mod wrapping;

use sp_base::{Loc, Memory, Reg};
use sp_machine::{Event, Machine};
use std::alloc::Global;
use std::process::Abort;

/// A machine with bytes from an address on, which is also its program counter.
fn loaded(alloc: Global, pc: u16, bytes: &[u8]) -> Result<Machine, Memory> {
    let mut machine = Machine::new(alloc)?;
    let mut a = pc;
    for byte in bytes {
        machine.set_cell(a, *byte);
        a = a.wrapping_add(1);
    }
    machine.set_pc(pc);
    Ok(machine)
}

/// S, Z, AC, P and CY, each a digit.
fn flags(machine: &Machine) -> [u8; 5] {
    [
        machine.flag(Loc::S),
        machine.flag(Loc::Z),
        machine.flag(Loc::Ac),
        machine.flag(Loc::P),
        machine.flag(Loc::Cy),
    ]
}

/// Gives S, Z, AC, P and CY these values, 0 or 1.
fn set_flags(machine: &mut Machine, [s, z, ac, p, cy]: [u8; 5]) {
    machine.set_flag(Loc::S, s % 2);
    machine.set_flag(Loc::Z, z % 2);
    machine.set_flag(Loc::Ac, ac % 2);
    machine.set_flag(Loc::P, p % 2);
    machine.set_flag(Loc::Cy, cy % 2);
}

/// The program counter and the stack pointer, which tell the row of a table where a comparison fails.
fn place(machine: &Machine) -> (u16, u16) {
    (machine.pc(), machine.sp())
}

/// These registers have these bytes.
fn check_regs(rt: &impl Abort, machine: &Machine, regs: &[(Reg, u8)]) {
    for (r, byte) in regs {
        let place = place(machine);
        assert_eq!(rt; machine.reg(*r), *byte, "{r:?} at {place:?}");
    }
}

/// The cells at these addresses have these bytes.
fn check_cells(rt: &impl Abort, machine: &Machine, cells: &[(u16, u8)]) {
    for (a, byte) in cells {
        let place = place(machine);
        assert_eq!(rt; machine.cell(*a), *byte, "{a} at {place:?}");
    }
}

/// The flags have these values.
fn check_flags(rt: &impl Abort, machine: &Machine, values: [u8; 5]) {
    let place = place(machine);
    assert_eq!(rt; flags(machine), values, "at {place:?}");
}

/// Runs an instruction that goes on, and compares the program counter and the stack pointer after it.
fn check_step(rt: &impl Abort, machine: &mut Machine, pc: u16, sp: u16) {
    let start = machine.pc();
    let code = machine.cell(start);
    assert_eq!(rt;
        (machine.step(0), place(machine)),
        (Event::Plain, (pc, sp)),
        "{code} at {start}"
    );
}

/// Runs the instruction of one byte at address 0, with these bytes in A and B and these flags, and compares A and the
/// flags after it. B stays.
fn check_operation(
    rt: &impl Abort,
    machine: &mut Machine,
    [a, b]: [u8; 2],
    before: [u8; 5],
    a_after: u8,
    after: [u8; 5],
) {
    machine.set_pc(0);
    machine.set_reg(Reg::A, a);
    machine.set_reg(Reg::B, b);
    set_flags(machine, before);
    check_step(rt, machine, 1, 0);
    let code = machine.cell(0);
    assert_eq!(rt;
        (machine.reg(Reg::A), machine.reg(Reg::B), flags(machine)),
        (a_after, b, after),
        "{code} {a} {b} {before:?}"
    );
}
