//! Return steps.
ghost use Rattle.std.specs.Prelude.{◌≡◌, ◌↔◌, IsTrue};
ghost use Rattle.sp_isa.specs.Effect.{returns};
ghost use Rattle.sp_isa.specs.Stack.{holds};
ghost use Rattle.sp_machine.specs.code.Machine.{fetched};
ghost use Rattle.sp_trial.specs.code.Returning.{ReturnsTo, executes_return};

use sp_base::Loc;
use sp_isa::{Cond, Instr, decode};
use sp_machine::Machine;

/// Whether a condition holds.
fn holds(machine: &Machine, when: Cond) -> bool
    ensures { result ≡ holds when machine.now }
{
    match when {
        Cond::Nz => machine.flag(Loc::Z) == 0,
        Cond::Z => machine.flag(Loc::Z) == 1,
        Cond::Nc => machine.flag(Loc::Cy) == 0,
        Cond::C => machine.flag(Loc::Cy) == 1,
        Cond::Po => machine.flag(Loc::P) == 0,
        Cond::Pe => machine.flag(Loc::P) == 1,
        Cond::P => machine.flag(Loc::S) == 0,
        Cond::M => machine.flag(Loc::S) == 1,
    }
}

/// Whether an instruction returns.
fn returns(machine: &Machine, i: Instr) -> bool
    ensures { result ≡ returns i machine.now }
{
    match i {
        Instr::Ret => true,
        Instr::Rcc(when) => holds(machine, when),
        _ => false,
    }
}

/// The three bytes at the program counter.
fn fetch(machine: &Machine) -> [u8; 3]
    ensures { result ≡ fetched machine.now }
{
    let pc = machine.pc();
    [
        machine.cell(pc),
        machine.cell(pc.wrapping_add(1)),
        machine.cell(pc.wrapping_add(2)),
    ]
}

/// Whether the instruction at the program counter returns.
fn executes_return(machine: &Machine) -> bool
    ensures { result ≡ executes_return machine.now }
{
    let bytes = fetch(machine);
    match decode(bytes) {
        Some((i, _)) => returns(machine, i),
        None => false,
    }
}

/// Whether the next step returns with SP at the base of the routine's stack.
pub fn is_return_step(machine: &Machine, base: u32) -> bool
    ensures { IsTrue result ↔ ReturnsTo base machine.now }
{
    !machine.halted() && u32::from(machine.sp()) == base && executes_return(machine)
}
