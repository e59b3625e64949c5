//! What registers, flags, pairs and words of the stack have.
ghost use Rattle.std.specs.Prelude.{◌≡◌};
ghost use Rattle.sp_isa.specs.Core.{at, word};
ghost use Rattle.sp_logic.specs.View.{pair_of, frame_of};
ghost use Rattle.sp_model.specs.Note.{register_pair, stack_address};

use sp_base::{Loc, Reg};
use sp_logic::{Frame, RegisterPair};
use sp_machine::Machine;

/// What a register or a flag has.
pub fn location_value(machine: &Machine, location: Loc) -> u8
    ensures { result ≡ at location machine.now }
{
    match location {
        Loc::A => machine.reg(Reg::A),
        Loc::B => machine.reg(Reg::B),
        Loc::C => machine.reg(Reg::C),
        Loc::D => machine.reg(Reg::D),
        Loc::E => machine.reg(Reg::E),
        Loc::H => machine.reg(Reg::H),
        Loc::L => machine.reg(Reg::L),
        Loc::S | Loc::Z | Loc::Ac | Loc::P | Loc::Cy => machine.flag(location),
    }
}

/// The word in a register pair, its high byte in the first register.
pub fn pair_value(machine: &Machine, pair: RegisterPair) -> u16
    ensures { result ≡ register_pair (pair_of pair) machine.now }
{
    let (high, low) = match pair {
        RegisterPair::Bc => (Reg::B, Reg::C),
        RegisterPair::De => (Reg::D, Reg::E),
        RegisterPair::Hl => (Reg::H, Reg::L),
    };
    256 * u16::from(machine.reg(high)) + u16::from(machine.reg(low))
}

/// The k-th word below the base of the stack, its low byte first.
pub fn stack_word(machine: &Machine, frame: Frame, k: u16) -> u16
    ensures { result ≡ word (stack_address (frame_of frame) k) machine.now }
{
    let above = u64::from(frame.base) + 65_536;
    let address = above.saturating_sub(2 * u64::from(k));
    let low = machine.cell((address % 65_536) as u16);
    let high = machine.cell(((address + 1) % 65_536) as u16);
    u16::from(low) + 256 * u16::from(high)
}
