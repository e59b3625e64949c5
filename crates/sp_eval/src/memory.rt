//! Memory as notes see it: the stack region has zeros, and so has what is no address.
ghost use Rattle.std.specs.Prelude.{◌≡◌, ◌-◌, ◌≤◌, ◌+ℤ◌, pos};
ghost use Rattle.sp_base.specs.Integers.{sum_from, sum_between};
ghost use Rattle.sp_isa.specs.Core.{IsCore};
ghost use Rattle.sp_logic.specs.View.{frame_of};
ghost use Rattle.sp_model.specs.Note.{shown};
ghost use Rattle.sp_eval.specs.code.Small.{IsClamped};

use sp_logic::Frame;
use sp_machine::Machine;

/// The byte at an address, 0 in the stack region.
fn byte_at(machine: &Machine, frame: Frame, address: u16) -> u8
    ensures { pos result ≡ shown (frame_of frame) machine.now.cells (pos address) }
{
    if frame.first <= address && address <= frame.last {
        0
    } else {
        machine.cell(address)
    }
}

/// The cell at a number.
pub fn cell_at(machine: &Machine, frame: Frame, number: i128) -> u8
    requires { IsCore machine.now }
    ensures { pos result ≡ shown (frame_of frame) machine.now.cells number }
{
    if 0 <= number && number < 65_536 {
        byte_at(machine, frame, number as u16)
    } else {
        0
    }
}

/// The sum of the cells from an address to the one before another.
fn sum_of(machine: &Machine, frame: Frame, first: u32, end: u32) -> u32
    requires order { first ≤ end }
    requires within { end ≤ 65536 }
    ensures { pos result ≡ sum_from (shown (frame_of frame) machine.now.cells) (pos first) (end - first) }
{
    let mut sum = 0;
    for address in first..end {
        sum += u32::from(byte_at(machine, frame, address as u16));
    }
    sum
}

/// The number from 0 to 65,536 that is nearest to a number.
fn clamped(number: i128) -> u32
    ensures { IsClamped number result }
{
    if number <= 0 {
        0
    } else if number >= 65_536 {
        65_536
    } else {
        number as u32
    }
}

/// The number from 0 to 65,536 that is nearest to the number past another.
fn clamped_end(number: i128) -> u32
    ensures { IsClamped (number +ℤ pos 1) result }
{
    if number < 0 {
        0
    } else if number >= 65_535 {
        65_536
    } else {
        number as u32 + 1
    }
}

/// The sum of the cells from one number through another.
pub fn total(machine: &Machine, frame: Frame, low: i128, high: i128) -> u32
    requires { IsCore machine.now }
    ensures { pos result ≡ sum_between (shown (frame_of frame) machine.now.cells) low high }
{
    let first = clamped(low);
    let end = clamped_end(high);
    if first < end {
        sum_of(machine, frame, first, end)
    } else {
        0
    }
}
