ghost use Rattle.std.specs.Prelude.{◌≡◌, ◌<◌, ◌≤◌, ◌++◌, ◌∷◌, [], IfOk, OnOk, codes};
ghost use Rattle.sp_hex.specs.Hex.{two_digits};
ghost use Rattle.sp_run.specs.Texts.{four_digits, flag_digit, output_line, registers_text, flags_text, ending_text, state_line};

use sp_base::{Loc, Memory, Reg};
use sp_hex::two_digits;
use sp_machine::Machine;
use std::alloc::Global;

/// Adds a label and a byte in two hexadecimal digits.
fn push_byte(text: &mut Vec<u8>, label: &[u8], byte: u8) -> Result<(), Memory>
    ensures { OnOk result (text.new.items ≡ text.old.items ++ label.now ++ two_digits byte) }
{
    text.extend_from_slice(label)?;
    text.extend_from_slice(&two_digits(byte))?;
    Ok(())
}

/// Adds a label and a word in four hexadecimal digits.
fn push_word(text: &mut Vec<u8>, label: &[u8], word: u16) -> Result<(), Memory>
    ensures { OnOk result (text.new.items ≡ text.old.items ++ label.now ++ four_digits word) }
{
    push_byte(text, label, (word / 256) as u8)?;
    push_byte(text, b"", (word % 256) as u8)
}

/// Adds a label and a flag.
fn push_flag(text: &mut Vec<u8>, label: &[u8], flag: u8) -> Result<(), Memory>
    requires { flag ≤ 1 }
    ensures { OnOk result (text.new.items ≡ text.old.items ++ label.now ++ flag_digit flag) }
{
    text.extend_from_slice(label)?;
    text.push(b'0' + flag)?;
    Ok(())
}

/// The first part of the line of a state.
fn registers_text(alloc: Global, machine: &Machine) -> Result<Vec<u8>, Memory>
    ensures { IfOk result (λ text. text.items ≡ registers_text machine.now) }
{
    let mut text = Vec::new(alloc);
    push_byte(&mut text, b"A=", machine.reg(Reg::A))?;
    push_byte(&mut text, b" B=", machine.reg(Reg::B))?;
    push_byte(&mut text, b" C=", machine.reg(Reg::C))?;
    push_byte(&mut text, b" D=", machine.reg(Reg::D))?;
    push_byte(&mut text, b" E=", machine.reg(Reg::E))?;
    push_byte(&mut text, b" H=", machine.reg(Reg::H))?;
    push_byte(&mut text, b" L=", machine.reg(Reg::L))?;
    Ok(text)
}

fn push_flags(text: &mut Vec<u8>, machine: &Machine) -> Result<(), Memory>
    ensures { OnOk result (text.new.items ≡ text.old.items ++ flags_text machine.now) }
{
    push_flag(text, b" S=", machine.flag(Loc::S))?;
    push_flag(text, b" Z=", machine.flag(Loc::Z))?;
    push_flag(text, b" AC=", machine.flag(Loc::Ac))?;
    push_flag(text, b" P=", machine.flag(Loc::P))?;
    push_flag(text, b" CY=", machine.flag(Loc::Cy))?;
    Ok(())
}

/// Adds how a run of at most `limit` steps ended.
fn push_ending(text: &mut Vec<u8>, limit: u32, steps: u32, machine: &Machine) -> Result<(), Memory>
    ensures { OnOk result (text.new.items ≡ text.old.items ++ codes " " ++ ending_text limit steps machine.now) }
{
    if machine.halted() {
        text.extend_from_slice(b" halted")?;
    } else if steps < limit {
        push_byte(text, b" stuck ", machine.cell(machine.pc()))?;
    } else {
        text.extend_from_slice(b" running")?;
    }
    Ok(())
}

/// The line of the last state of a run of at most `limit` steps.
pub fn state_line(
    alloc: Global,
    limit: u32,
    steps: u32,
    machine: &Machine,
) -> Result<Vec<u8>, Memory>
    ensures { IfOk result (λ line. line.items ≡ state_line limit steps machine.now) }
{
    let mut line = registers_text(alloc, machine)?;
    push_flags(&mut line, machine)?;
    push_word(&mut line, b" SP=", machine.sp())?;
    push_word(&mut line, b" PC=", machine.pc())?;
    let digits = format!(in alloc; "{steps}")?;
    line.extend_from_slice(b" steps=")?;
    line.extend_from_slice(digits.as_bytes())?;
    push_ending(&mut line, limit, steps, machine)?;
    line.push(b'\n')?;
    Ok(line)
}

/// Adds the line of a byte that was put out at a port.
pub fn push_output(text: &mut Vec<u8>, port: u8, byte: u8) -> Result<(), Memory>
    ensures { OnOk result (text.new.items ≡ text.old.items ++ output_line (port, byte)) }
{
    push_byte(text, b"out ", port)?;
    push_byte(text, b" ", byte)?;
    text.push(b'\n')?;
    Ok(())
}
