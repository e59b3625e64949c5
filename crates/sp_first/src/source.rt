//! A whole source of the first form.
ghost use Rattle.std.specs.Prelude.{◌≡◌, ◌∷◌, ◌++◌, [], length, map, reverse, codes, IfOk, OnErr};
ghost use Rattle.std.specs.Option.{option_map};
ghost use Rattle.std.specs.List.{list_all};
ghost use Rattle.sp_first.specs.Words.{lines, words};
ghost use Rattle.sp_first.specs.Gives.{Gives};
ghost use Rattle.sp_first.specs.Source.{reading_of_source};
ghost use Rattle.sp_first.specs.Reading as read;
ghost use Rattle.sp_first.specs.Program as program;

use crate::lines::{
    first_change, is_last_line, is_ret_line, literal, move_line, next_register, read_header,
};
use crate::transfer::Transfer;
use crate::words::{is_at_end, next_line};
use sp_base::{Name, Reg};
use std::alloc::{AllocError, AllocFailed, Global};

/// Why a source was not read.
#[derive(Clone, Copy, Debug, PartialEq, Eq)]
pub enum FormRefusal {
    /// It is not of the first form.
    NotFirstForm,
    Memory,
}

impl From<AllocError> for FormRefusal {
    ghost use Rattle.std.specs.Prelude.{◌≡◌};
    ghost use Rattle.sp_first.specs.declared.source.FormRefusal.TheVariants.{Memory};

    ghost from_gives = { λ _ e. e ≡ Memory };

    fn from(_: AllocError) -> Self {
        FormRefusal::Memory
    }
}

impl<T: Drop> From<AllocFailed<T>> for FormRefusal {
    ghost use Rattle.std.specs.Prelude.{◌≡◌};
    ghost use Rattle.sp_first.specs.declared.source.FormRefusal.TheVariants.{Memory};

    ghost from_gives = { λ _ e. e ≡ Memory };

    fn from(_: AllocFailed<T>) -> Self {
        FormRefusal::Memory
    }
}

/// What a source of the first form says, with its numbers read.
#[derive(Debug, Drop)]
pub struct Source {
    pub name: Name,
    pub post: Reg,
    pub value: u16,
    pub changes: Vec<Reg>,
    /// The instructions before RET.
    pub program: Vec<Transfer>,
}

/// Whether no line has more than 4,096 bytes.
fn lines_are_short(source: &[u8]) -> bool
    ensures { result ≡ list_all read.is_short (lines source.now) }
{
    let mut rest = source;
    while let Some((line, below)) = next_line(rest) {
        if line.len() > 4096 {
            return false;
        }
        rest = below;
    }
    true
}

/// The first register of a list, and those that follow in the rest of the line.
fn registers(alloc: Global, first: Reg, line: &[u8]) -> Result<Vec<Reg>, FormRefusal>
    ensures { Gives (λ regs. regs.items) result (option_map (λ regs. first ∷ regs) (read.more_registers (words line.now))) }
{
    let mut regs = Vec::new(alloc);
    regs.push(first)?;
    let mut rest = line;
    while !is_at_end(rest) {
        let Some((reg, behind)) = next_register(rest) else {
            return Err(FormRefusal::NotFirstForm);
        };
        regs.push(reg)?;
        rest = behind;
    }
    Ok(regs)
}

/// The line of the registers that the routine may change.
#[tactic(auto, unfolding(crate::specs::Reading::changes_line))]
fn changes_line(alloc: Global, line: &[u8]) -> Result<Vec<Reg>, FormRefusal>
    ensures { Gives (λ regs. regs.items) result (read.changes_line (words line.now)) }
{
    match first_change(line) {
        Some((first, rest)) => registers(alloc, first, rest),
        None => Err(FormRefusal::NotFirstForm),
    }
}

/// The instructions from a line down to RET, and the lines below it.
fn program_lines<'a>(
    alloc: Global,
    first: &[u8],
    below: &'a [u8],
) -> Result<(Vec<Transfer>, &'a [u8]), FormRefusal>
    ensures { Gives (λ p. (p.0.items, map words (lines p.1.now))) result (read.program_lines (words first.now ∷ map words (lines below.now))) }
{
    let mut program = Vec::new(alloc);
    let mut line = first;
    let mut rest = below;
    while !is_ret_line(line) {
        let Some(instr) = move_line(line) else {
            return Err(FormRefusal::NotFirstForm);
        };
        program.push(instr)?;
        let Some((next, behind)) = next_line(rest) else {
            return Err(FormRefusal::NotFirstForm);
        };
        line = next;
        rest = behind;
    }
    Ok((program, rest))
}

/// The label of a routine: its name and a colon.
fn label(alloc: Global, name: &[u8]) -> Result<Vec<u8>, FormRefusal>
    ensures label { IfOk result (λ label. label.items ≡ name.now ++ codes ":") }
    ensures memory { OnErr result (result ≡ Err FormRefusal.Memory) }
{
    let mut label = name.to_vec(alloc)?;
    label.push(b':')?;
    Ok(label)
}

/// The register's value after the instructions, as they load and copy it; None where none of them sets it.
pub fn last_value(transfers: &[Transfer], reg: Reg) -> Option<u8>
    ensures { result ≡ program.last_value (reverse transfers.now) reg }
{
    let mut wanted = reg;
    let mut n = transfers.len();
    while n > 0 {
        n -= 1;
        match transfers[n] {
            Transfer::Mvi(to, byte) if to == wanted => return Some(byte),
            Transfer::Mov(to, from) if to == wanted => wanted = from,
            _ => {}
        }
    }
    None
}

/// Whether each MOV copies a register that is set above it.
fn copies_set(transfers: &[Transfer]) -> bool
    ensures { result ≡ read.copies_set [] transfers.now }
{
    for n in 0..transfers.len() {
        if let Transfer::Mov(_, from) = transfers[n] {
            if last_value(&transfers[..n], from).is_none() {
                return false;
            }
        }
    }
    true
}

/// The program, whose first line begins with the routine's label, down to the line that ends the routine.
#[tactic(auto, unfolding(crate::specs::Reading::program_of))]
fn read_program(alloc: Global, name: &[u8], source: &[u8]) -> Result<Vec<Transfer>, FormRefusal>
    ensures { Gives (λ instrs. instrs.items) result (read.program_of name.now (map words (lines source.now))) }
{
    let label = label(alloc, name)?;
    let Some((line, below)) = next_line(source) else {
        return Err(FormRefusal::NotFirstForm);
    };
    let Some(line) = literal(line, &label) else {
        return Err(FormRefusal::NotFirstForm);
    };
    let (instrs, below) = program_lines(alloc, line, below)?;
    if is_last_line(below) && instrs.len() <= 16 && copies_set(&instrs) {
        Ok(instrs)
    } else {
        Err(FormRefusal::NotFirstForm)
    }
}

/// Reads a source of the first form.
#[tactic(auto, unfolding(crate::specs::Reading::read_source))]
pub fn read_source(alloc: Global, source: &[u8]) -> Result<Source, FormRefusal>
    ensures { Gives reading_of_source result (read.read_source source.now) }
{
    if lines_are_short(source) {
        read_lines(alloc, source)
    } else {
        Err(FormRefusal::NotFirstForm)
    }
}

#[tactic(auto, unfolding(crate::specs::Reading::reading_of_words))]
fn read_lines(alloc: Global, source: &[u8]) -> Result<Source, FormRefusal>
    ensures { Gives reading_of_source result (read.reading_of_words (map words (lines source.now))) }
{
    let Some(header) = read_header(source) else {
        return Err(FormRefusal::NotFirstForm);
    };
    let changes = changes_line(alloc, header.changes)?;
    let program = read_program(alloc, header.name.as_slice(), header.below)?;
    Ok(Source {
        name: header.name,
        post: header.post,
        value: header.value,
        changes,
        program,
    })
}
