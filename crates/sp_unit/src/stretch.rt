//! Stretches of lines.
ghost use Rattle.std.specs.Prelude.{◌≡◌, map};
ghost use Rattle.std.specs.List.{list_any};
ghost use Rattle.sp_unit.specs.Faults.{address_at, first_of, is_entered, is_label};
ghost use Rattle.sp_unit.specs.Lines as lines;
ghost use Rattle.sp_unit.specs.code.Entries.{entry_of, entries_of};

use crate::entry::Entry;
use sp_base::Name;

/// The lines of a header, of those below its `routine` line.
pub(crate) fn header<'a, 'b>(below: &'b [Entry<'a>]) -> &'b [Entry<'a>]
    ensures { entries_of result.now ≡ lines.header (entries_of below.now) }
{
    for (i, e) in below.iter().enumerate() {
        if e.ends_header() {
            return &below[..i];
        }
    }
    below
}

/// The lines of a routine, of those below its `routine` line.
pub(crate) fn inside<'a, 'b>(below: &'b [Entry<'a>]) -> &'b [Entry<'a>]
    ensures { entries_of result.now ≡ lines.inside (entries_of below.now) }
{
    for (i, e) in below.iter().enumerate() {
        if e.is_end() {
            return &below[..i];
        }
    }
    below
}

fn any_start(all: &[Entry<'_>]) -> bool
    ensures { result ≡ list_any (λ e. lines.is_start (entry_of e)) all.now }
{
    all.iter().any(|e| e.is_start())
}

/// Whether one of these lines says that its routine is a start routine.
#[tactic(auto, using(crate::proofs::PlaceLemmas::any_mapped))]
pub(crate) fn has_start(all: &[Entry<'_>]) -> bool
    ensures { result ≡ list_any lines.is_start (entries_of all.now) }
{
    any_start(all)
}

fn any_end(all: &[Entry<'_>]) -> bool
    ensures { result ≡ list_any (λ e. lines.is_end (entry_of e)) all.now }
{
    all.iter().any(|e| e.is_end())
}

/// Whether one of these lines ends a routine.
#[tactic(auto, using(crate::proofs::PlaceLemmas::any_mapped))]
pub(crate) fn has_end(all: &[Entry<'_>]) -> bool
    ensures { result ≡ list_any lines.is_end (entries_of all.now) }
{
    any_end(all)
}

/// Whether an instruction of a routine stands among the lines below a place of it.
pub(crate) fn reaches_instruction(below: &[Entry<'_>]) -> bool
    ensures { result ≡ list_any lines.is_instruction (lines.inside (entries_of below.now)) }
{
    for e in below {
        if e.is_end() {
            return false;
        }
        if e.is_instruction() {
            return true;
        }
    }
    false
}

/// The address of the first instruction of these lines.
pub(crate) fn first_address(all: &[Entry<'_>]) -> Option<u32>
    ensures { result ≡ first_of address_at (entries_of all.now) }
{
    for e in all {
        if let Some(addr) = e.address() {
            return Some(addr);
        }
    }
    None
}

fn any_label(all: &[Entry<'_>], name: &Name, addr: u32) -> bool
    ensures { result ≡ list_any (λ e. is_label name.now addr (entry_of e)) all.now }
{
    all.iter().any(|e| e.is_label(name, addr))
}

/// Whether the name is a label of these lines, at their first instruction.
#[tactic(auto, using(crate::proofs::PlaceLemmas::any_mapped))]
pub(crate) fn is_entered(name: &Name, all: &[Entry<'_>]) -> bool
    ensures { result ≡ is_entered name.now (entries_of all.now) }
{
    match first_address(all) {
        Some(addr) => any_label(all, name, addr),
        None => false,
    }
}
