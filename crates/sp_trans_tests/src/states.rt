//! Symbolic states as texts.
ghost use Rattle.std.specs.Prelude.{◌≡◌, IfSome, length};

use bumpalo::Bump;
use bumpalo::collections::into_bump_slice;
use sp_base::Memory;
use sp_fdl::{print, read};
use sp_term::Term;
use sp_trans::Sym;
use std::alloc::Global;

/// The terms of the registers and flags, of memory, and of the words on the stack from the base down.
pub struct Texts {
    pub locs: [&'static str; 12],
    pub mem: &'static str,
    pub words: &'static [(&'static str, &'static str)],
}

static NAMES: [&str; 12] = ["A", "B", "C", "D", "E", "H", "L", "S", "Z", "AC", "P", "CY"];

fn term<'a>(alloc: Global, arena: &'a Bump, text: &str) -> Option<&'a Term<'a>> {
    read(alloc, text.as_bytes(), arena).ok()
}

/// The symbolic state of these texts. None where one isn't a term, or memory runs out.
pub fn symbolic<'a>(alloc: Global, arena: &'a Bump, texts: &Texts) -> Option<Sym<'a>>
    ensures { IfSome result (λ s. length s.locs.now ≡ 12) }
{
    let mut locs = Vec::new(arena);
    for text in &texts.locs {
        locs.push(term(alloc, arena, text)?).ok()?;
    }
    let mut slots = Vec::new(arena);
    for (high, low) in texts.words {
        let high = term(alloc, arena, high)?;
        let low = term(alloc, arena, low)?;
        slots.push((high, low)).ok()?;
    }
    let mem = term(alloc, arena, texts.mem)?;
    if locs.len() != 12 {
        return None;
    }
    Some(Sym {
        locs: into_bump_slice(locs),
        mem,
        slots: into_bump_slice(slots),
    })
}

/// Adds the text of a term, with its name, where it isn't the one before.
fn push_changed(
    alloc: Global,
    out: &mut Vec<u8>,
    name: &str,
    t: &Term,
    before: &str,
) -> Result<(), Memory> {
    let text = print(alloc, t)?;
    if text.as_slice() != before.as_bytes() {
        out.extend_from_slice(name.as_bytes())?;
        out.extend_from_slice(b": ")?;
        out.extend_from_slice(text.as_slice())?;
        out.extend_from_slice(b"\n")?;
    }
    Ok(())
}

/// The words of a symbolic state, one a line.
fn words_text(alloc: Global, slots: &[(&Term, &Term)]) -> Result<Vec<u8>, Memory> {
    let mut out = Vec::new(alloc);
    for (high, low) in slots {
        out.extend_from_slice(print(alloc, high)?.as_slice())?;
        out.extend_from_slice(b" ; ")?;
        out.extend_from_slice(print(alloc, low)?.as_slice())?;
        out.extend_from_slice(b"\n")?;
    }
    Ok(out)
}

/// What a symbolic state has that these texts don't: its terms by name, and all words where one is another.
pub fn changes(
    alloc: Global,
    texts: &Texts,
    before: Sym<'_>,
    after: Sym<'_>,
) -> Result<Vec<u8>, Memory>
    requires { length after.locs.now ≡ 12 }
{
    let mut out = Vec::new(alloc);
    for n in 0..12usize {
        push_changed(alloc, &mut out, NAMES[n], after.locs[n], texts.locs[n])?;
    }
    push_changed(alloc, &mut out, "mem", after.mem, texts.mem)?;
    let old = words_text(alloc, before.slots)?;
    let new = words_text(alloc, after.slots)?;
    if old.as_slice() != new.as_slice() {
        out.extend_from_slice(b"words:\n")?;
        out.extend_from_slice(new.as_slice())?;
    }
    Ok(out)
}
