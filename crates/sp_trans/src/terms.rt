//! The terms of a symbolic state, each by its name.
ghost use Rattle.std.specs.Prelude.{◌≡◌, ◌+◌, ◌∷◌, length, map, reverse, IfOk};
ghost use Rattle.sp_base.specs.Location.{loc_of};
ghost use Rattle.sp_trans.specs.Symbolic.{term_at, with_term, with_memory, with_slots};
ghost use Rattle.sp_trans.specs.View.{symbolic_of, word_of};
ghost use Rattle.sp_trans.specs.code.Terms.{state};

use crate::Sym;
use bumpalo::Bump;
use bumpalo::collections::into_bump_slice;
use sp_base::{Loc, Memory};
use sp_term::Term;

/// A word on the stack: its high and its low byte.
pub type Word<'a> = (&'a Term<'a>, &'a Term<'a>);

#[derive(Clone, Copy, Drop)]
pub struct Terms<'a> {
    pub a: &'a Term<'a>,
    pub b: &'a Term<'a>,
    pub c: &'a Term<'a>,
    pub d: &'a Term<'a>,
    pub e: &'a Term<'a>,
    pub h: &'a Term<'a>,
    pub l: &'a Term<'a>,
    pub s: &'a Term<'a>,
    pub z: &'a Term<'a>,
    pub ac: &'a Term<'a>,
    pub p: &'a Term<'a>,
    pub cy: &'a Term<'a>,
    pub memory: &'a Term<'a>,
    pub slots: &'a [(&'a Term<'a>, &'a Term<'a>)],
}

/// The terms of a symbolic state.
pub fn terms_of<'a>(sym: Sym<'a>) -> Terms<'a>
    requires { length sym.locs.now ≡ 12 }
    ensures state { state result ≡ symbolic_of sym.entry }
    ensures words { length result.slots.now ≡ length sym.entry.slots.now }
{
    let locs = sym.locs;
    Terms {
        a: locs[0],
        b: locs[1],
        c: locs[2],
        d: locs[3],
        e: locs[4],
        h: locs[5],
        l: locs[6],
        s: locs[7],
        z: locs[8],
        ac: locs[9],
        p: locs[10],
        cy: locs[11],
        memory: sym.mem,
        slots: sym.slots,
    }
}

impl<'a> Terms<'a> {
    /// The symbolic state of these terms.
    pub fn into_sym(self, arena: &'a Bump) -> Result<Sym<'a>, Memory>
        ensures state { IfOk result (λ sym. symbolic_of sym ≡ state self.entry) }
        ensures length { IfOk result (λ sym. length sym.locs.now ≡ 12) }
    {
        let mut locs = Vec::new(arena);
        locs.extend_from_slice(&[
            self.a, self.b, self.c, self.d, self.e, self.h, self.l, self.s, self.z, self.ac,
            self.p, self.cy,
        ])?;
        Ok(Sym {
            locs: into_bump_slice(locs),
            mem: self.memory,
            slots: self.slots,
        })
    }

    /// The term of a register or a flag.
    pub fn at(self, x: Loc) -> &'a Term<'a>
        ensures { result.now ≡ term_at x (state self.entry) }
    {
        match x {
            Loc::A => self.a,
            Loc::B => self.b,
            Loc::C => self.c,
            Loc::D => self.d,
            Loc::E => self.e,
            Loc::H => self.h,
            Loc::L => self.l,
            Loc::S => self.s,
            Loc::Z => self.z,
            Loc::Ac => self.ac,
            Loc::P => self.p,
            Loc::Cy => self.cy,
        }
    }

    /// These terms with another one for a register or a flag.
    #[tactic(auto, unfolding(crate::specs::Symbolic::with_term))]
    pub fn with(self, x: Loc, t: &'a Term<'a>) -> Terms<'a>
        ensures { state result ≡ with_term x t.now (state self.entry) }
    {
        match x {
            Loc::A => Terms { a: t, ..self },
            Loc::B => Terms { b: t, ..self },
            Loc::C => Terms { c: t, ..self },
            Loc::D => Terms { d: t, ..self },
            Loc::E => Terms { e: t, ..self },
            Loc::H => Terms { h: t, ..self },
            Loc::L => Terms { l: t, ..self },
            Loc::S => Terms { s: t, ..self },
            Loc::Z => Terms { z: t, ..self },
            Loc::Ac => Terms { ac: t, ..self },
            Loc::P => Terms { p: t, ..self },
            Loc::Cy => Terms { cy: t, ..self },
        }
    }

    #[tactic(auto, unfolding(crate::specs::Symbolic::with_memory))]
    pub fn with_memory(self, t: &'a Term<'a>) -> Terms<'a>
        ensures { state result ≡ with_memory t.now (state self.entry) }
    {
        Terms { memory: t, ..self }
    }

    /// These terms with other words on the stack.
    #[tactic(auto, unfolding(crate::specs::Symbolic::with_slots))]
    pub fn with_slots(self, slots: &'a [(&'a Term<'a>, &'a Term<'a>)]) -> Terms<'a>
        ensures { state result ≡ with_slots (reverse (map word_of slots.now)) (state self.entry) }
    {
        Terms { slots, ..self }
    }

    /// These terms with one more word on the stack.
    #[tactic(auto, unfolding(crate::specs::Symbolic::with_slots))]
    pub fn with_word(self, arena: &'a Bump, word: Word<'a>) -> Result<Terms<'a>, Memory>
        ensures { IfOk result (λ r. state r ≡
            with_slots (word_of word.entry ∷ (state self.entry).slots) (state self.entry)) }
    {
        let mut slots = Vec::new(arena);
        slots.extend_from_slice(self.slots)?;
        slots.push(word)?;
        Ok(Terms {
            slots: into_bump_slice(slots),
            ..self
        })
    }
}
