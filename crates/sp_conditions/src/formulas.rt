//! Annotations as formulas, in a list of an arena.
ghost use Rattle.std.specs.Prelude.{◌≡◌, ◌++◌, All, OnOk, length};
ghost use Rattle.sp_logic.specs.View.{note_of};
ghost use Rattle.sp_prog.specs.Rules.{IsEvaluable};
ghost use Rattle.sp_term.specs.Conditions.{trees};
ghost use Rattle.sp_trans.specs.View.{symbolic_of};
ghost use Rattle.sp_cond.specs.Execution.{formulas_of};
ghost use Rattle.sp_conditions.specs.code.Notes.{NotesFit};

use bumpalo::Bump;
use sp_base::Memory;
use sp_prog::Noted;
use sp_term::Term;
use sp_trans::{Sym, note_term};

/// Formulas in an arena.
pub type Formulas<'a> = Vec<&'a Term<'a>, &'a Bump>;

/// Adds annotations as formulas over the entry's state and the present one.
pub fn add_formulas<'a>(
    arena: &'a Bump,
    notes: &[Noted],
    entry: Sym<'a>,
    now: Sym<'a>,
    out: &mut Formulas<'a>,
) -> Result<(), Memory>
    requires notes { All IsEvaluable notes.now }
    requires words { NotesFit (length now.slots.now) notes.now }
    requires entry { length entry.locs.now ≡ 12 }
    requires now { length now.locs.now ≡ 12 }
    ensures { OnOk result (trees out.new.items ≡ trees out.old.items ++ formulas_of (symbolic_of entry.entry) (symbolic_of now.entry) notes.now) }
{
    'notes: for noted in notes {
        let formula = note_term(arena, &noted.note, entry, now)?;
        out.push(formula)?;
    }
    Ok(())
}
