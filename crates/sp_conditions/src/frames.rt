//! How memory variables are related to the memories before them.
ghost use Rattle.std.specs.Prelude.{◌≡◌, ◌++◌, All, IfOk, OnOk, map};
ghost use Rattle.sp_prog.specs.View.{listed_areas};
ghost use Rattle.sp_term.specs.Conditions.{change_of};
ghost use Rattle.sp_cond.specs.Execution.{call_change, change, span};
ghost use Rattle.sp_conditions.specs.code.Cells.{HasCells};

use crate::place::area_at;
use bumpalo::Bump;
use bumpalo::collections::into_bump_slice;
use sp_base::Memory;
use sp_prog::Area;
use sp_term::{MemFrame, Term, Var};

/// How memory variables are related, in an arena.
pub type Frames<'a> = Vec<MemFrame<'a>, &'a Bump>;

/// The first and last addresses of areas.
#[derive(Clone, Copy, Drop)]
pub struct Spans<'a> {
    pub list: &'a [(u16, u16)],
}

/// The first and the last address of an area.
fn span(area: &Area) -> (u16, u16)
    requires { HasCells area.now }
    ensures { result ≡ span area.now }
{
    (area.addr, area.addr + (area.len - 1))
}

/// The first and last addresses of the areas at some places.
#[tactic(auto, using(crate::proofs::PlaceLemmas::cells_at))]
pub fn spans_of<'a>(arena: &'a Bump, areas: &[Area], places: &[usize]) -> Result<Spans<'a>, Memory>
    requires { All HasCells areas.now }
    ensures { IfOk result (λ s. s.list.now ≡ map span (listed_areas areas.now places.now)) }
{
    let mut list = Vec::new(arena);
    'places: for place in places {
        if let Some(area) = area_at(areas, *place) {
            list.push(span(&area))?;
        }
    }
    Ok(Spans {
        list: into_bump_slice(list),
    })
}

/// A memory variable that differs from an earlier memory in the areas at some places alone.
pub fn frame<'a>(
    arena: &'a Bump,
    areas: &[Area],
    variable: Var,
    earlier: &'a Term<'a>,
    places: &[usize],
) -> Result<MemFrame<'a>, Memory>
    requires { All HasCells areas.now }
    ensures { IfOk result (λ f. change_of f ≡ change areas.now variable earlier.now places.now) }
{
    let spans = spans_of(arena, areas, places)?;
    Ok(MemFrame {
        variable,
        earlier,
        areas: spans.list,
    })
}

/// Adds how the memory after the j-th call is related to that before it, where the callee lists an area.
pub fn add_call<'a>(
    arena: &'a Bump,
    areas: &[Area],
    places: &[usize],
    j: u32,
    earlier: &'a Term<'a>,
    out: &mut Frames<'a>,
) -> Result<(), Memory>
    requires { All HasCells areas.now }
    ensures { OnOk result (map change_of out.new.items ≡ map change_of out.old.items ++ call_change areas.now places.now j earlier.now) }
{
    if places.is_empty() {
        return Ok(());
    }
    let frame = frame(arena, areas, Var::MemAfter(j), earlier, places)?;
    out.push(frame)?;
    Ok(())
}
