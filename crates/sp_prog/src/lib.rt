//! Programs with their annotations: areas, routines and instructions, and the rules that they keep.
#![tactic(auto)]

mod area;
mod laws;
mod routine;
mod unit;

pub use area::{Area, AreaKind, Areas};
pub use laws::{
    lists_have_their_locations, units_are_programs, units_keep_code, units_keep_notes,
    units_keep_regions_apart,
};
pub use routine::{Lists, Noted, Noteds, Places, Ports, Routine, Routines, Stmt, Stmts};
pub use unit::Unit;
