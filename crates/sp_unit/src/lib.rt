//! The unit of a source: its statements and annotation lines, as one program with its annotations.
#![tactic(auto)]

mod above;
mod area_places;
mod entry;
mod faults;
mod joining;
mod laws;
mod lines;
mod lists;
mod merge;
mod noted;
mod place;
mod ports;
mod pushed;
mod refusal;
mod regions;
mod resolve;
mod routine;
mod routines;
mod rules;
mod scope;
mod seen;
mod stack;
mod statements;
mod stretch;
mod tables;
mod words;

pub use joining::join;
pub use laws::{
    places_are_found, sources_have_one_cause, units_of_sources_keep_the_rules, values_are_of_trees,
};
pub use refusal::{UnitKind, UnitRefusal};
pub use rules::check;
