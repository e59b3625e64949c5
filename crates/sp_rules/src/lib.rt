//! The rules of scripts: steps on a list of subgoals, one call a rule (this project's own).
#![tactic(auto)]

mod bytes;
mod combination;
mod formulas;
mod fresh;
mod goals;
mod logic;
mod memories;
mod numbers;
mod quantifiers;
mod replacement;
mod rewriting;
mod simplifying;
mod totals;
mod work;

pub use bytes::{bitof, bits};
pub use combination::linear;
pub use goals::{After, Case, Goals, Subgoal};
pub use logic::{cases, close, cut, intro, side, split, unpack, use_both};
pub use memories::{frame, read, rom};
pub use numbers::{divmod, range};
pub use quantifiers::{at, choose, fix, give, induct, pick};
pub use rewriting::rewrite;
pub use simplifying::simp;
pub use totals::{empty, last, over};
