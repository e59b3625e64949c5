//! What the names of annotation lines mean.

use indexmap::IndexMap;
use sp_base::{Image, Name};
use sp_expr::Symbols;
use sp_note::NoteLine;
use sp_prog::Area;

/// The areas of a source by their names, the first of each name.
pub(crate) type AreaTable = IndexMap<Name, Area>;

/// The stack region, the areas and the names of a source.
#[derive(Drop)]
pub(crate) struct Scope<'a> {
    pub areas: AreaTable,
    pub names: &'a Symbols,
    pub image: &'a Image,
    pub notes: &'a [NoteLine],
    /// The first and the last cell of the stack region.
    pub stack: Option<(u16, u16)>,
}
