use sp_base::Name;

/// How an area is declared. The name of a byte stands for its cell, that of a word for its first cell plus 256 times the
/// next, and that of bytes has its cells by number.
#[derive(Clone, Copy, Debug, PartialEq, Eq)]
pub enum AreaKind {
    Byte,
    Word,
    Bytes,
}

/// Cells of memory with a name.
#[derive(Clone, Copy, Debug)]
pub struct Area {
    pub name: Name,
    pub kind: AreaKind,
    /// The first cell.
    pub addr: u16,
    /// How many cells.
    pub len: u16,
}

/// The areas of a unit, in the order of their lines.
pub type Areas = sp_base::Seq<Area>;
