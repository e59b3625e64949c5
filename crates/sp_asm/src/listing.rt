use sp_base::{Image, Line, Name, Seq};
use sp_expr::Symbols;
use sp_isa::Instr;

/// What a statement is in a listing.
#[derive(Clone, Copy, Debug)]
pub enum ItemKind {
    /// A label alone.
    Label,
    /// An instruction with its operand.
    Instr(Instr),
    /// DB or DW.
    Bytes,
    /// DS.
    Space,
    Org,
    /// EQU, SET or END.
    Other,
}

/// A statement with its line and address. At 65,536, after the last address, stand statements without bytes.
#[derive(Clone, Copy, Debug)]
pub struct Item {
    pub line: Line,
    /// From 0 to 65,536.
    pub addr: u32,
    /// The name before a colon, in upper case.
    pub label: Option<Name>,
    pub kind: ItemKind,
}

/// The statements of a source, by rising line.
pub type Items = Seq<Item>;

/// An assembled source: its statements, its bytes, and its names in order of definition, those of SET with their last
/// values.
#[derive(Drop)]
pub struct Listing {
    pub items: Items,
    pub image: Image,
    pub names: Symbols,
}
