use sp_base::{Line, Locs, Name, Seq};
use sp_isa::Instr;
use sp_logic::Note;

/// An annotation with its line.
#[derive(Debug, Drop)]
pub struct Noted {
    pub line: Line,
    pub note: Note,
}

/// Annotations by rising line.
pub type Noteds = Seq<Noted>;

/// An instruction at its address, with what is asserted there.
#[derive(Debug, Drop)]
pub struct Stmt {
    pub line: Line,
    pub addr: u16,
    pub instr: Instr,
    /// What holds whenever the instruction is reached.
    pub asserts: Noteds,
}

/// Instructions by rising address.
pub type Stmts = Seq<Stmt>;

/// Places of areas among those of a unit.
pub type Places = Seq<usize>;

/// Ports of input or output.
pub type Ports = Seq<u8>;

/// Registers, flags and areas that a routine reads or changes.
#[derive(Debug, Drop)]
pub struct Lists {
    pub locs: Locs,
    /// Each area once, in the order of first mention.
    pub areas: Places,
}

/// A routine with its annotations.
#[derive(Debug, Drop)]
pub struct Routine {
    /// The label of the first instruction.
    pub name: Name,
    /// The line on which its header begins.
    pub line: Line,
    /// Whether it begins a program: it is called by none, returns to none, and loads SP first.
    pub start: bool,
    /// What is true at entry.
    pub pre: Noteds,
    /// What is true at return.
    pub post: Noteds,
    pub reads: Lists,
    pub changes: Lists,
    /// The ports from which bytes may be taken.
    pub ins: Ports,
    /// The ports to which bytes may be put.
    pub outs: Ports,
    /// How many bytes of stack the routine takes below its base.
    pub depth: u16,
    pub code: Stmts,
}

/// Routines by rising address.
pub type Routines = Seq<Routine>;
