use sp_base::{Line, Locs, Name, Seq};
use sp_expr::Expr;
use sp_logic::RawNote;

/// What an item of `reads` or `changes` names.
#[derive(Debug, Drop)]
pub enum Listed {
    /// A register, the two of a pair, a flag, or with FLAGS the five flags.
    Locs(Locs),
    /// An area, by its name.
    Area(Name),
}

/// The items of `reads` or `changes`, in order. Contracts see a list.
pub type Items = Seq<Listed>;

/// The ports of `ins` or `outs`, in order. Contracts see a list.
pub type Ports = Seq<Expr>;

/// What an annotation line says. Names are in upper case, and an expression has names of the assembler.
#[derive(Debug, Drop)]
pub enum Part {
    /// `stack FIRST, LAST`: the first and the last cell of the stack region.
    Stack(Expr, Expr),
    /// `byte NAME, ADDR`: an area of one cell.
    Byte(Name, Expr),
    /// `word NAME, ADDR`: an area of two cells.
    Word(Name, Expr),
    /// `bytes NAME, ADDR, LEN`: an area of LEN cells.
    Bytes(Name, Expr, Expr),
    /// `routine NAME`: the header of a routine begins.
    Routine(Name),
    /// `start`: it is a start routine.
    Start,
    /// `pre P`: what holds at its entry.
    Pre(RawNote),
    /// `post P`: what holds at its return.
    Post(RawNote),
    /// `reads LIST`: the locations and areas that it reads.
    Reads(Items),
    /// `changes LIST`: the locations and areas that it changes.
    Changes(Items),
    /// `ins PORTS`: the ports that it reads.
    Ins(Ports),
    /// `outs PORTS`: the ports that it writes.
    Outs(Ports),
    /// `depth N`: how many bytes of the stack it uses.
    Depth(Expr),
    /// `assert P`: what holds at the next instruction.
    Assert(RawNote),
    /// `end`: the routine ends.
    End,
}

/// An annotation line.
#[derive(Debug, Drop)]
pub struct NoteLine {
    pub line: Line,
    pub part: Part,
}

/// The annotation lines of a source, by rising line. Contracts see a list.
pub type Notes = Seq<NoteLine>;
