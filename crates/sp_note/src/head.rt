//! Words of a part of which more has to come, and what may still be added to an operand.
ghost use Rattle.std.specs.Prelude.{◌≡◌, unwrap_or};
ghost use Rattle.std.specs.Option.{option_map};
ghost use Rattle.sp_note.specs.code.Frames.{bounds_in, frame_of, stack_of, binding};
ghost use Rattle.sp_note.specs.code.Heads.{turn_of, after_moment, when_open, when_close, when_in, name_in, quantifier_in, cell_turn, total_turn, turned, marked, element_after, marks};
ghost use Rattle.sp_note.specs.Bounds.{bound_of_name};

use crate::frame::Frame;
use crate::operand::{self, Operand, greater};
use crate::word::{Bits, Measure, Word};
use sp_base::{Loc, Name};
use sp_logic::{Moment, Quantifier, RegisterPair};

/// Words of a part of which more has to come.
#[derive(Clone, Copy, Debug)]
pub enum Head {
    /// `mem`.
    Mem(Moment),
    /// `total`.
    Total(Moment),
    /// `par`.
    Par,
    /// `band`.
    Bits(Bits),
    /// `addr`.
    Measure(Measure),
    /// `addr(`.
    Open(Measure),
    /// `addr(NAME`.
    Measured(Measure, Name),
    /// `for`.
    For,
    /// `for all`.
    Quantifier(Quantifier),
    /// `for all I`.
    Binding(Quantifier, Name),
}

/// What may still be added to an operand.
#[derive(Clone, Copy, Debug)]
pub enum Tail {
    None,
    /// After a register or a flag: `~`.
    Location(Loc),
    /// After a pair: `~`.
    Pair(RegisterPair),
    /// After a name: `~` or `[`.
    Name(Name),
    /// After a name and `~`: `[`.
    Entry(Name),
}

/// What was read last.
#[derive(Drop)]
pub enum Place {
    /// An operand is to come.
    Start,
    /// An operand has come.
    After(Operand, Tail),
    /// Some words of one have come.
    Head(Head),
}

/// What a word adds to a head.
#[derive(Drop)]
pub enum Turn {
    Head(Head),
    Frame(Frame),
    Measured(Measure, Name),
}

fn after_moment(moment: Moment) -> Option<Moment>
    ensures { result ≡ after_moment moment }
{
    match moment {
        Moment::Now => Some(Moment::AtEntry),
        Moment::AtEntry => None,
    }
}

fn when_open(word: Word, turn: Turn) -> Option<Turn>
    ensures { option_map turn_of result ≡ when_open word (turn_of turn) }
{
    match word {
        Word::Open => Some(turn),
        _ => None,
    }
}

fn when_close(word: Word, turn: Turn) -> Option<Turn>
    ensures { option_map turn_of result ≡ when_close word (turn_of turn) }
{
    match word {
        Word::Close => Some(turn),
        _ => None,
    }
}

fn when_in(word: Word, turn: Turn) -> Option<Turn>
    ensures { option_map turn_of result ≡ when_in word (turn_of turn) }
{
    match word {
        Word::In => Some(turn),
        _ => None,
    }
}

fn name_in(word: Word) -> Option<Name>
    ensures { result ≡ name_in word }
{
    match word {
        Word::Name(name) => Some(name),
        _ => None,
    }
}

fn quantifier_in(word: Word) -> Option<Quantifier>
    ensures { result ≡ quantifier_in word }
{
    match word {
        Word::Quantifier(quantifier) => Some(quantifier),
        _ => None,
    }
}

fn cell_turn(moment: Moment, word: Word) -> Option<Turn>
    ensures { option_map turn_of result ≡ cell_turn moment word }
{
    match word {
        Word::AtEntry => match after_moment(moment) {
            Some(moment) => Some(Turn::Head(Head::Mem(moment))),
            None => None,
        },
        Word::OpenBracket => Some(Turn::Frame(Frame::Cell(moment))),
        _ => None,
    }
}

fn total_turn(moment: Moment, word: Word) -> Option<Turn>
    ensures { option_map turn_of result ≡ total_turn moment word }
{
    match word {
        Word::AtEntry => match after_moment(moment) {
            Some(moment) => Some(Turn::Head(Head::Total(moment))),
            None => None,
        },
        Word::Open => Some(Turn::Frame(Frame::FirstCell(moment))),
        _ => None,
    }
}

/// What a word adds to a head.
#[tactic(auto, unfolding(crate::specs::code::Heads::turned))]
pub(crate) fn turned(head: Head, word: Word) -> Option<Turn>
    ensures { option_map turn_of result ≡ turned head word }
{
    match head {
        Head::Mem(moment) => cell_turn(moment, word),
        Head::Total(moment) => total_turn(moment, word),
        Head::Par => when_open(word, Turn::Frame(Frame::Parity)),
        Head::Bits(bits) => when_open(word, Turn::Frame(Frame::FirstBits(bits))),
        Head::Measure(measure) => when_open(word, Turn::Head(Head::Open(measure))),
        Head::Open(measure) => match name_in(word) {
            Some(name) => Some(Turn::Head(Head::Measured(measure, name))),
            None => None,
        },
        Head::Measured(measure, name) => when_close(word, Turn::Measured(measure, name)),
        Head::For => match quantifier_in(word) {
            Some(quantifier) => Some(Turn::Head(Head::Quantifier(quantifier))),
            None => None,
        },
        Head::Quantifier(quantifier) => match name_in(word) {
            Some(name) => Some(Turn::Head(Head::Binding(quantifier, name))),
            None => None,
        },
        Head::Binding(quantifier, name) => {
            when_in(word, Turn::Frame(Frame::LowEnd(quantifier, name)))
        }
    }
}

/// The bound that a frame gives this name, if it binds it.
fn binding(frame: &Frame, name: Name) -> Option<u128>
    ensures { result ≡ binding (frame_of frame.now) name }
{
    match frame {
        Frame::Body(_, bound, x, y) => {
            if *bound == name {
                Some(greater(x.bound, y.bound))
            } else {
                None
            }
        }
        _ => None,
    }
}

/// The bound of a name after a frame, where it had this bound before.
fn bound_after(frame: &Frame, name: Name, bound: u128) -> u128
    ensures { result ≡ unwrap_or (binding (frame_of frame.now) name) bound }
{
    match binding(frame, name) {
        Some(inner) => inner,
        None => bound,
    }
}

/// The bound of a name alone in these frames.
pub(crate) fn bound_in(frames: &[Frame], name: Name) -> u128
    ensures { result ≡ bound_of_name (bounds_in (stack_of frames.now)) name }
{
    let mut bound = 65_535;
    for frame in frames {
        bound = bound_after(frame, name, bound);
    }
    bound
}

/// An operand with `~` after it.
#[derive(Drop)]
pub struct Marked {
    pub operand: Operand,
    pub tail: Tail,
}

/// The operand with `~` after it.
pub(crate) fn with_mark(tail: Tail) -> Option<Marked>
    ensures { option_map marks result ≡ marked tail }
{
    match tail {
        Tail::Location(x) => Some(Marked {
            operand: operand::location(Moment::AtEntry, x),
            tail: Tail::None,
        }),
        Tail::Pair(p) => Some(Marked {
            operand: operand::pair(Moment::AtEntry, p),
            tail: Tail::None,
        }),
        Tail::Name(name) => Some(Marked {
            operand: operand::named(Moment::AtEntry, name, 65_535),
            tail: Tail::Entry(name),
        }),
        Tail::None | Tail::Entry(_) => None,
    }
}

/// A name with `[` after it.
pub(crate) fn element_after(tail: Tail) -> Option<Frame>
    ensures { option_map frame_of result ≡ element_after tail }
{
    match tail {
        Tail::Name(name) => Some(Frame::Element(Moment::Now, name)),
        Tail::Entry(name) => Some(Frame::Element(Moment::AtEntry, name)),
        Tail::None | Tail::Location(_) | Tail::Pair(_) => None,
    }
}
