//! What waits for an operand while a condition is read.
ghost use Rattle.std.specs.Prelude.{◌≡◌, ◌≤◌, Some};
ghost use Rattle.sp_note.specs.Grammar.{rank_of, left_rank, right_rank};
ghost use Rattle.sp_note.specs.code.Answers.{AnswersSome};
ghost use Rattle.sp_note.specs.code.Frames.{frame_of, tightness, room_in, weight, completed, parenthesized, bracketed, after_comma, after_range, after_colon};
ghost use Rattle.sp_note.specs.code.Operands.{known_of};

use crate::operand::{self, Operand};
use crate::refusal::{LineRefusal, NoteKind};
use crate::word::{Bits, Infix};
use sp_base::Name;
use sp_logic::{Moment, Quantifier};
use std::alloc::Global;

/// A part that is begun. The operand after it is its next part.
#[derive(Drop)]
pub enum Frame {
    /// An operator after its left part.
    Infix(Infix, Operand),
    Not,
    Negative,
    /// `(`.
    Paren,
    /// `mem[`.
    Cell(Moment),
    /// `NAME[`.
    Element(Moment, Name),
    /// `par(`.
    Parity,
    /// `band(`.
    FirstBits(Bits),
    /// `band(x,`.
    SecondBits(Bits, Operand),
    /// `total(`.
    FirstCell(Moment),
    /// `total(x,`.
    LastCell(Moment, Operand),
    /// `for all I in`.
    LowEnd(Quantifier, Name),
    /// `for all I in x..`.
    HighEnd(Quantifier, Name, Operand),
    /// `for all I in x..y:`.
    Body(Quantifier, Name, Operand, Operand),
}

/// The rank of an operator, 9 for the loosest. `not` and quantifiers have 5, a sign 1, and a primary 0.
pub(crate) fn rank_of(operator: Infix) -> u8
    ensures { result ≡ rank_of operator }
{
    match operator {
        Infix::Iff => 9,
        Infix::Implies => 8,
        Infix::Or => 7,
        Infix::And => 6,
        Infix::Compare(_) => 4,
        Infix::Add | Infix::Subtract => 3,
        Infix::Multiply | Infix::Divide | Infix::Modulo => 2,
    }
}

/// The loosest rank of an operator's left part.
pub(crate) fn left_rank(operator: Infix) -> u8
    ensures { result ≡ left_rank operator }
{
    match operator {
        Infix::Iff => 9,
        Infix::Implies | Infix::Or => 7,
        Infix::And => 6,
        Infix::Compare(_) | Infix::Add | Infix::Subtract => 3,
        Infix::Multiply | Infix::Divide | Infix::Modulo => 2,
    }
}

/// The loosest rank of an operator's right part.
fn right_rank(operator: Infix) -> u8
    ensures { result ≡ right_rank operator }
{
    match operator {
        Infix::Iff | Infix::Implies => 8,
        Infix::Or => 6,
        Infix::And => 5,
        Infix::Compare(_) => 3,
        Infix::Add | Infix::Subtract => 2,
        Infix::Multiply | Infix::Divide | Infix::Modulo => 1,
    }
}

impl Frame {
    /// The rank of what the next operand completes: 10 where only the end of all that is open round it does, 11 where a
    /// symbol of its own does.
    pub(crate) fn tightness(&self) -> u8
        ensures { result ≡ tightness (frame_of self.now) }
    {
        match self {
            Frame::Infix(operator, _) => rank_of(*operator),
            Frame::Not => 5,
            Frame::Negative => 1,
            Frame::Body(..) => 10,
            _ => 11,
        }
    }

    /// The loosest rank of what may follow.
    pub(crate) fn room(&self) -> u8
        ensures { result ≡ room_in (frame_of self.now) }
    {
        match self {
            Frame::Infix(operator, _) => right_rank(*operator),
            Frame::Not => 5,
            Frame::Negative => 1,
            Frame::FirstCell(_) | Frame::LastCell(..) | Frame::LowEnd(..) | Frame::HighEnd(..) => 3,
            _ => 9,
        }
    }

    /// How many it counts as nested round what follows: 1, or 0 for an operator other than `->`.
    pub(crate) fn weight(&self) -> usize
        ensures value { result ≡ weight (frame_of self.now) }
        ensures small { result ≤ 1 }
    {
        match self {
            Frame::Infix(Infix::Implies, _) => 1,
            Frame::Infix(..) => 0,
            _ => 1,
        }
    }

    /// The part that it is, with its last operand.
    pub(crate) fn completed(self, alloc: Global, x: Operand) -> Result<Operand, LineRefusal>
        ensures { AnswersSome known_of result (Some (completed (frame_of self) (known_of x))) }
    {
        match self {
            Frame::Infix(operator, left) => operand::joined(alloc, operator, left, x),
            Frame::Not => operand::inverted(alloc, x),
            Frame::Negative => operand::negative(alloc, x),
            Frame::Body(quantifier, name, first, last) => {
                operand::quantified(alloc, quantifier, name, (first, last), x)
            }
            _ => Ok(x),
        }
    }

    /// The part that `)` completes it to.
    pub(crate) fn parenthesized(self, alloc: Global, x: Operand) -> Result<Operand, LineRefusal>
        ensures { AnswersSome known_of result (parenthesized (frame_of self) (known_of x)) }
    {
        match self {
            Frame::Paren => Ok(x),
            Frame::Parity => operand::parity(alloc, x),
            Frame::SecondBits(bits, first) => operand::two_bits(alloc, bits, first, x),
            Frame::LastCell(moment, first) => operand::total(alloc, moment, first, x),
            _ => Err(LineRefusal::Kind(NoteKind::Syntax)),
        }
    }

    /// The part that `]` completes it to.
    pub(crate) fn bracketed(&self, alloc: Global, x: Operand) -> Result<Operand, LineRefusal>
        ensures { AnswersSome known_of result (bracketed (frame_of self.now) (known_of x)) }
    {
        match self {
            Frame::Cell(moment) => operand::cell(alloc, *moment, x),
            Frame::Element(moment, name) => operand::element(alloc, *moment, *name, x),
            _ => Err(LineRefusal::Kind(NoteKind::Syntax)),
        }
    }

    /// What is begun after `,`.
    pub(crate) fn after_comma(&self, x: Operand) -> Result<Frame, LineRefusal>
        ensures { AnswersSome frame_of result (after_comma (frame_of self.now) (known_of x)) }
    {
        match self {
            Frame::FirstBits(bits) => Ok(Frame::SecondBits(*bits, x)),
            Frame::FirstCell(moment) => Ok(Frame::LastCell(*moment, x)),
            _ => Err(LineRefusal::Kind(NoteKind::Syntax)),
        }
    }

    /// What is begun after `..`.
    pub(crate) fn after_range(self, x: Operand) -> Result<Frame, LineRefusal>
        ensures { AnswersSome frame_of result (after_range (frame_of self) (known_of x)) }
    {
        let Frame::LowEnd(quantifier, name) = self else {
            return Err(LineRefusal::Kind(NoteKind::Syntax));
        };
        Ok(Frame::HighEnd(quantifier, name, x))
    }

    /// What is begun after `:`.
    pub(crate) fn after_colon(self, x: Operand) -> Result<Frame, LineRefusal>
        ensures { AnswersSome frame_of result (after_colon (frame_of self) (known_of x)) }
    {
        match self {
            Frame::HighEnd(quantifier, name, low) => Ok(Frame::Body(quantifier, name, low, x)),
            _ => Err(LineRefusal::Kind(NoteKind::Syntax)),
        }
    }
}
