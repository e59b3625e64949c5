//! The reader of a condition, word by word.
ghost use Rattle.std.specs.Prelude.{◌≡◌, ◌∷◌, Some};
ghost use Rattle.sp_note.specs.code.Frames.{frame_of, open_in, stack_of};

use crate::frame::{Frame, left_rank, rank_of};
use crate::head::{Head, Place, Tail, Turn, bound_in, element_after, turned, with_mark};
use crate::operand::{self, Operand};
use crate::refusal::{LineRefusal, NoteKind};
use crate::word::{Infix, Word};
use sp_logic::Moment;
use std::alloc::Global;

/// How far a condition is read.
#[derive(Drop)]
pub struct Parser {
    /// What waits for an operand, the innermost last.
    frames: Vec<Frame>,
    place: Place,
    /// How many constructs were nested at most.
    most: usize,
    /// How many constructs are nested here.
    nested: usize,
    ghost counted: { nested ≡ open_in (stack_of frames.items) },
}

/// A part that is begun and is to be closed, with its last operand.
#[derive(Drop)]
struct Inner {
    parser: Parser,
    frame: Frame,
    operand: Operand,
}

impl Parser {
    ghost use Rattle.sp_note.specs.code.Answers.{AnswersSome};
    ghost use Rattle.sp_note.specs.code.Frames.{room, yields, parenthesized, bracketed, after_comma, after_range, after_colon};
    ghost use Rattle.sp_note.specs.code.Heads.{place_of, turn_of, Start, After, Within};
    ghost use Rattle.sp_note.specs.code.Operands.{known_of};
    ghost use Rattle.sp_note.specs.code.Parser.{state_of, start, placed, pushed, inverting, quantifying, signing, start_step, taken, measured_in, joining, closing, dividing, marking, indexing, heading, after_step, step, ended, seen, PopsWithin, ReducesTo, ClosesTo};

    /// Nothing is read.
    fn begin(alloc: Global) -> Parser
        ensures { state_of result ≡ start }
    {
        Parser {
            frames: Vec::new(alloc),
            place: Place::Start,
            most: 0,
            nested: 0,
        }
    }

    /// The same with another place.
    fn at(self, place: Place) -> Parser
        ensures { state_of result ≡ placed (state_of self) (place_of place) }
    {
        Parser {
            frames: self.frames,
            place,
            most: self.most,
            nested: self.nested,
        }
    }

    /// A part is begun.
    fn push(self, frame: Frame) -> Result<Parser, LineRefusal>
        ensures { AnswersSome state_of result (Some (pushed (state_of self) (frame_of frame))) }
    {
        let Parser {
            mut frames,
            place: _,
            most,
            nested,
        } = self;
        let weight = frame.weight();
        frames.push(frame)?;
        let _len = frames.len();
        let nested = nested + weight;
        Ok(Parser {
            frames,
            place: Place::Start,
            most: most.max(nested),
            nested,
        })
    }

    /// The loosest rank of what may follow.
    fn room(&self) -> u8
        ensures { result ≡ room (state_of self.now).stack }
    {
        match self.frames.last() {
            Some(frame) => frame.room(),
            None => 9,
        }
    }

    /// Whether the next operand completes the innermost part at this rank.
    fn yields(&self, rank: u8) -> bool
        ensures { result ≡ yields rank (state_of self.now).stack }
    {
        match self.frames.last() {
            Some(frame) => frame.tightness() <= rank,
            None => false,
        }
    }

    /// The innermost part, where the next operand completes it at this rank.
    fn pop_within(&mut self, rank: u8) -> Option<Frame>
        ensures { PopsWithin rank (state_of self.old) (state_of self.new) result }
    {
        if !self.yields(rank) {
            return None;
        }
        let frame = self.frames.pop()?;
        self.nested -= frame.weight();
        Some(frame)
    }

    /// Completes all parts that bind as tightly as this rank.
    fn reduce(&mut self, alloc: Global, rank: u8, operand: Operand) -> Result<Operand, LineRefusal>
        ensures { ReducesTo rank (state_of self.old) (known_of operand) (state_of self.new) result }
    {
        let mut operand = operand;
        loop {
            let Some(frame) = self.pop_within(rank) else {
                return Ok(operand);
            };
            operand = frame.completed(alloc, operand)?;
        }
    }

    /// `not` stands where a part of its rank may.
    fn invert(self) -> Result<Parser, LineRefusal>
        ensures { AnswersSome state_of result (inverting (state_of self)) }
    {
        if self.room() < 5 {
            return Err(LineRefusal::Kind(NoteKind::Syntax));
        }
        self.push(Frame::Not)
    }

    /// So do quantifiers.
    fn quantify(self) -> Result<Parser, LineRefusal>
        ensures { AnswersSome state_of result (quantifying (state_of self)) }
    {
        if self.room() < 5 {
            return Err(LineRefusal::Kind(NoteKind::Syntax));
        }
        Ok(self.at(Place::Head(Head::For)))
    }

    /// `-` is a sign before an operand.
    fn sign(self, operator: Infix) -> Result<Parser, LineRefusal>
        ensures { AnswersSome state_of result (signing (state_of self) operator) }
    {
        match operator {
            Infix::Subtract => self.push(Frame::Negative),
            _ => Err(LineRefusal::Kind(NoteKind::Syntax)),
        }
    }

    /// A word where an operand is to come.
    #[tactic(auto, unfolding(crate::specs::code::Parser::start_step))]
    fn start_step(self, word: Word) -> Result<Parser, LineRefusal>
        ensures { AnswersSome state_of result (start_step (state_of self) word) }
    {
        let place = match word {
            Word::Number(n) => Place::After(operand::number(n), Tail::None),
            Word::Constant(truth) => Place::After(operand::constant(truth), Tail::None),
            Word::Location(x) => {
                Place::After(operand::location(Moment::Now, x), Tail::Location(x))
            }
            Word::Pair(p) => Place::After(operand::pair(Moment::Now, p), Tail::Pair(p)),
            Word::StackWord(k) => Place::After(operand::stack_word(k), Tail::None),
            Word::Name(name) => {
                let bound = bound_in(&self.frames, name);
                Place::After(operand::named(Moment::Now, name, bound), Tail::Name(name))
            }
            Word::Mem => Place::Head(Head::Mem(Moment::Now)),
            Word::Total => Place::Head(Head::Total(Moment::Now)),
            Word::Par => Place::Head(Head::Par),
            Word::Bits(bits) => Place::Head(Head::Bits(bits)),
            Word::Measure(measure) => Place::Head(Head::Measure(measure)),
            Word::Infix(operator) => return self.sign(operator),
            Word::Open => return self.push(Frame::Paren),
            Word::Not => return self.invert(),
            Word::For => return self.quantify(),
            _ => return Err(LineRefusal::Kind(NoteKind::Syntax)),
        };
        Ok(self.at(place))
    }

    /// `addr(NAME)` and `len(NAME)` nest their name.
    fn measured(self, operand: Operand) -> Parser
        ensures { state_of result ≡ measured_in (state_of self) (known_of operand) }
    {
        let _frames = self.frames.as_slice();
        Parser {
            frames: self.frames,
            place: Place::After(operand, Tail::None),
            most: self.most.max(self.nested + 1),
            nested: self.nested,
        }
    }

    /// What a word adds to a head.
    fn take(self, turn: Turn) -> Result<Parser, LineRefusal>
        ensures { AnswersSome state_of result (Some (taken (state_of self) (turn_of turn))) }
    {
        match turn {
            Turn::Head(head) => Ok(self.at(Place::Head(head))),
            Turn::Frame(frame) => self.push(frame),
            Turn::Measured(measure, name) => Ok(self.measured(operand::measured(measure, name))),
        }
    }

    /// An operator after an operand.
    fn join(self, alloc: Global, operator: Infix, operand: Operand) -> Result<Parser, LineRefusal>
        ensures { AnswersSome state_of result (joining (state_of self) operator (known_of operand)) }
    {
        let mut parser = self;
        let left = parser.reduce(alloc, left_rank(operator), operand)?;
        if parser.room() < rank_of(operator) {
            return Err(LineRefusal::Kind(NoteKind::Syntax));
        }
        parser.push(Frame::Infix(operator, left))
    }

    /// The innermost part that waits for a symbol of its own, and its operand.
    fn innermost(self, alloc: Global, operand: Operand) -> Result<Inner, LineRefusal>
        ensures { ClosesTo (state_of self) (known_of operand) result }
    {
        let mut parser = self;
        let operand = parser.reduce(alloc, 10, operand)?;
        match parser.pop_within(11) {
            Some(frame) => Ok(Inner {
                parser,
                frame,
                operand,
            }),
            None => Err(LineRefusal::Kind(NoteKind::Syntax)),
        }
    }

    /// `)` after an operand.
    fn close(self, alloc: Global, operand: Operand) -> Result<Parser, LineRefusal>
        ensures { AnswersSome state_of result (closing parenthesized (state_of self) (known_of operand)) }
    {
        let inner = self.innermost(alloc, operand)?;
        let Inner {
            parser,
            frame,
            operand,
        } = inner;
        let closed = frame.parenthesized(alloc, operand)?;
        Ok(parser.at(Place::After(closed, Tail::None)))
    }

    /// `]` after an operand.
    fn close_bracket(self, alloc: Global, operand: Operand) -> Result<Parser, LineRefusal>
        ensures { AnswersSome state_of result (closing bracketed (state_of self) (known_of operand)) }
    {
        let inner = self.innermost(alloc, operand)?;
        let Inner {
            parser,
            frame,
            operand,
        } = inner;
        let closed = frame.bracketed(alloc, operand)?;
        Ok(parser.at(Place::After(closed, Tail::None)))
    }

    /// `,` after an operand.
    fn comma(self, alloc: Global, operand: Operand) -> Result<Parser, LineRefusal>
        ensures { AnswersSome state_of result (dividing after_comma (state_of self) (known_of operand)) }
    {
        let inner = self.innermost(alloc, operand)?;
        let Inner {
            parser,
            frame,
            operand,
        } = inner;
        let next = frame.after_comma(operand)?;
        parser.push(next)
    }

    /// `..` after an operand.
    fn range(self, alloc: Global, operand: Operand) -> Result<Parser, LineRefusal>
        ensures { AnswersSome state_of result (dividing after_range (state_of self) (known_of operand)) }
    {
        let inner = self.innermost(alloc, operand)?;
        let Inner {
            parser,
            frame,
            operand,
        } = inner;
        let next = frame.after_range(operand)?;
        parser.push(next)
    }

    /// `:` after an operand.
    fn colon(self, alloc: Global, operand: Operand) -> Result<Parser, LineRefusal>
        ensures { AnswersSome state_of result (dividing after_colon (state_of self) (known_of operand)) }
    {
        let inner = self.innermost(alloc, operand)?;
        let Inner {
            parser,
            frame,
            operand,
        } = inner;
        let next = frame.after_colon(operand)?;
        parser.push(next)
    }

    /// `~` after an operand.
    fn mark(self, tail: Tail) -> Result<Parser, LineRefusal>
        ensures { AnswersSome state_of result (marking (state_of self) tail) }
    {
        match with_mark(tail) {
            Some(marked) => Ok(self.at(Place::After(marked.operand, marked.tail))),
            None => Err(LineRefusal::Kind(NoteKind::Syntax)),
        }
    }

    /// `[` after a name.
    fn index(self, tail: Tail) -> Result<Parser, LineRefusal>
        ensures { AnswersSome state_of result (indexing (state_of self) tail) }
    {
        match element_after(tail) {
            Some(frame) => self.push(frame),
            None => Err(LineRefusal::Kind(NoteKind::Syntax)),
        }
    }

    /// A word after an operand.
    #[tactic(auto, unfolding(crate::specs::code::Parser::after_step))]
    fn after_step(
        self,
        alloc: Global,
        operand: Operand,
        tail: Tail,
        word: Word,
    ) -> Result<Parser, LineRefusal>
        ensures { AnswersSome state_of result (after_step (state_of self) (known_of operand) tail word) }
    {
        match word {
            Word::AtEntry => self.mark(tail),
            Word::OpenBracket => self.index(tail),
            Word::Infix(operator) => self.join(alloc, operator, operand),
            Word::Close => self.close(alloc, operand),
            Word::CloseBracket => self.close_bracket(alloc, operand),
            Word::Comma => self.comma(alloc, operand),
            Word::Range => self.range(alloc, operand),
            Word::Colon => self.colon(alloc, operand),
            _ => Err(LineRefusal::Kind(NoteKind::Syntax)),
        }
    }

    /// A word after a head.
    fn head_step(self, head: Head, word: Word) -> Result<Parser, LineRefusal>
        ensures { AnswersSome state_of result (heading (state_of self) head word) }
    {
        match turned(head, word) {
            Some(turn) => self.take(turn),
            None => Err(LineRefusal::Kind(NoteKind::Syntax)),
        }
    }

    /// The next word.
    fn step(self, alloc: Global, word: Word) -> Result<Parser, LineRefusal>
        ensures { AnswersSome state_of result (step (state_of self) word) }
    {
        let Parser {
            frames,
            place,
            most,
            nested,
        } = self;
        let parser = Parser {
            frames,
            place: Place::Start,
            most,
            nested,
        };
        match place {
            Place::Start => parser.start_step(word),
            Place::After(operand, tail) => parser.after_step(alloc, operand, tail, word),
            Place::Head(head) => parser.head_step(head, word),
        }
    }

    /// The condition, where all that is begun is complete.
    fn finish(self, alloc: Global) -> Result<Condition, LineRefusal>
        ensures { AnswersSome seen result (ended (state_of self)) }
    {
        let Parser {
            frames,
            place,
            most,
            nested,
        } = self;
        let Place::After(operand, _) = place else {
            return Err(LineRefusal::Kind(NoteKind::Syntax));
        };
        let mut parser = Parser {
            frames,
            place: Place::Start,
            most,
            nested,
        };
        let operand = parser.reduce(alloc, 10, operand)?;
        if parser.frames.is_empty() {
            Ok(Condition {
                operand,
                depth: most,
            })
        } else {
            Err(LineRefusal::Kind(NoteKind::Syntax))
        }
    }
}

/// A condition that is read, and how deep it nests.
#[derive(Drop)]
pub struct Condition {
    pub operand: Operand,
    pub depth: usize,
}

impl Condition {
    ghost use Rattle.sp_note.specs.code.Answers.{AnswersSome};
    ghost use Rattle.sp_note.specs.code.Parser.{seen, parsed, run, start, state_of};

    /// The condition that words stand for.
    pub(crate) fn parse(alloc: Global, words: &[Word]) -> Result<Condition, LineRefusal>
        ensures { AnswersSome seen result (parsed words.now) }
    {
        let mut parser = Parser::begin(alloc);
        for word in words {
            parser = parser.step(alloc, *word)?;
        }
        parser.finish(alloc)
    }
}
