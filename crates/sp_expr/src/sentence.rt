ghost use Rattle.std.specs.Prelude.{◌≡◌, ◌<◌, ◌+◌, ◌^◌, ◌≤◌, IfSome};
ghost use Rattle.sp_expr.specs.declared.word.Word.TheVariants as words;
ghost use Rattle.sp_expr.specs.code.Sentence.{is_operand, next, ends, is_sentence_in};

use crate::arithmetic::rank_of;
use crate::setting::Setting;
use crate::word::{Operator, Word};

/// What may follow at a place in an expression.
#[derive(Clone, Copy, Debug, PartialEq, Eq)]
pub enum Place {
    /// NOT, a sign or an operand.
    Start,
    /// An operand.
    Operand,
    /// An operator, a closing parenthesis or the end.
    After,
}

fn after_operator(
    setting: Setting,
    place: Place,
    opened: usize,
    operator: Operator,
) -> Option<(Place, usize)>
    ensures { result ≡ next setting place opened (words.Operator operator) }
{
    let rank = rank_of(operator);
    match place {
        Place::After if rank <= 2 => Some((Place::Operand, opened)),
        Place::After => Some((Place::Start, opened)),
        Place::Start if rank == 2 => Some((Place::Operand, opened)),
        _ => None,
    }
}

/// Whether a word is an operand by itself.
fn is_operand(setting: Setting, word: Word) -> bool
    ensures { result ≡ is_operand setting word }
{
    match word {
        Word::Number(_) => true,
        Word::Name(name) => setting.is_name(name.as_slice()),
        Word::Here => setting.has_address(),
        Word::Operator(_) | Word::Not | Word::Open | Word::Close => false,
    }
}

/// The place after a word, and how many parentheses are open there.
fn next(setting: Setting, place: Place, opened: usize, word: Word) -> Option<(Place, usize)>
    requires { opened + 1 < 2 ^ 64 }
    ensures value { result ≡ next setting place opened word }
    ensures within { IfSome result (λ after. after.1 ≤ opened + 1) }
{
    match (word, place) {
        (Word::Operator(operator), _) => after_operator(setting, place, opened, operator),
        (Word::Close, Place::After) if 0 < opened => Some((Place::After, opened - 1)),
        (Word::Open, Place::Start | Place::Operand) => Some((Place::Start, opened + 1)),
        (Word::Not, Place::Start) => Some((Place::Start, opened)),
        (Word::Number(_) | Word::Name(_) | Word::Here, Place::Start | Place::Operand)
            if is_operand(setting, word) => { Some((Place::After, opened)) }
        _ => None,
    }
}

fn ends(place: Place, opened: usize) -> bool
    ensures { result ≡ ends place opened }
{
    match place {
        Place::After => opened == 0,
        Place::Start | Place::Operand => false,
    }
}

/// Whether words are an expression of a setting, however deep it nests.
pub(crate) fn is_sentence(setting: Setting, words: &[Word]) -> bool
    ensures { result ≡ is_sentence_in setting words.now }
{
    let mut place = Place::Start;
    let mut opened = 0;
    for word in words {
        let Some(after) = next(setting, place, opened, *word) else {
            return false;
        };
        place = after.0;
        opened = after.1;
    }
    ends(place, opened)
}
