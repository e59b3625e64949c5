ghost use Rattle.std.specs.Prelude.{◌≡◌, [], true};
ghost use Rattle.sp_expr.specs.declared.word.Word.TheVariants as words;
ghost use Rattle.sp_expr.specs.code.Nesting.{nest, nests, has_room, may_follow, open_after, after_operator, nests_within};

use crate::arithmetic::rank_of;
use crate::word::{Operator, Word};
use arrayvec::ArrayVec;

/// What is open around the words between two parentheses.
#[derive(Clone, Copy, Debug, Default)]
pub struct Nest {
    /// What is open outside of them, the parentheses among it.
    pub outside: usize,
    /// The NOTs that are open between them.
    pub nots: usize,
}

/// The constructs that are open at a place of an expression.
#[derive(Drop)]
struct Nesting {
    here: Nest,
    outer: ArrayVec<Nest, 64>,
}

fn after_operator(operator: Operator, here: Nest) -> Nest
    ensures { result ≡ after_operator operator here }
{
    if 2 < rank_of(operator) {
        Nest {
            outside: here.outside,
            nots: 0,
        }
    } else {
        here
    }
}

impl Nesting {
    ghost use Rattle.sp_expr.specs.code.States.{nests_of};

    fn start() -> Nesting
        ensures { nests_of result ≡ nests (nest 0 0) [] }
    {
        Nesting {
            here: Nest {
                outside: 0,
                nots: 0,
            },
            outer: ArrayVec::new(),
        }
    }

    fn has_room(&self) -> bool
        ensures { result ≡ has_room (nests_of self.now) }
    {
        self.here.outside < 64 && self.here.nots < 64 - self.here.outside && self.outer.len() < 64
    }

    fn may_follow(&self, word: Word) -> bool
        ensures { result ≡ may_follow (nests_of self.now) word }
    {
        match word {
            Word::Not | Word::Open => self.has_room(),
            _ => true,
        }
    }

    fn open(&mut self)
        requires { has_room (nests_of self.old) ≡ true }
        ensures { nests_of self.new ≡ open_after (nests_of self.old) words.Open }
    {
        let here = self.here;
        self.outer.push(here);
        self.here = Nest {
            outside: here.outside + here.nots + 1,
            nots: 0,
        };
    }

    fn close(&mut self)
        ensures { nests_of self.new ≡ open_after (nests_of self.old) words.Close }
    {
        match self.outer.len().checked_sub(1) {
            Some(last) => {
                self.here = self.outer[last];
                self.outer.truncate(last);
            }
            None => {
                self.here = Nest {
                    outside: 0,
                    nots: 0,
                }
            }
        }
    }

    fn step(&mut self, word: Word)
        requires { may_follow (nests_of self.old) word ≡ true }
        ensures { nests_of self.new ≡ open_after (nests_of self.old) word }
    {
        match word {
            Word::Not => self.here.nots += 1,
            Word::Open => self.open(),
            Word::Close => self.close(),
            Word::Operator(operator) => self.here = after_operator(operator, self.here),
            Word::Number(_) | Word::Name(_) | Word::Here => {}
        }
    }
}

/// Whether the words of an expression nest at most 64 parentheses and NOTs.
pub(crate) fn nests_within(words: &[Word]) -> bool
    ensures { result ≡ nests_within (nests (nest 0 0) []) words.now }
{
    let mut nesting = Nesting::start();
    for word in words {
        if !nesting.may_follow(*word) {
            return false;
        }
        nesting.step(*word);
    }
    true
}
