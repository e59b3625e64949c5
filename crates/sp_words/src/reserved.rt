ghost use Rattle.std.specs.Prelude.{◌≡◌, ◌↔◌, ◌||◌, is_some, IsTrue};
ghost use Rattle.sp_words.specs.code.Tables.{arg_named, pair_named, stack_pair_named, is_reserved};
ghost use Rattle.sp_words.specs.Reserved.{IsReserved};

use crate::mnemonic::mnemonic_named;
use crate::operator::operator_named;
use crate::register::{arg_named, pair_named, stack_pair_named};

/// Whether a word is a register, M, a pair, SP or PSW.
fn is_register(word: &[u8]) -> bool
    ensures { result ≡ (is_some (arg_named word.now)
        || (is_some (pair_named word.now) || is_some (stack_pair_named word.now))) }
{
    arg_named(word).is_some() || pair_named(word).is_some() || stack_pair_named(word).is_some()
}

/// Whether a word is in one of the tables.
#[tactic(auto, unfolding(crate::specs::code::Tables::is_reserved))]
fn has_meaning(word: &[u8]) -> bool
    ensures { result ≡ is_reserved word.now }
{
    mnemonic_named(word).is_some() || operator_named(word).is_some() || is_register(word)
}

/// Whether a word in upper case is no name for the assembler: a mnemonic, directive, operator or register, M, SP or
/// PSW. So `XOR` is reserved, and `BC` and `LEN` are names.
pub fn is_reserved(word: &[u8]) -> bool
    ensures table { result ≡ is_reserved word.now }
    ensures manual { IsTrue result ↔ IsReserved word.now }
{
    has_meaning(word)
}
