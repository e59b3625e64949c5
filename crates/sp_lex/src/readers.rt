ghost use Rattle.std.specs.Prelude.{◌≡◌, ◌≤◌, ◌∷◌, length, take, drop};
ghost use Rattle.std.specs.Option.{option_copied};
ghost use Rattle.sp_lex.specs.Readers.{IsIn, AreIn, text_of, name_at, symbol_at, is_symbol, items_of, items_after};

use crate::names::name;
use crate::token::{Token, TokenKind};
use sp_base::Name;

/// The bytes of a token.
pub fn text_of(source: &[u8], token: Token) -> &[u8]
    requires { IsIn source.now token }
    ensures { result.now ≡ text_of source.now token }
{
    &source[token.start..token.end]
}

/// The name that a token is, folded to upper case; None for other tokens. So `mvi` is MVI.
#[tactic(auto, unfolding(crate::specs::Readers::name_at))]
pub fn name_at(source: &[u8], token: Token) -> Option<Name>
    requires { IsIn source.now token }
    ensures { result ≡ name_at source.now token }
{
    match token.kind {
        TokenKind::Name => name(text_of(source, token)),
        TokenKind::Number | TokenKind::Text | TokenKind::Symbol => None,
    }
}

/// The bytes of a token that is a symbol, as `<=`; None for other tokens.
#[tactic(auto, unfolding(crate::specs::Readers::symbol_at))]
pub fn symbol_at(source: &[u8], token: Token) -> Option<&[u8]>
    requires { IsIn source.now token }
    ensures { option_copied result ≡ symbol_at source.now token }
{
    match token.kind {
        TokenKind::Symbol => Some(text_of(source, token)),
        TokenKind::Name | TokenKind::Number | TokenKind::Text => None,
    }
}

/// Whether a token is this symbol, as `b","`.
#[tactic(auto, unfolding(crate::specs::Readers::is_symbol))]
pub fn is_symbol(source: &[u8], token: Token, symbol: &[u8]) -> bool
    requires { IsIn source.now token }
    ensures { result ≡ is_symbol symbol.now source.now token }
{
    match token.kind {
        TokenKind::Symbol => text_of(source, token) == symbol,
        TokenKind::Name | TokenKind::Number | TokenKind::Text => false,
    }
}

/// How many tokens stand before the first comma, or how many there are where none is a comma. `item_len` of the tokens
/// `A , B` is 1; the next item begins one token after that.
pub fn item_len(source: &[u8], tokens: &[Token]) -> usize
    requires { AreIn source.now tokens.now }
    ensures within { result ≤ length tokens.now }
    ensures items { items_of source.now tokens.now ≡ take result tokens.now ∷ items_after source.now (drop result tokens.now) }
{
    for (i, token) in tokens.iter().enumerate() {
        if is_symbol(source, *token, b",") {
            return i;
        }
    }
    tokens.len()
}
