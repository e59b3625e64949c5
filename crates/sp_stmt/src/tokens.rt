ghost use Rattle.std.specs.Prelude.{◌≡◌, length};
ghost use Rattle.sp_expr.specs.Words.{text_of, IsIn};
ghost use Rattle.sp_stmt.specs.Tokens.{is_comma, is_colon, name_at, own_name_at, arg_at, pair_at, stack_pair_at, mnemonic_at, assignment_at};

use sp_base::{Name, Pair};
use sp_isa::{Arg, StackPair};
use sp_lex::{Token, TokenKind};
use sp_words::{
    Assignment, Mnemonic, arg_named, is_reserved, mnemonic_named, pair_named, stack_pair_named,
};

/// The bytes of a token.
pub(crate) fn text_of(source: &[u8], token: Token) -> &[u8]
    requires { IsIn source.now token }
    ensures { result.now ≡ text_of source.now token }
{
    &source[token.start..token.end]
}

/// Whether a token is a comma.
#[tactic(auto, unfolding(crate::specs::Tokens::is_comma))]
pub(crate) fn is_comma(source: &[u8], token: Token) -> bool
    requires { IsIn source.now token }
    ensures { result ≡ is_comma source.now token }
{
    match token.kind {
        TokenKind::Symbol => text_of(source, token) == b",".as_slice(),
        TokenKind::Name | TokenKind::Number | TokenKind::Text => false,
    }
}

/// Whether a token is a colon.
#[tactic(auto, unfolding(crate::specs::Tokens::is_colon))]
pub(crate) fn is_colon(source: &[u8], token: Token) -> bool
    requires { IsIn source.now token }
    ensures { result ≡ is_colon source.now token }
{
    match token.kind {
        TokenKind::Symbol => text_of(source, token) == b":".as_slice(),
        TokenKind::Name | TokenKind::Number | TokenKind::Text => false,
    }
}

/// The name that a token is, in upper case.
#[tactic(auto, unfolding(crate::specs::Tokens::name_at))]
fn name_at(source: &[u8], token: Token) -> Option<Name>
    requires { IsIn source.now token }
    ensures { result ≡ name_at source.now token }
{
    match token.kind {
        TokenKind::Name => sp_lex::name(text_of(source, token)),
        TokenKind::Number | TokenKind::Text | TokenKind::Symbol => None,
    }
}

/// The name that a token gives to what it stands before: one that is no reserved word.
#[tactic(auto, unfolding(crate::specs::Tokens::own_name_at))]
pub(crate) fn own_name_at(source: &[u8], token: Token) -> Option<Name>
    requires { IsIn source.now token }
    ensures { result ≡ own_name_at source.now token }
{
    let name = name_at(source, token)?;
    if is_reserved(name.as_slice()) {
        None
    } else {
        Some(name)
    }
}

/// The register or M that a token stands for.
#[tactic(auto, unfolding(crate::specs::Tokens::arg_at))]
pub(crate) fn arg_at(source: &[u8], token: Token) -> Option<Arg>
    requires { IsIn source.now token }
    ensures { result ≡ arg_at source.now token }
{
    let name = name_at(source, token)?;
    arg_named(name.as_slice())
}

/// The register pair that a token stands for.
#[tactic(auto, unfolding(crate::specs::Tokens::pair_at))]
pub(crate) fn pair_at(source: &[u8], token: Token) -> Option<Pair>
    requires { IsIn source.now token }
    ensures { result ≡ pair_at source.now token }
{
    let name = name_at(source, token)?;
    pair_named(name.as_slice())
}

/// The pair of PUSH and POP that a token stands for.
#[tactic(auto, unfolding(crate::specs::Tokens::stack_pair_at))]
pub(crate) fn stack_pair_at(source: &[u8], token: Token) -> Option<StackPair>
    requires { IsIn source.now token }
    ensures { result ≡ stack_pair_at source.now token }
{
    let name = name_at(source, token)?;
    stack_pair_named(name.as_slice())
}

/// The mnemonic or directive that a token stands for.
#[tactic(auto, unfolding(crate::specs::Tokens::mnemonic_at))]
pub(crate) fn mnemonic_at(source: &[u8], token: Token) -> Option<Mnemonic>
    requires { IsIn source.now token }
    ensures { result ≡ mnemonic_at source.now token }
{
    let name = name_at(source, token)?;
    mnemonic_named(name.as_slice())
}

/// EQU or SET, where a token stands for it.
#[tactic(auto, unfolding(crate::specs::Tokens::assignment_at))]
pub(crate) fn assignment_at(source: &[u8], token: Token) -> Option<Assignment>
    requires { IsIn source.now token }
    ensures { result ≡ assignment_at source.now token }
{
    match mnemonic_at(source, token) {
        Some(Mnemonic::Assignment(form)) => Some(form),
        _ => None,
    }
}
