ghost use Rattle.std.specs.Prelude.{◌≡◌, ◌<◌, ◌≤◌, ◌+◌, ◌^◌, ◌++◌, None, length, OnOk, IfOk};
ghost use Rattle.sp_lex.specs.Pieces.{token_of, tokens_from};
ghost use Rattle.sp_lex.specs.Tokens.{is_mark};
ghost use Rattle.sp_lex.specs.code.Pieces.{text_rest, piece_at, text_piece, starts_with_pair, starts_with_mark, symbol_len, symbol_piece, unless, fault_of, cuts, fault_in};

use crate::refusal::{TextKind, first_fault};
use crate::token::{Token, TokenKind};
use crate::{bytes, numbers, texts};
use sp_base::{Memory, Name};

/// What a piece of a line is. A line is cut into pieces from the left, each as long as it can be.
#[derive(Clone, Copy, Debug, PartialEq, Eq)]
pub enum PieceKind {
    /// A space or a tab.
    Blank,
    /// A semicolon and all bytes after it.
    Comment,
    /// A token.
    Token(TokenKind),
    /// A quote that isn't closed and all bytes after it.
    OpenText,
    /// A byte that starts none of these.
    Stray,
}

/// What a piece is and how many bytes it has.
#[derive(Clone, Copy, Debug, PartialEq, Eq)]
pub struct Piece {
    pub kind: PieceKind,
    pub len: usize,
}

fn starts_with_pair(bytes: &[u8]) -> bool
    ensures { result ≡ starts_with_pair bytes.now }
{
    bytes.starts_with(b"<=")
        || bytes.starts_with(b">=")
        || bytes.starts_with(b"<>")
        || bytes.starts_with(b"->")
        || bytes.starts_with(b"..")
}

fn starts_with_mark(annotation: bool, bytes: &[u8]) -> bool
    ensures { result ≡ starts_with_mark annotation bytes.now }
{
    match bytes {
        [byte, ..] => is_mark(annotation, *byte),
        [] => false,
    }
}

fn is_mark(annotation: bool, byte: u8) -> bool
    ensures { result ≡ is_mark annotation byte }
{
    if annotation {
        b"$:,+-*/()[]~=<>".contains(&byte)
    } else {
        b"$:,+-*/()".contains(&byte)
    }
}

#[tactic(auto, unfolding(crate::specs::code::Pieces::symbol_len))]
fn symbol_len(annotation: bool, bytes: &[u8]) -> usize
    ensures value { result ≡ symbol_len annotation bytes.now }
    ensures within { result ≤ length bytes.now }
{
    if annotation && bytes.starts_with(b"<->") {
        3
    } else if annotation && starts_with_pair(bytes) {
        2
    } else if starts_with_mark(annotation, bytes) {
        1
    } else {
        0
    }
}

fn symbol_piece(len: usize) -> Piece
    ensures { result ≡ symbol_piece len }
{
    if len == 0 {
        Piece {
            kind: PieceKind::Stray,
            len: 1,
        }
    } else {
        Piece {
            kind: PieceKind::Token(TokenKind::Symbol),
            len,
        }
    }
}

fn text_piece(after: &[u8]) -> Piece
    ensures value { result ≡ text_piece (text_rest after.now) after.now }
    ensures within { result.len ≤ 1 + length after.now }
{
    match texts::text_rest(after) {
        Some(rest) => Piece {
            kind: PieceKind::Token(TokenKind::Text),
            len: 1 + rest,
        },
        None => Piece {
            kind: PieceKind::OpenText,
            len: 1 + after.len(),
        },
    }
}

/// The piece that bytes begin with.
#[tactic(auto, unfolding(crate::specs::code::Pieces::piece_at))]
fn piece_at(annotation: bool, bytes: &[u8]) -> Piece
    ensures value { result ≡ piece_at annotation bytes.now }
    ensures within { result.len ≤ length bytes.now }
    ensures some { 0 < length bytes.now → 0 < result.len }
{
    let [byte, after @ ..] = bytes else {
        return Piece {
            kind: PieceKind::Blank,
            len: 0,
        };
    };
    let byte = *byte;
    if bytes::is_blank(byte) {
        Piece {
            kind: PieceKind::Blank,
            len: 1,
        }
    } else if byte == b';' {
        Piece {
            kind: PieceKind::Comment,
            len: 1 + after.len(),
        }
    } else if bytes::is_name_start(byte) {
        Piece {
            kind: PieceKind::Token(TokenKind::Name),
            len: 1 + bytes::name_bytes(after),
        }
    } else if byte.is_ascii_digit() {
        Piece {
            kind: PieceKind::Token(TokenKind::Number),
            len: 1 + bytes::number_bytes(after),
        }
    } else if byte == b'\'' {
        text_piece(after)
    } else {
        symbol_piece(symbol_len(annotation, bytes))
    }
}

fn unless(sound: bool, kind: TextKind) -> Option<TextKind>
    ensures { result ≡ unless sound kind }
{
    if sound { None } else { Some(kind) }
}

/// What is wrong with a piece.
#[tactic(auto, unfolding(crate::specs::code::Pieces::fault_of))]
fn fault_of(annotation: bool, kind: PieceKind, text: &[u8]) -> Option<TextKind>
    ensures { result ≡ fault_of annotation kind text.now }
{
    match kind {
        PieceKind::Blank | PieceKind::Token(TokenKind::Symbol) => None,
        PieceKind::Stray => Some(TextKind::BadByte),
        PieceKind::Comment => unless(bytes::are_comment_bytes(text), TextKind::BadByte),
        PieceKind::Token(TokenKind::Name) => unless(text.len() <= Name::MAX, TextKind::BadByte),
        PieceKind::Token(TokenKind::Text) => unless(bytes::are_plain(text), TextKind::BadByte),
        PieceKind::Token(TokenKind::Number) => unless(
            numbers::is_number(annotation, text),
            TextKind::BadNumber,
        ),
        PieceKind::OpenText => {
            if bytes::are_plain(text) {
                Some(TextKind::OpenQuote)
            } else {
                Some(TextKind::BadByte)
            }
        }
    }
}

/// Adds the token of a piece, if it is one.
fn add_token(
    tokens: &mut Vec<Token>,
    kind: PieceKind,
    start: usize,
    end: usize,
) -> Result<(), Memory>
    ensures { OnOk result (tokens.new.items ≡ tokens.old.items ++ token_of kind start end) }
{
    if let PieceKind::Token(kind) = kind {
        tokens.push(Token { kind, start, end })?;
    }
    Ok(())
}

/// Adds the tokens of a line's bytes, which stand from `at` on in the source, and answers what is wrong with them.
pub(crate) fn scan(
    tokens: &mut Vec<Token>,
    annotation: bool,
    at: usize,
    bytes: &[u8],
) -> Result<Option<TextKind>, Memory>
    requires { at + length bytes.now < 2 ^ 64 }
    ensures fault { IfOk result (λ fault. fault ≡ fault_in annotation None (cuts annotation 0 bytes.now)) }
    ensures tokens { OnOk result (tokens.new.items ≡ tokens.old.items ++ tokens_from at (cuts annotation 0 bytes.now)) }
{
    let mut fault = None;
    let mut at = at;
    let mut rest = bytes;
    while !rest.is_empty() {
        let piece = piece_at(annotation, rest);
        let (text, after) = rest.split_at(piece.len);
        fault = first_fault(fault, fault_of(annotation, piece.kind, text));
        add_token(tokens, piece.kind, at, at + piece.len)?;
        at += piece.len;
        rest = after;
    }
    Ok(fault)
}
