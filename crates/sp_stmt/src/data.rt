ghost use Rattle.std.specs.Prelude.{◌≡◌, ◌≤◌, [], ◌∷◌, length, take, drop, IfSome};
ghost use Rattle.sp_expr.specs.Words.{AreIn};
ghost use Rattle.sp_lex.specs.Texts.{characters_of};
ghost use Rattle.sp_stmt.specs.code.Answers.{Answers};
ghost use Rattle.sp_stmt.specs.code.Data.{items_of, items_behind, text_operand, lone_text, byte_item, item_of, data_of, behind, one_operand};

use crate::expression::operand;
use crate::operand::{Characters, Operand, Operands};
use crate::tokens::{is_comma, text_of};
use sp_expr::ParseRefusal;
use sp_lex::{Token, TokenKind};
use sp_words::{DataKind, ExpressionKind};
use std::alloc::Global;

/// The operands of a data directive while its items are read.
#[derive(Drop)]
pub struct Items {
    operands: Vec<Operand>,
    /// Whether an item nests too deep.
    deep: bool,
}

fn text_operand(alloc: Global, text: &[u8]) -> Result<Operand, ParseRefusal>
    ensures { Answers result (text_operand (characters_of text.now)) }
{
    let characters = sp_lex::characters(alloc, text)?;
    if characters.is_empty() {
        Err(ParseRefusal::Syntax)
    } else {
        Ok(Operand::Text(Characters::from_vec(characters)))
    }
}

/// The text that an item is, if it is nothing else.
fn lone_text(item: &[Token]) -> Option<Token>
    ensures value { result ≡ lone_text item.now }
    ensures alone { IfSome result (λ token. item.now ≡ token ∷ []) }
{
    let [token] = item else {
        return None;
    };
    match token.kind {
        TokenKind::Text => Some(*token),
        TokenKind::Name | TokenKind::Number | TokenKind::Symbol => None,
    }
}

fn byte_item(alloc: Global, source: &[u8], item: &[Token]) -> Result<Operand, ParseRefusal>
    requires { AreIn source.now item.now }
    ensures { Answers result (byte_item (lone_text item.now) source.now item.now) }
{
    match lone_text(item) {
        Some(token) => text_operand(alloc, text_of(source, token)),
        None => operand(alloc, ExpressionKind::Byte, source, item),
    }
}

#[tactic(auto, unfolding(crate::specs::code::Data::item_of))]
fn item_of(
    alloc: Global,
    kind: DataKind,
    source: &[u8],
    item: &[Token],
) -> Result<Operand, ParseRefusal>
    requires { AreIn source.now item.now }
    ensures { Answers result (item_of kind source.now item.now) }
{
    match kind {
        DataKind::Bytes => byte_item(alloc, source, item),
        DataKind::Words => operand(alloc, ExpressionKind::Word, source, item),
    }
}

/// How many tokens the first item has.
fn item_len(source: &[u8], tokens: &[Token]) -> usize
    requires { AreIn source.now tokens.now }
    ensures within { result ≤ length tokens.now }
    ensures items { items_of source.now tokens.now ≡ take result tokens.now ∷ items_behind source.now (drop result tokens.now) }
{
    for (i, token) in tokens.iter().enumerate() {
        if is_comma(source, *token) {
            return i;
        }
    }
    tokens.len()
}

impl Items {
    ghost use Rattle.sp_stmt.specs.code.Held.{held, AnswersItem};

    fn empty(alloc: Global) -> Items
        ensures { held result ≡ Ok [] }
    {
        Items {
            operands: Vec::new(alloc),
            deep: false,
        }
    }

    /// Adds an item. One that nests too deep is noted, since a later one may be Syntax.
    fn add(
        &mut self,
        alloc: Global,
        kind: DataKind,
        source: &[u8],
        item: &[Token],
    ) -> Result<(), ParseRefusal>
        requires { AreIn source.now item.now }
        ensures { AnswersItem result (held self.new) (behind (held self.old) (one_operand (item_of kind source.now item.now))) }
    {
        match item_of(alloc, kind, source, item) {
            Ok(operand) => {
                self.operands.push(operand)?;
                Ok(())
            }
            Err(ParseRefusal::TooDeep) => {
                self.deep = true;
                Ok(())
            }
            Err(ParseRefusal::Syntax) => Err(ParseRefusal::Syntax),
            Err(ParseRefusal::Memory) => Err(ParseRefusal::Memory),
        }
    }

    fn finish(self) -> Result<Operands, ParseRefusal>
        ensures { result ≡ held self }
    {
        let Items { operands, deep } = self;
        if deep {
            Err(ParseRefusal::TooDeep)
        } else {
            Ok(Operands::from_vec(operands))
        }
    }
}

/// The operands of DB or DW: items, divided by commas.
pub(crate) fn data_of(
    alloc: Global,
    kind: DataKind,
    source: &[u8],
    tokens: &[Token],
) -> Result<Operands, ParseRefusal>
    requires { AreIn source.now tokens.now }
    ensures { Answers result (data_of kind source.now (items_of source.now tokens.now)) }
{
    let mut items = Items::empty(alloc);
    let mut rest = tokens;
    loop {
        let (item, behind) = rest.split_at(item_len(source, rest));
        items.add(alloc, kind, source, item)?;
        match behind {
            [] => return items.finish(),
            [_, after @ ..] => rest = after,
        }
    }
}
