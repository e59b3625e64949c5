ghost use Rattle.std.specs.Prelude.{◌≡◌};
ghost use Rattle.sp_expr.specs.Words.{AreIn, IsIn};
ghost use Rattle.sp_stmt.specs.code.Answers.{Answers};
ghost use Rattle.sp_stmt.specs.code.Bodies.{plain, with_expression, loaded, kind_of, load_body, end_body, body_of, with_operands};
ghost use Rattle.sp_stmt.specs.code.Data.{items_of, data_of};
ghost use Rattle.sp_stmt.specs.declared.statement.Code.TheVariants as codes;

use crate::data::data_of;
use crate::expression::operand;
use crate::operand::Operands;
use crate::plain::{alone, move_instr, pair_instr, register_instr, stack_instr};
use crate::statement::Code;
use crate::tokens::{arg_at, is_comma, pair_at};
use sp_expr::ParseRefusal;
use sp_isa::{Instr, valid};
use sp_lex::Token;
use sp_words::{DataKind, ExpressionKind, Load, Mnemonic};
use std::alloc::Global;

/// A code with its operands.
#[derive(Drop)]
pub struct Body {
    pub code: Code,
    pub operands: Operands,
}

/// An instruction without an expression, where the table has it.
fn plain(alloc: Global, instr: Option<Instr>) -> Result<Body, ParseRefusal>
    ensures { result ≡ plain instr }
{
    let Some(instr) = instr else {
        return Err(ParseRefusal::Syntax);
    };
    if !valid(&instr) {
        return Err(ParseRefusal::Syntax);
    }
    Ok(Body {
        code: Code::Instr(instr),
        operands: Operands::from_vec(Vec::new(alloc)),
    })
}

/// A code with one expression.
pub(crate) fn with_expression(
    alloc: Global,
    kind: ExpressionKind,
    code: Code,
    source: &[u8],
    tokens: &[Token],
) -> Result<Body, ParseRefusal>
    requires { AreIn source.now tokens.now }
    ensures { Answers result (with_expression kind code source.now tokens.now) }
{
    let operand = operand(alloc, kind, source, tokens)?;
    let mut operands = Vec::with_capacity(alloc, 1)?;
    operands.push(operand)?;
    Ok(Body {
        code,
        operands: Operands::from_vec(operands),
    })
}

fn loaded(form: Load, source: &[u8], token: Token) -> Option<Instr>
    requires { IsIn source.now token }
    ensures { result ≡ loaded form source.now token }
{
    match form {
        Load::Byte => {
            let to = arg_at(source, token)?;
            Some(Instr::Mvi(to, 0))
        }
        Load::Word => {
            let pair = pair_at(source, token)?;
            Some(Instr::Lxi(pair, 0))
        }
    }
}

fn kind_of(form: Load) -> ExpressionKind
    ensures { result ≡ kind_of form }
{
    match form {
        Load::Byte => ExpressionKind::Byte,
        Load::Word => ExpressionKind::Word,
    }
}

#[tactic(auto, unfolding(crate::specs::code::Bodies::load_body))]
fn load_body(
    alloc: Global,
    form: Load,
    source: &[u8],
    tokens: &[Token],
) -> Result<Body, ParseRefusal>
    requires { AreIn source.now tokens.now }
    ensures { Answers result (load_body form source.now tokens.now) }
{
    let [to, comma, value @ ..] = tokens else {
        return Err(ParseRefusal::Syntax);
    };
    if !is_comma(source, *comma) {
        return Err(ParseRefusal::Syntax);
    }
    let Some(instr) = loaded(form, source, *to) else {
        return Err(ParseRefusal::Syntax);
    };
    with_expression(alloc, kind_of(form), Code::Instr(instr), source, value)
}

fn data_body(
    alloc: Global,
    kind: DataKind,
    source: &[u8],
    tokens: &[Token],
) -> Result<Body, ParseRefusal>
    requires { AreIn source.now tokens.now }
    ensures { Answers result (with_operands codes.Data (data_of kind source.now (items_of source.now tokens.now))) }
{
    let operands = data_of(alloc, kind, source, tokens)?;
    Ok(Body {
        code: Code::Data,
        operands,
    })
}

fn end_body(alloc: Global, source: &[u8], tokens: &[Token]) -> Result<Body, ParseRefusal>
    requires { AreIn source.now tokens.now }
    ensures { Answers result (end_body source.now tokens.now) }
{
    match tokens {
        [] => Ok(Body {
            code: Code::End,
            operands: Operands::from_vec(Vec::new(alloc)),
        }),
        [_, ..] => with_expression(alloc, ExpressionKind::Word, Code::End, source, tokens),
    }
}

/// A mnemonic or directive with the tokens behind it.
#[tactic(auto, unfolding(crate::specs::code::Bodies::body_of))]
pub(crate) fn body_of(
    alloc: Global,
    mnemonic: Mnemonic,
    source: &[u8],
    tokens: &[Token],
) -> Result<Body, ParseRefusal>
    requires { AreIn source.now tokens.now }
    ensures { Answers result (body_of mnemonic source.now tokens.now) }
{
    match mnemonic {
        Mnemonic::Alone(instr) => plain(alloc, alone(instr, tokens)),
        Mnemonic::Register(form) => plain(alloc, register_instr(source, form, tokens)),
        Mnemonic::Pair(form) => plain(alloc, pair_instr(source, form, tokens)),
        Mnemonic::Stack(form) => plain(alloc, stack_instr(source, form, tokens)),
        Mnemonic::Move => plain(alloc, move_instr(source, tokens)),
        Mnemonic::Load(form) => load_body(alloc, form, source, tokens),
        Mnemonic::Expression(kind, instr) => {
            with_expression(alloc, kind, Code::Instr(instr), source, tokens)
        }
        Mnemonic::Data(kind) => data_body(alloc, kind, source, tokens),
        Mnemonic::Space => {
            with_expression(alloc, ExpressionKind::Word, Code::Space, source, tokens)
        }
        Mnemonic::Org => with_expression(alloc, ExpressionKind::Word, Code::Org, source, tokens),
        Mnemonic::Assignment(_) => Err(ParseRefusal::Syntax),
        Mnemonic::End => end_body(alloc, source, tokens),
    }
}
