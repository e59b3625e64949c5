ghost use Rattle.std.specs.Prelude.{◌≡◌};
ghost use Rattle.sp_expr.specs.Words.{AreIn};
ghost use Rattle.sp_stmt.specs.code.Answers.{Answers};
ghost use Rattle.sp_stmt.specs.Operands.{used_as};
ghost use Rattle.sp_stmt.specs.code.Expressions.{expression_of, operand_of};

use crate::operand::Operand;
use sp_expr::{Expr, ParseRefusal, parse};
use sp_lex::Token;
use sp_words::ExpressionKind;
use std::alloc::Global;

/// The expression of all these tokens.
fn expression(alloc: Global, source: &[u8], tokens: &[Token]) -> Result<Expr, ParseRefusal>
    requires { AreIn source.now tokens.now }
    ensures { Answers result (expression_of source.now tokens.now) }
{
    parse(alloc, source, tokens)
}

fn used_as(kind: ExpressionKind, expression: Expr) -> Operand
    ensures { result ≡ used_as kind expression }
{
    match kind {
        ExpressionKind::Byte => Operand::Byte(expression),
        ExpressionKind::Word => Operand::Word(expression),
        ExpressionKind::Restart => Operand::Restart(expression),
    }
}

/// The operand that an expression of all these tokens is.
pub(crate) fn operand(
    alloc: Global,
    kind: ExpressionKind,
    source: &[u8],
    tokens: &[Token],
) -> Result<Operand, ParseRefusal>
    requires { AreIn source.now tokens.now }
    ensures { Answers result (operand_of kind source.now tokens.now) }
{
    let expression = expression(alloc, source, tokens)?;
    Ok(used_as(kind, expression))
}
