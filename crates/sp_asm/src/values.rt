//! The values of a statement's operands.
ghost use Rattle.std.specs.Prelude.{◌≡◌, All, IfOk, IfSome, IfNone, length};
ghost use Rattle.sp_stmt.specs.Statements.{HaveTree, IsExpressed};
ghost use Rattle.sp_asm.specs.Names.{value_in};
ghost use Rattle.sp_asm.specs.Values.{HasValue, HasNoValue, IsValue, IsWithoutValue, is_in_range, are_in_range};
ghost use Rattle.sp_asm.specs.code.Passes.{Evaluated};

use sp_base::Memory;
use sp_expr::{Expr, Symbols, value};
use sp_stmt::Operand;

/// The value of an expression, where it has one.
fn expression_value(e: &Expr, names: &Symbols, here: u16) -> Option<u16>
    requires { HaveTree e.now }
    ensures some { IfSome result (λ x. HasValue (value_in names.now.entries) here e.now x) }
    ensures none { IfNone result (HasNoValue (value_in names.now.entries) here e.now) }
{
    match value(e, names, here) {
        Ok(found) => Some(found),
        Err(_) => None,
    }
}

/// The value of an operand, where it has one; that of a text is 0.
fn operand_value(operand: &Operand, names: &Symbols, here: u16) -> Option<u16>
    requires { IsExpressed operand.now }
    ensures some { IfSome result (λ x. IsValue (value_in names.now.entries) here operand.now x) }
    ensures none { IfNone result (IsWithoutValue (value_in names.now.entries) here operand.now) }
{
    match operand {
        Operand::Text(_) => Some(0),
        Operand::Byte(e) => expression_value(e, names, here),
        Operand::Word(e) => expression_value(e, names, here),
        Operand::Restart(e) => expression_value(e, names, here),
    }
}

/// Puts the values of operands into the list, in place of what it held, and says whether each has one.
pub(crate) fn evaluate(
    values: &mut Vec<u16>,
    operands: &[Operand],
    names: &Symbols,
    here: u16,
) -> Result<bool, Memory>
    requires { All IsExpressed operands.now }
    ensures { IfOk result (λ each. Evaluated each (value_in names.now.entries) here operands.now values.new.items) }
{
    values.clear();
    for operand in operands {
        let Some(found) = operand_value(operand, names, here) else {
            return Ok(false);
        };
        values.push(found)?;
    }
    Ok(true)
}

/// Whether a value may stand for an operand.
fn is_in_range(operand: &Operand, found: u16) -> bool
    ensures { result ≡ is_in_range operand.now found }
{
    match operand {
        Operand::Text(_) => true,
        Operand::Byte(_) => found <= 0xFF || found >= 0xFF00,
        Operand::Word(_) => true,
        Operand::Restart(_) => found <= 7,
    }
}

/// Whether each of these values may stand for its operand.
pub(crate) fn are_in_range(operands: &[Operand], values: &[u16]) -> bool
    requires { length values.now ≡ length operands.now }
    ensures { result ≡ are_in_range operands.now values.now }
{
    for (i, operand) in operands.iter().enumerate() {
        if !is_in_range(operand, values[i]) {
            return false;
        }
    }
    true
}
