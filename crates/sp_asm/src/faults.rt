//! Why operands have no values.
ghost use Rattle.std.specs.Prelude.{◌≡◌};
ghost use Rattle.std.specs.List.{list_any};
ghost use Rattle.sp_asm.specs.Names.{value_in};
ghost use Rattle.sp_asm.specs.Values.{operand_words};
ghost use Rattle.sp_asm.specs.code.Passes.{is_later, is_undefined, has_later, has_undefined, fault_of};

use crate::refusal::AsmKind;
use sp_expr::{Symbols, Word};
use sp_stmt::Operand;

/// The words of an operand's expression.
fn operand_words(operand: &Operand) -> &[Word]
    ensures { result.now ≡ operand_words operand.now }
{
    match operand {
        Operand::Text(_) => &[],
        Operand::Byte(e) => e.as_slice(),
        Operand::Word(e) => e.as_slice(),
        Operand::Restart(e) => e.as_slice(),
    }
}

/// Whether a word is a name without a value that is declared.
fn is_later(word: Word, names: &Symbols, declared: &Symbols) -> bool
    ensures { result ≡ is_later (value_in names.now.entries) (value_in declared.now.entries) word }
{
    let Word::Name(name) = word else {
        return false;
    };
    !names.contains_key(&name) && declared.contains_key(&name)
}

/// Whether a word is a name without a value.
fn is_undefined(word: Word, names: &Symbols) -> bool
    ensures { result ≡ is_undefined (value_in names.now.entries) word }
{
    let Word::Name(name) = word else {
        return false;
    };
    !names.contains_key(&name)
}

/// Whether a name of an operand has no value and is declared.
fn uses_later(operand: &Operand, names: &Symbols, declared: &Symbols) -> bool
    ensures { result ≡ list_any (is_later (value_in names.now.entries) (value_in declared.now.entries)) (operand_words operand.now) }
{
    operand_words(operand)
        .iter()
        .any(|word| is_later(*word, names, declared))
}

/// Whether a name of an operand has no value.
fn uses_undefined(operand: &Operand, names: &Symbols) -> bool
    ensures { result ≡ list_any (is_undefined (value_in names.now.entries)) (operand_words operand.now) }
{
    operand_words(operand)
        .iter()
        .any(|word| is_undefined(*word, names))
}

fn has_later(operands: &[Operand], names: &Symbols, declared: &Symbols) -> bool
    ensures { result ≡ has_later (value_in names.now.entries) (value_in declared.now.entries) operands.now }
{
    operands
        .iter()
        .any(|operand| uses_later(operand, names, declared))
}

fn has_undefined(operands: &[Operand], names: &Symbols) -> bool
    ensures { result ≡ has_undefined (value_in names.now.entries) operands.now }
{
    operands
        .iter()
        .any(|operand| uses_undefined(operand, names))
}

/// Why one of the operands has no value, where the names that are declared are these.
pub(crate) fn fault_of(operands: &[Operand], names: &Symbols, declared: &Symbols) -> AsmKind
    ensures { result ≡ fault_of (value_in names.now.entries) (value_in declared.now.entries) operands.now }
{
    if has_later(operands, names, declared) {
        AsmKind::Later
    } else if has_undefined(operands, names) {
        AsmKind::Undefined
    } else {
        AsmKind::ZeroDivisor
    }
}
