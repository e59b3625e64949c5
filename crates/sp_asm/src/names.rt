//! The names that statements define.
ghost use Rattle.std.specs.Prelude.{◌≡◌, IfOk};
ghost use Rattle.sp_asm.specs.Names.{value_in, name_of, is_set};
ghost use Rattle.sp_asm.specs.code.Passes.{Declares};

use sp_base::{Memory, Name};
use sp_expr::Symbols;
use sp_stmt::{Code, Statement};
use std::alloc::Global;

/// The name that a statement defines: its label, or the name of EQU or SET.
pub(crate) fn name_of(s: &Statement) -> Option<Name>
    ensures { result ≡ name_of s.now }
{
    match s.code {
        Code::Equ(name) => Some(name),
        Code::Set(name) => Some(name),
        _ => s.label,
    }
}

pub(crate) fn is_set(code: Code) -> bool
    ensures { result ≡ is_set code }
{
    match code {
        Code::Set(_) => true,
        _ => false,
    }
}

/// The names that statements define, each with the value 0.
pub(crate) fn declared_names(alloc: Global, statements: &[Statement]) -> Result<Symbols, Memory>
    ensures { IfOk result (λ names. Declares (value_in names.entries) statements.now) }
{
    let mut names = Symbols::new(alloc);
    for s in statements {
        if let Some(name) = name_of(s) {
            names.insert(name, 0)?;
        }
    }
    Ok(names)
}
