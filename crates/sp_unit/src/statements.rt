//! The instructions of a routine, with what is asserted at each.
ghost use Rattle.std.specs.Prelude.{◌≡◌, ◌<◌, ◌∷◌, [], ◌++◌, List, IfOk, true};
ghost use Rattle.std.specs.List.{AllZip};
ghost use Rattle.sp_unit.specs.Faults.{Source};
ghost use Rattle.sp_unit.specs.Lines as lines;
ghost use Rattle.sp_unit.specs.SourceUnits.{IsCoded, coded};
ghost use Rattle.sp_unit.specs.code.Building.{AreCoded};
ghost use Rattle.sp_unit.specs.code.Entries.{entry_of, entries_of};
ghost use Rattle.sp_unit.specs.code.Scopes.{IsScope, source_of};
ghost use Rattle.sp_unit.specs.code.Sounds.{IsSound, AreSound};

use crate::entry::Entry;
use crate::noted::{Point, noted_at};
use crate::pushed::with_one;
use crate::scope::Scope;
use sp_asm::{Item, ItemKind};
use sp_base::Memory;
use sp_isa::Instr;
use sp_prog::{Noted, Noteds, Stmt};
use std::alloc::Global;

/// The instructions of some lines, and the assertions after the last of them.
#[derive(Drop)]
pub(crate) struct Coding {
    pub code: Vec<Stmt>,
    pub asserts: Vec<Noted>,
}

/// With one instruction more.
fn with_instr(alloc: Global, coding: Coding, item: &Item, instr: Instr) -> Result<Coding, Memory>
    requires { item.now.addr < 65536 }
    ensures { IfOk result (λ next. (s : Source) (above : List lines.Entry) → item.now.kind ≡ ItemKind.Instr instr → AreCoded s above coding
        → AreCoded s (above ++ lines.Statement item.now ∷ []) next) }
{
    let Coding { code, asserts } = coding;
    let mut code = code;
    code.push(Stmt {
        line: item.line,
        addr: item.addr as u16,
        instr,
        asserts: Noteds::from_vec(asserts),
    })?;
    Ok(Coding {
        code,
        asserts: Vec::new(alloc),
    })
}

/// With one statement more.
fn with_item(alloc: Global, coding: Coding, item: &Item) -> Result<Coding, Memory>
    requires { lines.is_instr item.now.kind ≡ true → item.now.addr < 65536 }
    ensures { IfOk result (λ next. (s : Source) (above : List lines.Entry) → AreCoded s above coding
        → AreCoded s (above ++ lines.Statement item.now ∷ []) next) }
{
    match item.kind {
        ItemKind::Instr(instr) => with_instr(alloc, coding, item, instr),
        _ => Ok(coding),
    }
}

/// With one line more.
fn with_line(
    alloc: Global,
    scope: &Scope<'_>,
    coding: Coding,
    e: &Entry<'_>,
) -> Result<Coding, Memory>
    requires scope { IsScope scope.now }
    requires sound { IsSound (source_of scope.now) (entry_of e.now) }
    ensures { IfOk result (λ next. (above : List lines.Entry) → AreCoded (source_of scope.now) above coding
        → AreCoded (source_of scope.now) (above ++ entry_of e.now ∷ []) next) }
{
    match e {
        Entry::Statement(item) => with_item(alloc, coding, item),
        Entry::Annotation(_) => {
            let Coding { code, asserts } = coding;
            let asserts = with_one(asserts, noted_at(alloc, scope, Point::Next, e)?)?;
            Ok(Coding { code, asserts })
        }
    }
}

/// The instructions of lines, with what is asserted at each.
pub(crate) fn statements(
    alloc: Global,
    scope: &Scope<'_>,
    lines: &[Entry<'_>],
) -> Result<Vec<Stmt>, Memory>
    requires scope { IsScope scope.now }
    requires sound { AreSound (source_of scope.now) (entries_of lines.now) }
    ensures { IfOk result (λ code. AllZip (IsCoded (source_of scope.now)) (coded [] (entries_of lines.now)) code.items) }
{
    let mut coding = Coding {
        code: Vec::new(alloc),
        asserts: Vec::new(alloc),
    };
    for e in lines {
        coding = with_line(alloc, scope, coding, e)?;
    }
    Ok(coding.code)
}
