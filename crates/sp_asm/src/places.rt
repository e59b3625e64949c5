//! The first pass: the address of each statement, and the names that statements define.
ghost use Rattle.std.specs.Prelude.{◌≡◌, ◌≤◌, ◌<◌, ◌%◌, [], List, All, false, fold, IfOk, IfErr, OnOk, IfSome, IfNone, IsSome};
ghost use Rattle.sp_base.specs.Refused.{Answers};
ghost use Rattle.sp_stmt.specs.Statements.{IsStatement};
ghost use Rattle.sp_asm.specs.Names.{fixed, with_definition};
ghost use Rattle.sp_asm.specs.Assembly.{Place, uses_names_above, names_above, is_duplicate, defined_value, definition_by, HasPlaceValue, address_after, address_behind};
ghost use Rattle.sp_asm.specs.code.Passes.{IsPlaces, ArePlaces, HasPlaced, RefusesLine};
ghost use Rattle.sp_asm.specs.Refusals.{BreaksPlace, FirstRound};

use crate::bytes::{address_behind, first};
use crate::faults::fault_of;
use crate::names::{declared_names, is_set, name_of};
use crate::refusal::{AsmKind, AsmRefusal};
use crate::values::evaluate;
use sp_base::{Memory, Name, Refused};
use sp_expr::Symbols;
use sp_stmt::{Code, Statement};
use std::alloc::Global;

/// Where a statement stands, and its value if it is EQU, SET, ORG or DS.
#[derive(Clone, Copy, Debug)]
pub(crate) struct Spot {
    pub address: u32,
    pub value: u16,
}

/// The statements that have their places.
#[derive(Drop)]
pub(crate) struct Places {
    pub spots: Vec<Spot>,
    /// The address after them.
    pub address: u32,
    /// The names that they define.
    pub names: Symbols,
    /// Those by labels and EQU.
    pub fixed: Symbols,
}

/// Whether a statement may use names above alone.
pub(crate) fn uses_names_above(code: Code) -> bool
    ensures { result ≡ uses_names_above code }
{
    match code {
        Code::Space | Code::Org | Code::Equ(_) | Code::Set(_) => true,
        Code::Nothing | Code::Instr(_) | Code::Data | Code::End => false,
    }
}

impl Places {
    fn new(alloc: Global) -> Places
        ensures { IsPlaces result [] }
    {
        Places {
            spots: Vec::new(alloc),
            address: 0,
            names: Symbols::new(alloc),
            fixed: Symbols::new(alloc),
        }
    }

    /// Whether a statement defines a name that is defined above, other than both by SET.
    fn is_duplicate(&self, s: &Statement) -> bool
        ensures { (places : List Place) → IsPlaces self.now places → result ≡ is_duplicate places s.now }
    {
        match name_of(s) {
            None => false,
            Some(name) => {
                if is_set(s.code) {
                    self.fixed.contains_key(&name)
                } else {
                    self.names.contains_key(&name)
                }
            }
        }
    }

    /// The value of EQU, SET, ORG and DS by the names above, 0 of others.
    fn value_of(
        &self,
        alloc: Global,
        values: &mut Vec<u16>,
        all: &[Statement],
        s: &Statement,
    ) -> Result<u16, AsmRefusal>
        requires { IsStatement s.now }
        ensures ok { (places : List Place) → IsPlaces self.now places → IfOk result (λ x. HasPlaceValue (uses_names_above s.now.code) (names_above places) (address_after places % 65536) s.now.operands x) }
        ensures err { (places : List Place) → IsPlaces self.now places → is_duplicate places s.now ≡ false → IfErr result (RefusesLine s.now.line (BreaksPlace all.now places s.now)) }
    {
        if !uses_names_above(s.code) {
            return Ok(0);
        }
        let here = (self.address % 65_536) as u16;
        if evaluate(values, s.operands.as_slice(), &self.names, here)? {
            return Ok(first(values));
        }
        let declared = declared_names(alloc, all)?;
        let kind = fault_of(s.operands.as_slice(), &self.names, &declared);
        Err(Refused::At(s.line, kind))
    }

    /// Takes in a name that is defined with this value.
    fn define(&mut self, name: Option<Name>, value: u16, by_set: bool) -> Result<(), Memory>
        ensures names { OnOk result (self.new.names.entries ≡ fold with_definition self.old.names.entries (definition_by name value by_set)) }
        ensures fixed { OnOk result (self.new.fixed.entries ≡ fold with_definition self.old.fixed.entries (fixed (definition_by name value by_set))) }
        ensures others { (self.new.address ≡ self.old.address) × (self.new.spots ≡ self.old.spots) }
    {
        let Some(name) = name else {
            return Ok(());
        };
        if !by_set {
            self.fixed.insert(name, value)?;
        }
        self.names.insert(name, value)?;
        Ok(())
    }

    /// Gives a statement its place after those that have theirs, or says how it breaks the rules of places.
    fn add_place(
        &mut self,
        alloc: Global,
        values: &mut Vec<u16>,
        all: &[Statement],
        s: &Statement,
    ) -> Result<(), AsmRefusal>
        requires statement { IsStatement s.now }
        requires within { self.old.address ≤ 65536 }
        ensures ok { (places : List Place) → IsPlaces self.old places → OnOk result (HasPlaced self.new places s.now) }
        ensures err { (places : List Place) → IsPlaces self.old places → IfErr result (RefusesLine s.now.line (BreaksPlace all.now places s.now)) }
        ensures still_within { OnOk result (self.new.address ≤ 65536) }
    {
        if self.is_duplicate(s) {
            return Err(Refused::At(s.line, AsmKind::Duplicate));
        }
        let value = self.value_of(alloc, values, all, s)?;
        let address = self.address;
        let Some(next) = room_for(alloc, s, address, value) else {
            return Err(Refused::At(s.line, AsmKind::PastEnd));
        };
        self.define(
            name_of(s),
            defined_value(s.code, address, value),
            is_set(s.code),
        )?;
        self.spots.push(Spot { address, value })?;
        self.address = next;
        Ok(())
    }
}

/// The address after a statement that stands at an address with this value, where there is room for it and its label.
fn room_for(alloc: Global, s: &Statement, address: u32, value: u16) -> Option<u32>
    requires statement { IsStatement s.now }
    requires within { address ≤ 65536 }
    ensures some { IfSome result (λ next. (next ≡ address_behind s.now.code s.now.operands address value) × (next ≤ 65536) × (IsSome s.now.label → address < 65536)) }
    ensures none { IfNone result ((IsSome s.now.label → address < 65536) → address_behind s.now.code s.now.operands address value ≤ 65536 → ⊥) }
{
    if s.label.is_some() && address == 65_536 {
        return None;
    }
    address_behind(alloc, s, address, value)
}

/// The value of the name that a code at an address of memory defines.
fn defined_value(code: Code, address: u32, value: u16) -> u16
    ensures { result ≡ defined_value code (address % 65536) value }
{
    match code {
        Code::Equ(_) | Code::Set(_) => value,
        Code::Nothing | Code::Instr(_) | Code::Data | Code::Space | Code::Org | Code::End =>
            (address % 65_536) as u16,
    }
}

/// The places of all statements, or the first that breaks the rules of places.
pub(crate) fn places_of(alloc: Global, statements: &[Statement]) -> Result<Places, AsmRefusal>
    requires { All IsStatement statements.now }
    ensures { Answers (ArePlaces statements.now) (FirstRound statements.now) result }
{
    let mut places = Places::new(alloc);
    let mut values = Vec::new(alloc);
    for s in statements {
        places.add_place(alloc, &mut values, statements, s)?;
    }
    Ok(places)
}
