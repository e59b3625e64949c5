//! The second pass: the bytes of each statement.
ghost use Rattle.std.specs.Prelude.{◌≡◌, ◌++◌, ◌∷◌, ◌+◌, ◌≤◌, [], List, All, true, fold, map, length, IfOk, IfErr, OnOk};
ghost use Rattle.sp_base.specs.Cells.{placed, IsPlaced};
ghost use Rattle.sp_base.specs.Refused.{Answers};
ghost use Rattle.sp_stmt.specs.Statements.{IsStatement};
ghost use Rattle.sp_asm.specs.Names.{symbols, with_definition, set_definition};
ghost use Rattle.sp_asm.specs.Assembly.{Place, Row, definitions, address_behind, kind_by, uses_names_above};
ghost use Rattle.sp_asm.specs.code.Passes.{ArePlaces, IsRows, HasRow, RefusesLine, ListsAssembly};
ghost use Rattle.sp_asm.specs.Refusals.{BreaksRow, SecondRound};

use crate::bytes::{first, put_bytes, with_value};
use crate::faults::fault_of;
use crate::listing::{Item, ItemKind, Items, Listing};
use crate::places::{Places, Spot, uses_names_above};
use crate::refusal::{AsmKind, AsmRefusal};
use crate::values::{are_in_range, evaluate};
use sp_base::{Image, Memory, Refused};
use sp_expr::Symbols;
use sp_stmt::{Code, Statement};
use std::alloc::Global;

/// The statements that have their bytes.
#[derive(Drop)]
pub(crate) struct Rows {
    pub items: Vec<Item>,
    pub image: Image,
    /// The names by labels and EQU, and those by SET above.
    pub names: Symbols,
}

/// Lists that are used again for each statement.
#[derive(Drop)]
pub(crate) struct Scratch {
    values: Vec<u16>,
    bytes: Vec<u8>,
}

/// What a listing says of a code whose operands have these values.
fn kind_of(code: Code, values: &[u16]) -> ItemKind
    ensures { result ≡ kind_by code values.now }
{
    match code {
        Code::Nothing => ItemKind::Label,
        Code::Instr(i) => ItemKind::Instr(with_value(first(values), i)),
        Code::Data => ItemKind::Bytes,
        Code::Space => ItemKind::Space,
        Code::Org => ItemKind::Org,
        Code::Equ(_) | Code::Set(_) | Code::End => ItemKind::Other,
    }
}

impl Rows {
    /// Puts the bytes of a statement into the image, and says whether none of their addresses had one.
    fn put(&mut self, address: u32, bytes: &[u8]) -> Result<bool, Memory>
        requires { address + length bytes.now ≤ 65536 }
        ensures image { IfOk result (λ new. IsPlaced new self.new.image (placed address bytes.now self.old.image)) }
        ensures others { (self.new.items ≡ self.old.items) × (self.new.names ≡ self.old.names) }
    {
        if bytes.is_empty() {
            return Ok(true);
        }
        self.image.place(address as u16, bytes)
    }

    /// Takes in an item.
    fn add_item(&mut self, s: &Statement, address: u32, kind: ItemKind) -> Result<(), Memory>
        ensures items { OnOk result (self.new.items.items ≡ self.old.items.items ++ record { line = s.now.line; addr = address; label = s.now.label; kind = kind } ∷ []) }
        ensures others { (self.new.image ≡ self.old.image) × (self.new.names ≡ self.old.names) }
    {
        self.items.push(Item {
            line: s.line,
            addr: address,
            label: s.label,
            kind,
        })?;
        Ok(())
    }

    /// Takes in the name of a SET with this value.
    fn set_name(&mut self, code: Code, value: u16) -> Result<(), Memory>
        ensures names { OnOk result (self.new.names.entries ≡ fold with_definition self.old.names.entries (set_definition code value)) }
        ensures others { (self.new.items ≡ self.old.items) × (self.new.image ≡ self.old.image) }
    {
        if let Code::Set(name) = code {
            self.names.insert(name, value)?;
        }
        Ok(())
    }

    /// Takes in EQU, SET, ORG or DS.
    fn add_directive(&mut self, s: &Statement, spot: Spot) -> Result<(), Memory>
        ensures { (all : List Place) (rows : List Row) (p : Place) → IsRows self.old all rows → p.statement ≡ s.now → p.address ≡ spot.address → p.value ≡ spot.value
            → uses_names_above s.now.code ≡ true → OnOk result (HasRow self.new all rows p) }
    {
        self.set_name(s.code, spot.value)?;
        self.add_item(s, spot.address, kind_of(s.code, &[]))?;
        Ok(())
    }

    /// Gives a place its row after those that have theirs, or says how it breaks the rules of rows. `all` are the names
    /// that the source defines.
    fn add_row(
        &mut self,
        alloc: Global,
        scratch: &mut Scratch,
        all: &Symbols,
        s: &Statement,
        spot: Spot,
    ) -> Result<(), AsmRefusal>
        requires statement { IsStatement s.now }
        requires room { address_behind s.now.code s.now.operands spot.address spot.value ≤ 65536 }
        ensures ok { (places : List Place) (rows : List Row) (p : Place) → IsRows self.old places rows → p.statement ≡ s.now → p.address ≡ spot.address → p.value ≡ spot.value
            → OnOk result (HasRow self.new places rows p) }
        ensures err { (places : List Place) (rows : List Row) (p : Place) → IsRows self.old places rows → p.statement ≡ s.now → p.address ≡ spot.address → p.value ≡ spot.value
            → all.now.entries ≡ symbols (definitions places) → IfErr result (RefusesLine s.now.line (BreaksRow (map (λ (q : Place). q.statement) places) places rows p)) }
    {
        if uses_names_above(s.code) {
            self.add_directive(s, spot)?;
            return Ok(());
        }
        let operands = s.operands.as_slice();
        let here = (spot.address % 65_536) as u16;
        if !evaluate(&mut scratch.values, operands, &self.names, here)? {
            return Err(Refused::At(s.line, fault_of(operands, &self.names, all)));
        }
        if !are_in_range(operands, &scratch.values) {
            return Err(Refused::At(s.line, AsmKind::Range));
        }
        put_bytes(alloc, &mut scratch.bytes, s, &scratch.values)?;
        if !self.put(spot.address, &scratch.bytes)? {
            return Err(Refused::At(s.line, AsmKind::Overlap));
        }
        self.add_item(s, spot.address, kind_of(s.code, &scratch.values))?;
        Ok(())
    }
}

/// The listing of statements that have their places, or the first that breaks the rules of rows.
pub(crate) fn listing_of(
    alloc: Global,
    statements: &[Statement],
    places: Places,
) -> Result<Listing, AsmRefusal>
    requires each { All IsStatement statements.now }
    requires placed { ArePlaces statements.now places }
    ensures { Answers (ListsAssembly statements.now) (SecondRound statements.now) result }
{
    let Places {
        spots,
        names,
        fixed,
        ..
    } = places;
    let mut rows = Rows {
        items: Vec::with_capacity(alloc, statements.len())?,
        image: Image::new(alloc),
        names: fixed,
    };
    let mut scratch = Scratch {
        values: Vec::new(alloc),
        bytes: Vec::new(alloc),
    };
    for (i, s) in statements.iter().enumerate() {
        rows.add_row(alloc, &mut scratch, &names, s, spots[i])?;
    }
    Ok(Listing {
        items: Items::from_vec(rows.items),
        image: rows.image,
        names,
    })
}
