//! The bytes of a statement.
ghost use Rattle.std.specs.Prelude.{◌≡◌, ◌++◌, ◌+◌, ◌≤◌, OnOk, length, slice_index};
ghost use Rattle.sp_isa.specs.Code.{code};
ghost use Rattle.sp_stmt.specs.declared.statement.Code.TheVariants as codes;
ghost use Rattle.sp_stmt.specs.Statements.{IsInTable};
ghost use Rattle.sp_asm.specs.Assembly.{with_value, item_bytes, items_bytes, size_of_item, size_of_items, address_behind, bytes_by};
ghost use Rattle.sp_asm.specs.code.Passes.{Reaches};

use sp_base::Memory;
use sp_isa::{Instr, encode, with_operand};
use sp_stmt::{Code, Operand, Statement};
use std::alloc::Global;

/// One more than the last address.
const END: u32 = 65_536;

/// How many bytes an item of DB or DW has.
fn size_of_item(item: &Operand) -> usize
    ensures { result ≡ size_of_item item.now }
{
    match item {
        Operand::Text(characters) => characters.as_slice().len(),
        Operand::Byte(_) => 1,
        Operand::Word(_) => 2,
        Operand::Restart(_) => 1,
    }
}

/// The address behind items that stand at an address, where it is 65,536 at most.
fn behind_items(items: &[Operand], address: u32) -> Option<u32>
    requires { address ≤ 65536 }
    ensures { Reaches result (address + size_of_items items.now) }
{
    let mut next = address;
    for item in items {
        let size = size_of_item(item);
        if size > (END - next) as usize {
            return None;
        }
        next += size as u32;
    }
    Some(next)
}

/// This address, where it is 65,536 at most.
fn within(address: u32) -> Option<u32>
    ensures { Reaches result address }
{
    if address <= END { Some(address) } else { None }
}

/// How many bytes an instruction has.
fn size_of_instr(alloc: Global, i: Instr) -> u32
    requires { IsInTable (codes.Instr i) }
    ensures size { result ≡ length (code i) }
    ensures small { result ≤ 3 }
{
    encode(alloc, &i).len() as u32
}

/// The address behind a statement that stands at an address, where it is 65,536 at most.
pub(crate) fn address_behind(alloc: Global, s: &Statement, address: u32, found: u16) -> Option<u32>
    requires table { IsInTable s.now.code }
    requires within { address ≤ 65536 }
    ensures { Reaches result (address_behind s.now.code s.now.operands address found) }
{
    match s.code {
        Code::Instr(i) => within(address + size_of_instr(alloc, i)),
        Code::Data => behind_items(s.operands.as_slice(), address),
        Code::Space => within(address + u32::from(found)),
        Code::Org => Some(u32::from(found)),
        Code::Equ(_) | Code::Set(_) | Code::Nothing | Code::End => Some(address),
    }
}

/// An instruction with its operand. The number of RST is 0 to 7.
pub(crate) fn with_value(found: u16, form: Instr) -> Instr
    ensures { result ≡ with_value found form }
{
    match form {
        Instr::Rst(_) => Instr::Rst((found % 8) as u8),
        other => with_operand(other, (found % 256) as u8, found).0,
    }
}

/// Adds the bytes of an item of DB or DW with this value.
fn push_item(bytes: &mut Vec<u8>, item: &Operand, found: u16) -> Result<(), Memory>
    ensures { OnOk result (bytes.new.items ≡ bytes.old.items ++ item_bytes item.now found) }
{
    match item {
        Operand::Text(characters) => bytes.extend_from_slice(characters.as_slice())?,
        Operand::Byte(_) => bytes.push((found % 256) as u8)?,
        Operand::Word(_) => {
            bytes.push((found % 256) as u8)?;
            bytes.push((found / 256) as u8)?;
        }
        Operand::Restart(_) => bytes.push((found % 256) as u8)?,
    }
    Ok(())
}

/// Puts the bytes of items with these values into the list, in place of what it held.
fn put_items(bytes: &mut Vec<u8>, items: &[Operand], values: &[u16]) -> Result<(), Memory>
    requires { length values.now ≡ length items.now }
    ensures { OnOk result (bytes.new.items ≡ items_bytes items.now values.now) }
{
    bytes.clear();
    for (i, item) in items.iter().enumerate() {
        push_item(bytes, item, values[i])?;
    }
    Ok(())
}

/// Puts the bytes of an instruction into the list, in place of what it held.
fn put_instr(alloc: Global, bytes: &mut Vec<u8>, i: Instr) -> Result<(), Memory>
    requires { IsInTable (codes.Instr i) }
    ensures { OnOk result (bytes.new.items ≡ code i) }
{
    bytes.clear();
    bytes.extend_from_slice(encode(alloc, &i).as_slice())?;
    Ok(())
}

/// Puts the bytes of a statement whose operands have these values into the list, in place of what it held.
pub(crate) fn put_bytes(
    alloc: Global,
    bytes: &mut Vec<u8>,
    s: &Statement,
    values: &[u16],
) -> Result<(), Memory>
    requires table { IsInTable s.now.code }
    requires values { length values.now ≡ length s.now.operands }
    ensures { OnOk result (bytes.new.items ≡ bytes_by s.now.code s.now.operands values.now) }
{
    match s.code {
        Code::Instr(i) => put_instr(alloc, bytes, with_value(first(values), i)),
        Code::Data => put_items(bytes, s.operands.as_slice(), values),
        Code::Space | Code::Org | Code::Equ(_) | Code::Set(_) | Code::Nothing | Code::End => {
            bytes.clear();
            Ok(())
        }
    }
}

/// The first of these values, 0 where there is none.
pub(crate) fn first(values: &[u16]) -> u16
    ensures { result ≡ slice_index values.now 0 }
{
    values.first().copied().unwrap_or(0)
}
