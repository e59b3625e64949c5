ghost use Rattle.std.specs.Prelude.{◌≡◌, ◌<◌, ◌≤◌, ◌+◌, ◌++◌, ◌∷◌, ◌==◌, ◌&&◌, ℕ, List, nat_lt, length, vec_len, IfOk, OnOk};
ghost use Rattle.std.specs.List.{flat_map};
ghost use Rattle.sp_hex.specs.Hex.{digit, two_digits, checksum_of, written_record, text, StandsFor};
ghost use Rattle.sp_hex.specs.code.Rows.{data_text, records_with};

use crate::record::{DATA, END, low_sum};
use sp_base::{Image, Memory};
use std::alloc::Global;

/// The most bytes that a record is written with.
const ROW: usize = 16;

fn digit(value: u8) -> u8
    requires { value < 16 }
    ensures { result ≡ digit value }
{
    if value < 10 {
        b'0' + value
    } else {
        b'A' - 10 + value
    }
}

/// A byte as two hexadecimal digits, in upper case.
pub fn two_digits(byte: u8) -> [u8; 2]
    ensures { result ≡ two_digits byte }
{
    [digit(byte / 16), digit(byte % 16)]
}

fn put_bytes(out: &mut Vec<u8>, bytes: &[u8]) -> Result<(), Memory>
    ensures { OnOk result (out.new.items ≡ out.old.items ++ flat_map two_digits bytes.now) }
{
    for byte in bytes {
        out.extend_from_slice(&two_digits(*byte))?;
    }
    Ok(())
}

/// The byte that makes the sum of a record's bytes 0 modulo 256, from the record's two parts.
fn checksum(header: &[u8], bytes: &[u8]) -> u8
    ensures { result ≡ checksum_of (header.now ++ bytes.now) }
{
    0u8.wrapping_sub(low_sum(header).wrapping_add(low_sum(bytes)))
}

fn put_record(out: &mut Vec<u8>, kind: u8, address: u16, bytes: &[u8]) -> Result<(), Memory>
    requires { length bytes.now < 256 }
    ensures { OnOk result (out.new.items ≡ out.old.items ++ written_record kind address bytes.now) }
{
    let header = [
        bytes.len() as u8,
        (address / 256) as u8,
        (address % 256) as u8,
        kind,
    ];
    out.push(b':')?;
    put_bytes(out, &header)?;
    put_bytes(out, bytes)?;
    put_bytes(out, &[checksum(&header, bytes)])?;
    out.push(b'\n')?;
    Ok(())
}

/// Whether the byte at `a` joins a record: it stands right after its bytes, which are fewer than 16.
fn joins(address: u16, row: &[u8], a: u16) -> bool
    requires { length row.now ≤ 16 }
    ensures { result ≡ ((a == address + length row.now) && nat_lt (length row.now) 16) }
{
    u32::from(a) == u32::from(address) + row.len() as u32 && row.len() < ROW
}

/// Takes the next byte into the record of `row`, which begins at `address`, or writes that record and begins another.
/// It answers where the record then begins.
fn take(out: &mut Vec<u8>, row: &mut Vec<u8>, address: u16, a: u16, byte: u8) -> Result<u16, Memory>
    requires { vec_len row.old ≤ 16 }
    ensures text { IfOk result (λ first. (cells : List (ℕ × ℕ)) → out.new.items ++ data_text (records_with first row.new.items cells)
        ≡ out.old.items ++ data_text (records_with address row.old.items ((a, byte) ∷ cells))) }
    ensures few { OnOk result (vec_len row.new ≤ 16) }
{
    if row.is_empty() {
        row.push(byte)?;
        return Ok(a);
    }
    if joins(address, row, a) {
        row.push(byte)?;
        return Ok(address);
    }
    put_record(out, DATA, address, row)?;
    row.clear();
    row.push(byte)?;
    Ok(a)
}

/// The text of an image: data records by rising address, of 16 bytes where the run of bytes goes on, and the
/// end record. Digits are upper case, and each line ends in LF.
pub fn write(alloc: Global, image: &Image) -> Result<Vec<u8>, Memory>
    ensures text { IfOk result (λ v. v.items ≡ text image.now) }
    ensures stands { IfOk result (λ v. StandsFor v.items image.now) }
{
    let mut out = Vec::new(alloc);
    let mut row = Vec::with_capacity(alloc, ROW)?;
    let mut address = 0;
    for (a, byte) in image.cells() {
        address = take(&mut out, &mut row, address, *a, *byte)?;
    }
    if !row.is_empty() {
        put_record(&mut out, DATA, address, &row)?;
    }
    put_record(&mut out, END, 0, &[])?;
    Ok(out)
}
