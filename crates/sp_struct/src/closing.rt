ghost use Rattle.std.specs.Prelude.{◌≡◌, ◌<◌, ◌||◌, ◌&&◌, ℕ, OnOk, length};
ghost use Rattle.sp_struct.specs.code.Ways.{leads, way_through, AreRows};
ghost use Rattle.sp_struct.specs.code.Bits.{has};

use crate::sets::BitSet;
use std::alloc::AllocError;

/// Joins a row with that of a place, `through`, if the row has this place.
fn join_row(row: &mut BitSet, place: usize, through: &BitSet)
    requires { length row.old ≡ length through.now }
    ensures size { length row.new ≡ length row.old }
    ensures has { (j : ℕ) → has row.new j ≡ (has row.old j || (has row.old place && has through.now j)) }
{
    if row.has(place) {
        row.join(through);
    }
}

/// Lets the ways pass through one place more: each row that has this place gets what the place's own row has.
fn pass(rows: &mut Vec<BitSet>, place: usize) -> Result<(), AllocError>
    requires place { place < length rows.old.items }
    requires rows { (words : ℕ) × AreRows words rows.old.items }
    ensures size { OnOk result (length rows.new.items ≡ length rows.old.items) }
    ensures rows { OnOk result ((words : ℕ) → AreRows words rows.old.items → AreRows words rows.new.items) }
    ensures ways { OnOk result ((i j : ℕ) → i < length rows.old.items →
        leads rows.new.items i j ≡ (leads rows.old.items i j || (leads rows.old.items i place && leads rows.old.items place j))) }
{
    let through = rows[place].copy()?;
    'rows: for at in 0..rows.len() {
        join_row(&mut rows[at], place, &through);
    }
    Ok(())
}

/// Puts into each row the places to which one step or more lead. Before, a row has the places one step away: with steps
/// from 0 to 1 and from 1 to 2, row 0 has 1 before, and 1 and 2 afterwards. The ways pass through one place after another
/// (Warshall's algorithm), so 1,024 rows take about a million tests.
pub fn close(rows: &mut Vec<BitSet>) -> Result<(), AllocError>
    requires rows { (words : ℕ) × AreRows words rows.old.items }
    ensures size { OnOk result (length rows.new.items ≡ length rows.old.items) }
    ensures ways { OnOk result ((i j : ℕ) → i < length rows.old.items →
        leads rows.new.items i j ≡ way_through (leads rows.old.items) (length rows.old.items) i j) }
{
    'places: for place in 0..rows.len() {
        pass(rows, place)?;
    }
    Ok(())
}
