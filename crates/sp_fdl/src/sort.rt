ghost use Rattle.std.specs.Prelude.{◌≡◌};
ghost use Rattle.sp_fdl.specs.code.Reading.{same_sort};

/// The sort of a term: a whole number, a formula, or a memory.
#[derive(Clone, Copy, Debug)]
pub enum Sort {
    Int,
    Formula,
    Memory,
}

/// Whether two sorts are one.
pub(crate) fn same_sort(s: Sort, r: Sort) -> bool
    ensures { result ≡ same_sort s r }
{
    match (s, r) {
        (Sort::Int, Sort::Int) | (Sort::Formula, Sort::Formula) | (Sort::Memory, Sort::Memory) =>
            true,
        _ => false,
    }
}
