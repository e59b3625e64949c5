use sp_base::Loc;

/// A variable of terms. Numbers go from 1.
///
/// | variant | printed | what it stands for | range |
/// |---|---|---|---|
/// | `Entry(x)` | `a~` | what a register or flag had at the routine's entry | 0 to 255, a flag 0 to 1 |
/// | `Now(x)` | `a` | what it had at the walk's start | the same |
/// | `After(x, j)` | `a_j` | what it had after the j-th taken call | the same |
/// | `MemEntry`, `Mem`, `MemAfter(j)` | `mem~`, `mem`, `mem_j` | memory at these times | bytes, 0 in the stack region |
/// | `In(j)` | `in_j` | the byte that the j-th IN took | 0 to 255 |
/// | `SlotHigh(j)`, `SlotLow(j)` | `stkjh`, `stkjl` | the bytes of the j-th word on the stack | 0 to 255 |
/// | `Any(j)` | `k_j` | a number that a proof step fixes | any |
/// | `Bound(j)` | `i1` and its like | the number of a quantifier | any |
#[derive(Clone, Copy, Debug, PartialEq, Eq, Hash)]
pub enum Var {
    Entry(Loc),
    Now(Loc),
    After(Loc, u32),
    MemEntry,
    Mem,
    MemAfter(u32),
    In(u32),
    SlotHigh(u32),
    SlotLow(u32),
    Any(u32),
    Bound(u32),
}
