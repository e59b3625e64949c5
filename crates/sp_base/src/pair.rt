/// A register pair, or the stack pointer (8080 manual, "Register pairs").
#[derive(Clone, Copy, Debug, PartialEq, Eq, PartialOrd, Ord, Hash)]
pub enum Pair {
    /// B and C.
    B,
    /// D and E.
    D,
    /// H and L.
    H,
    /// The stack pointer.
    Sp,
}
