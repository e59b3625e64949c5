/// What a routine's annotations are read in: the first and the last cell of the stack region, and the base of the
/// routine's stack, which is SP at its entry, or the address after the last cell for a start routine.
#[derive(Clone, Copy, Debug, PartialEq, Eq)]
pub struct Frame {
    pub first: u16,
    pub last: u16,
    pub base: u32,
}
