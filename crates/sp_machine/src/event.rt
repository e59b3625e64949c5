/// What a step did.
#[derive(Clone, Copy, Debug, PartialEq, Eq)]
pub enum Event {
    /// An instruction ran that is none of the following.
    Plain,
    /// IN took the input, from this port.
    In(u8),
    /// OUT gave this port the byte.
    Out(u8, u8),
    /// The machine was halted, or ran HLT.
    Halted,
    /// The machine isn't halted, and this byte at the program counter begins no instruction.
    Stuck(u8),
}
