use sp_base::Refused;

/// How a unit breaks a rule on structure. The kinds count in this order over the whole unit, each at its lowest line.
#[derive(Clone, Copy, Debug, PartialEq, Eq)]
pub enum StructKind {
    /// A jump leads to no instruction of the routine.
    JumpOut,
    /// The last instruction goes on.
    FallsOff,
    /// A call calls no routine, or a start routine.
    CallOut,
    /// A call calls a routine from which calls lead back to the caller.
    Recursion,
    /// A jump has its address in HL.
    Computed,
    /// SP is moved, or loaded elsewhere than first in a start routine, or with another word than the base of the stack.
    StackPointer,
    /// No walk from the entry reaches an instruction.
    Unreached,
    /// The depth after an instruction isn't the one that is right.
    Depth(i64, i64),
    /// POP or XTHL takes a return address.
    PopsReturn,
    /// PUSH, a call or a start routine takes more bytes of stack than there are.
    OverDepth,
    /// An assertion names a word that isn't on the stack.
    NoSlot,
    /// An instruction is the highest of a cycle without assertions.
    UncutLoop,
    /// A start routine returns.
    ReturnInStart,
    /// A byte of the image is stored to.
    CodeWritten,
}

/// Why the structure of a unit isn't right: the first rule that is broken, at its lowest line, or want of memory.
pub type StructRefusal = Refused<StructKind>;
