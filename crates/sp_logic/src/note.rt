use sp_base::{Loc, Name};

/// Which state a name is looked up in: the present one, or with `~` the one at the routine's entry.
#[derive(Clone, Copy, Debug, PartialEq, Eq)]
pub enum Moment {
    Now,
    AtEntry,
}

/// A register pair that annotations name (8080 manual, "Register pairs").
#[derive(Clone, Copy, Debug, PartialEq, Eq)]
pub enum RegisterPair {
    Bc,
    De,
    Hl,
}

/// `+`, `-`, `*`, `div`, `mod`, `band`, `bor` and `bxor`. Division rounds down and is 0 by 0; the last three take their
/// arguments modulo 256.
#[derive(Clone, Copy, Debug, PartialEq, Eq)]
pub enum Operator {
    Add,
    Subtract,
    Multiply,
    Divide,
    Modulo,
    BitAnd,
    BitOr,
    BitXor,
}

/// `=`, `<>`, `<`, `<=`, `>` and `>=`.
#[derive(Clone, Copy, Debug, PartialEq, Eq)]
pub enum Comparison {
    Equal,
    Unequal,
    Less,
    LessOrEqual,
    Greater,
    GreaterOrEqual,
}

/// `and`, `or`, `->` and `<->`.
#[derive(Clone, Copy, Debug, PartialEq, Eq)]
pub enum Connective {
    And,
    Or,
    Implies,
    Iff,
}

/// `for all` and `for some`.
#[derive(Clone, Copy, Debug, PartialEq, Eq)]
pub enum Quantifier {
    ForAll,
    ForSome,
}

/// What stands in an annotation for a whole number.
#[derive(Debug, Drop)]
pub enum Quantity {
    /// A number from 0 to 9,223,372,036,854,775,807.
    Literal(u64),
    /// A register or a flag, as `A` or `CY~`.
    Location(Moment, Loc),
    /// A register pair, as `HL` or `BC~`.
    Pair(Moment, RegisterPair),
    /// A cell of memory, as `mem[x]` or `mem~[x]`. It is 0 in the stack region and where x is no address.
    Cell(Moment, Box<Quantity>),
    /// `STKk`, the k-th word below the base of the stack, k from 1 to 32,767.
    StackWord(u16),
    /// The sum of the cells from one address to another, as `total(x, y)` or `total~(x, y)`.
    Total(Moment, Box<Quantity>, Box<Quantity>),
    /// `-x`.
    Negative(Box<Quantity>),
    /// `par(x)`: 1 where x modulo 256 has an even number of ones, and else 0.
    Parity(Box<Quantity>),
    /// Two quantities with an operator, as `x + y` or `band(x, y)`.
    Operate(Operator, Box<Quantity>, Box<Quantity>),
    /// The bound name of a quantifier round it.
    Bound(Name),
}

/// A resolved annotation: what stands in one for a truth value.
#[derive(Debug, Drop)]
pub enum Note {
    /// `true` or `false`.
    Constant(bool),
    /// A comparison, as `x <= y`.
    Compare(Comparison, Quantity, Quantity),
    /// `not p`.
    Not(Box<Note>),
    /// Two notes with a connective, as `p -> q`.
    Connect(Connective, Box<Note>, Box<Note>),
    /// `for all I in x..y: p` or `for some I in x..y: p`. The name is bound in p, and not in the two ends.
    Quantify(Quantifier, Name, Quantity, Quantity, Box<Note>),
}
