use crate::Var;

/// A place of a pool.
#[derive(Clone, Copy, Debug, PartialEq, Eq, Hash)]
pub struct Node(pub usize);

/// A node whose parts stand at places of a pool; the forms are those of `Kind`.
#[derive(Clone, Copy, Debug, PartialEq, Eq, Hash)]
pub enum Shape {
    Literal(i64),
    Truth(bool),
    Variable(Var),
    Add(Node, Node),
    Subtract(Node, Node),
    Multiply(Node, Node),
    Divide(Node, Node),
    Remainder(Node, Node),
    ByteAnd(Node, Node),
    ByteOr(Node, Node),
    ByteXor(Node, Node),
    Parity(Node),
    Bit(u8, Node),
    Psw(Node, Node, Node, Node, Node),
    If(Node, Node, Node),
    Element(Node, Node),
    Update(Node, Node, Node),
    Total(Node, Node, Node),
    Equal(Node, Node),
    Less(Node, Node),
    LessOrEqual(Node, Node),
    Not(Node),
    And(Node, Node),
    Or(Node, Node),
    Implies(Node, Node),
    Iff(Node, Node),
    ForAll(u32, Node, Node, Node),
    ForSome(u32, Node, Node, Node),
}
