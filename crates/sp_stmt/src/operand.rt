use sp_base::Seq;
use sp_expr::Expr;

/// The characters of a text, one or more.
pub type Characters = Seq<u8>;

/// An operand that isn't part of the instruction itself.
#[derive(Debug, Drop)]
pub enum Operand {
    /// A quoted text of DB.
    Text(Characters),
    /// A byte: an item of DB, an immediate byte or a port.
    Byte(Expr),
    /// A word: an item of DW, an immediate word, an address, or the operand of DS, ORG, EQU, SET and END.
    Word(Expr),
    /// The number of RST.
    Restart(Expr),
}

/// The operands of a statement, in order.
pub type Operands = Seq<Operand>;
