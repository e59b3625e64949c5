use sp_base::Seq;

/// What a token is.
#[derive(Clone, Copy, Debug, PartialEq, Eq)]
pub enum TokenKind {
    /// A letter, `@` or `?`, and further letters, digits, `@` and `?`; at most 31 in all. Case doesn't count.
    Name,
    /// A digit and the letters and digits after it.
    Number,
    /// Characters in quotes.
    Text,
    /// One of `$ : , + - * / ( )`; on annotation lines also `[ ] ~ = < > <= >= <> -> <-> ..`.
    Symbol,
}

/// A token: the bytes of the source from `start` to before `end`.
#[derive(Clone, Copy, Debug, PartialEq, Eq)]
pub struct Token {
    pub kind: TokenKind,
    pub start: usize,
    pub end: usize,
}

/// The tokens of a line, in order. Contracts see a list.
pub type Tokens = Seq<Token>;

/// What a line is.
#[derive(Clone, Copy, Debug, PartialEq, Eq)]
pub enum LineKind {
    /// No token: blanks, a comment or nothing.
    Empty,
    /// A statement of the assembler.
    Statement,
    /// A line whose first bytes after blanks are `;#`.
    Annotation,
}

/// A line with its tokens; those of an annotation line are the ones after `;#`.
#[derive(Debug, Drop)]
pub struct SourceLine {
    pub kind: LineKind,
    pub tokens: Tokens,
}

/// The lines of a source, from the first on. Contracts see a list.
pub type Lines = Seq<SourceLine>;
