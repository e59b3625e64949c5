//! Reads notes from their printed form, for tables of tests.
use sp_base::{Loc, Name};
use sp_logic::{
    Comparison, Connective, Moment, Note, Operator, Quantifier, Quantity, RegisterPair,
};
use std::alloc::Global;

/// A part of a note, and the text after it. None where the text is another, or memory runs out.
type Read<'a, T> = Option<(T, &'a [u8])>;

static CELLS: [(&str, Moment); 2] = [("mem[", Moment::Now), ("mem~[", Moment::AtEntry)];

static TOTALS: [(&str, Moment); 2] = [("total(", Moment::Now), ("total~(", Moment::AtEntry)];

static BITS: [(&str, Operator); 3] = [
    ("band(", Operator::BitAnd),
    ("bor(", Operator::BitOr),
    ("bxor(", Operator::BitXor),
];

static SIGNS: [(&str, Operator); 5] = [
    (" + ", Operator::Add),
    (" - ", Operator::Subtract),
    (" * ", Operator::Multiply),
    (" div ", Operator::Divide),
    (" mod ", Operator::Modulo),
];

static COMPARISONS: [(&str, Comparison); 6] = [
    (" = ", Comparison::Equal),
    (" <> ", Comparison::Unequal),
    (" < ", Comparison::Less),
    (" <= ", Comparison::LessOrEqual),
    (" > ", Comparison::Greater),
    (" >= ", Comparison::GreaterOrEqual),
];

static CONNECTIVES: [(&str, Connective); 4] = [
    (" and ", Connective::And),
    (" or ", Connective::Or),
    (" -> ", Connective::Implies),
    (" <-> ", Connective::Iff),
];

fn boxed<T: Drop>(alloc: Global, value: T) -> Option<Box<T>> {
    Box::new(alloc, value).ok()
}

fn is_name_byte(byte: u8) -> bool {
    byte.is_ascii_uppercase() || byte.is_ascii_digit() || byte == b'@' || byte == b'?'
}

/// The letters and digits at the beginning of a text.
fn word(text: &[u8]) -> (&[u8], &[u8]) {
    let mut end = 0;
    while end < text.len() && is_name_byte(text[end]) {
        end += 1;
    }
    text.split_at(end)
}

/// The number that decimal digits stand for.
fn decimal(digits: &[u8]) -> Option<u64> {
    if digits.is_empty() {
        return None;
    }
    let mut value = 0u64;
    for digit in digits {
        if !digit.is_ascii_digit() {
            return None;
        }
        value = value
            .checked_mul(10)?
            .checked_add(u64::from(*digit - b'0'))?;
    }
    Some(value)
}

fn location(name: &[u8]) -> Option<Loc> {
    match name {
        b"A" => Some(Loc::A),
        b"B" => Some(Loc::B),
        b"C" => Some(Loc::C),
        b"D" => Some(Loc::D),
        b"E" => Some(Loc::E),
        b"H" => Some(Loc::H),
        b"L" => Some(Loc::L),
        b"S" => Some(Loc::S),
        b"Z" => Some(Loc::Z),
        b"AC" => Some(Loc::Ac),
        b"P" => Some(Loc::P),
        b"CY" => Some(Loc::Cy),
        _ => None,
    }
}

fn pair(name: &[u8]) -> Option<RegisterPair> {
    match name {
        b"BC" => Some(RegisterPair::Bc),
        b"DE" => Some(RegisterPair::De),
        b"HL" => Some(RegisterPair::Hl),
        _ => None,
    }
}

/// A number, a register, a flag, a pair, a word of the stack or a bound name.
fn primary(text: &[u8]) -> Read<'_, Quantity> {
    let (name, rest) = word(text);
    if name.is_empty() {
        return None;
    }
    if let Some(value) = decimal(name) {
        return Some((Quantity::Literal(value), rest));
    }
    if let Some(k) = name.strip_prefix(b"STK".as_slice()) {
        let k = u16::try_from(decimal(k)?).ok()?;
        return Some((Quantity::StackWord(k), rest));
    }
    let (moment, rest) = match rest.strip_prefix(b"~".as_slice()) {
        Some(after) => (Moment::AtEntry, after),
        None => (Moment::Now, rest),
    };
    if let Some(location) = location(name) {
        return Some((Quantity::Location(moment, location), rest));
    }
    if let Some(pair) = pair(name) {
        return Some((Quantity::Pair(moment, pair), rest));
    }
    Some((Quantity::Bound(Name::new(name)?), rest))
}

/// Two quantities with a separator between them and a parenthesis after them.
#[cycle(quantities)]
fn two<'a>(
    alloc: Global,
    text: &'a [u8],
    separator: &[u8],
    depth: u32,
) -> Read<'a, (Box<Quantity>, Box<Quantity>)> {
    if depth == 0 {
        return None;
    }
    let (x, rest) = quantity(alloc, text, depth - 1)?;
    let (y, rest) = quantity(alloc, rest.strip_prefix(separator)?, depth - 1)?;
    let rest = rest.strip_prefix(b")".as_slice())?;
    Some(((boxed(alloc, x)?, boxed(alloc, y)?), rest))
}

/// A quantity that begins with the name of a function or of memory.
#[cycle(quantities)]
fn function(alloc: Global, text: &[u8], depth: u32) -> Read<'_, Quantity> {
    if depth == 0 {
        return None;
    }
    if let Some(rest) = text.strip_prefix(b"par(".as_slice()) {
        let (x, rest) = quantity(alloc, rest, depth - 1)?;
        let rest = rest.strip_prefix(b")".as_slice())?;
        return Some((Quantity::Parity(boxed(alloc, x)?), rest));
    }
    for (name, moment) in &CELLS {
        if let Some(rest) = text.strip_prefix(name.as_bytes()) {
            let (x, rest) = quantity(alloc, rest, depth - 1)?;
            let rest = rest.strip_prefix(b"]".as_slice())?;
            return Some((Quantity::Cell(*moment, boxed(alloc, x)?), rest));
        }
    }
    for (name, moment) in &TOTALS {
        if let Some(rest) = text.strip_prefix(name.as_bytes()) {
            let ((x, y), rest) = two(alloc, rest, b", ", depth - 1)?;
            return Some((Quantity::Total(*moment, x, y), rest));
        }
    }
    for (name, operator) in &BITS {
        if let Some(rest) = text.strip_prefix(name.as_bytes()) {
            let ((x, y), rest) = two(alloc, rest, b", ", depth - 1)?;
            return Some((Quantity::Operate(*operator, x, y), rest));
        }
    }
    None
}

/// A quantity.
#[cycle(quantities)]
fn quantity(alloc: Global, text: &[u8], depth: u32) -> Read<'_, Quantity> {
    if depth == 0 {
        return None;
    }
    if let Some(rest) = text.strip_prefix(b"(-".as_slice()) {
        let (x, rest) = quantity(alloc, rest, depth - 1)?;
        let rest = rest.strip_prefix(b")".as_slice())?;
        return Some((Quantity::Negative(boxed(alloc, x)?), rest));
    }
    if let Some(rest) = text.strip_prefix(b"(".as_slice()) {
        let (x, rest) = quantity(alloc, rest, depth - 1)?;
        for (sign, operator) in &SIGNS {
            if let Some(rest) = rest.strip_prefix(sign.as_bytes()) {
                let (y, rest) = quantity(alloc, rest, depth - 1)?;
                let rest = rest.strip_prefix(b")".as_slice())?;
                let whole = Quantity::Operate(*operator, boxed(alloc, x)?, boxed(alloc, y)?);
                return Some((whole, rest));
            }
        }
        return None;
    }
    match function(alloc, text, depth - 1) {
        Some(read) => Some(read),
        None => primary(text),
    }
}

/// A comparison in parentheses, past the first of them.
fn comparison(alloc: Global, text: &[u8], depth: u32) -> Read<'_, Note> {
    let (x, rest) = quantity(alloc, text, depth)?;
    for (sign, comparison) in &COMPARISONS {
        if let Some(rest) = rest.strip_prefix(sign.as_bytes()) {
            let (y, rest) = quantity(alloc, rest, depth)?;
            let rest = rest.strip_prefix(b")".as_slice())?;
            return Some((Note::Compare(*comparison, x, y), rest));
        }
    }
    None
}

/// A quantified note, past its first words.
#[cycle(notes)]
fn quantified(alloc: Global, quantifier: Quantifier, text: &[u8], depth: u32) -> Read<'_, Note> {
    if depth == 0 {
        return None;
    }
    let (name, rest) = word(text);
    let name = Name::new(name)?;
    let (x, rest) = quantity(alloc, rest.strip_prefix(b" in ".as_slice())?, depth)?;
    let (y, rest) = quantity(alloc, rest.strip_prefix(b"..".as_slice())?, depth)?;
    let (p, rest) = note(alloc, rest.strip_prefix(b": ".as_slice())?, depth - 1)?;
    let rest = rest.strip_prefix(b")".as_slice())?;
    Some((
        Note::Quantify(quantifier, name, x, y, boxed(alloc, p)?),
        rest,
    ))
}

/// A note.
#[cycle(notes)]
fn note(alloc: Global, text: &[u8], depth: u32) -> Read<'_, Note> {
    if depth == 0 {
        return None;
    }
    if let Some(rest) = text.strip_prefix(b"true".as_slice()) {
        return Some((Note::Constant(true), rest));
    }
    if let Some(rest) = text.strip_prefix(b"false".as_slice()) {
        return Some((Note::Constant(false), rest));
    }
    if let Some(rest) = text.strip_prefix(b"(not ".as_slice()) {
        let (p, rest) = note(alloc, rest, depth - 1)?;
        let rest = rest.strip_prefix(b")".as_slice())?;
        return Some((Note::Not(boxed(alloc, p)?), rest));
    }
    if let Some(rest) = text.strip_prefix(b"(for all ".as_slice()) {
        return quantified(alloc, Quantifier::ForAll, rest, depth - 1);
    }
    if let Some(rest) = text.strip_prefix(b"(for some ".as_slice()) {
        return quantified(alloc, Quantifier::ForSome, rest, depth - 1);
    }
    let text = text.strip_prefix(b"(".as_slice())?;
    if let Some(read) = comparison(alloc, text, depth) {
        return Some(read);
    }
    let (p, rest) = note(alloc, text, depth - 1)?;
    for (sign, connective) in &CONNECTIVES {
        if let Some(rest) = rest.strip_prefix(sign.as_bytes()) {
            let (q, rest) = note(alloc, rest, depth - 1)?;
            let rest = rest.strip_prefix(b")".as_slice())?;
            let whole = Note::Connect(*connective, boxed(alloc, p)?, boxed(alloc, q)?);
            return Some((whole, rest));
        }
    }
    None
}

/// The note of a whole text.
pub fn read(alloc: Global, text: &[u8]) -> Option<Note> {
    let (note, rest) = note(alloc, text, 2_000)?;
    if rest.is_empty() { Some(note) } else { None }
}
