use sp_base::Refused;

/// How a text breaks the rules on HEX. Of one line the first of this order counts; `NoEnd` comes after all lines.
#[derive(Clone, Copy, Debug, PartialEq, Eq)]
pub enum HexKind {
    /// The line hasn't the form of a record: colon, length, address, type 00 or 01, data up to FFFFH, checksum.
    BadRecord,
    /// The bytes of the record don't sum to 0 modulo 256.
    BadSum,
    /// A byte of the record has an address that an earlier record gave.
    Overlap,
    /// The line stands after the end record and isn't empty.
    AfterEnd,
    /// The text has no end record. Its line is 0, for the whole text.
    NoEnd,
}

/// Why a text stands for no image: its lowest line that is wrong, with the first thing that is wrong there.
pub type HexRefusal = Refused<HexKind>;
