ghost use Rattle.std.specs.Prelude.{◌≡◌, ◌%◌, sum};

/// The type of a data record.
pub const DATA: u8 = 0;

/// The type of the end record.
pub const END: u8 = 1;

/// What the bytes of a line hold.
#[derive(Clone, Copy, Debug)]
pub enum Record<'a> {
    Data { address: u16, bytes: &'a [u8] },
    End,
}

/// The sum of the bytes modulo 256.
pub fn low_sum(bytes: &[u8]) -> u8
    ensures { result ≡ sum bytes.now % 256 }
{
    let mut total = 0u8;
    for byte in bytes {
        total = total.wrapping_add(*byte);
    }
    total
}
