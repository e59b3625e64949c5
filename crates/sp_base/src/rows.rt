ghost use Rattle.std.specs.Prelude.{◌≡◌, ◌<◌, ◌≤◌, ◌∷◌, length, drop};
ghost use Rattle.std.specs.Str.Lines.{strip_carriage_return};
ghost use Rattle.sp_base.specs.Lines.{rows_of, row, line_of, size_of};

const LINE_FEED: u8 = b'\n';

const CARRIAGE_RETURN: u8 = b'\r';

/// A part of a text: the bytes before a line feed or before the text's end, and whether a line feed ends them.
#[derive(Clone, Copy, Debug)]
pub struct Row<'a> {
    pub bytes: &'a [u8],
    pub ended: bool,
}

/// The first row of a text that isn't empty. The next one begins `size()` bytes further on:
/// `"A\r\nB"` has the row `A\r`, whose line is `A` and whose size is 3, and then the row `B`.
pub fn first_row(text: &[u8]) -> Row<'_>
    requires { 0 < length text.now }
    ensures rows { rows_of text.now ≡ row result.bytes.now result.ended
        ∷ rows_of (drop (size_of (row result.bytes.now result.ended)) text.now) }
    ensures within { size_of (row result.bytes.now result.ended) ≤ length text.now }
    ensures some { 0 < size_of (row result.bytes.now result.ended) }
{
    for (i, byte) in text.iter().enumerate() {
        if *byte == LINE_FEED {
            let (bytes, _) = text.split_at(i);
            return Row { bytes, ended: true };
        }
    }
    Row {
        bytes: text,
        ended: false,
    }
}

fn without_return(bytes: &[u8]) -> &[u8]
    ensures { result.now ≡ strip_carriage_return bytes.now }
{
    let Some(front) = bytes.len().checked_sub(1) else {
        return bytes;
    };
    if bytes[front] == CARRIAGE_RETURN {
        let (line, _) = bytes.split_at(front);
        line
    } else {
        bytes
    }
}

impl<'a> Row<'a> {
    /// The line: the bytes without the line's end.
    pub fn line(&self) -> &'a [u8]
        ensures { result.now ≡ line_of (row self.now.bytes.now self.now.ended) }
    {
        if self.ended {
            without_return(self.bytes)
        } else {
            self.bytes
        }
    }

    /// How many bytes of the text the row has, its line feed counted.
    pub fn size(&self) -> usize
        ensures { result ≡ size_of (row self.now.bytes.now self.now.ended) }
    {
        self.bytes.len() + usize::from(self.ended)
    }
}
