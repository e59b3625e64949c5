//! Lines of a text and words of a line, taken from the front.
ghost use Rattle.std.specs.Prelude.{◌≡◌, ◌≢◌, [], ◌∷◌, MatchOption, IsTrue, ◌↔◌, ◌<◌, ◌≤◌, length, take, drop, map};
ghost use Rattle.std.specs.Option.{option_map};
ghost use Rattle.sp_first.specs.Words.{is_blank as blank_byte, is_mark as mark_byte, lines, words, BeginsWithWord};
ghost use Rattle.sp_first.specs.Reading.{word, at_end, first_line};

fn is_blank(byte: u8) -> bool
    ensures { result ≡ blank_byte byte }
{
    byte == b' ' || byte == b'\t'
}

fn is_mark(byte: u8) -> bool
    ensures { result ≡ mark_byte byte }
{
    byte == b',' || byte == b'='
}

/// The first line without its end, and the bytes after its end; None where there are no bytes.
pub fn next_line(bytes: &[u8]) -> Option<(&[u8], &[u8])>
    ensures lines { MatchOption result (lines bytes.now ≡ []) (λ p. lines bytes.now ≡ p.0.now ∷ lines p.1.now) }
    ensures first { option_map (λ p. (words p.0.now, map words (lines p.1.now))) result ≡ first_line (map words (lines bytes.now)) }
{
    split_line(bytes)
}

fn split_line(bytes: &[u8]) -> Option<(&[u8], &[u8])>
    ensures { MatchOption result (lines bytes.now ≡ []) (λ p. lines bytes.now ≡ p.0.now ∷ lines p.1.now) }
{
    if bytes.is_empty() {
        return None;
    }
    let mut n = 0;
    while n < bytes.len() && bytes[n] != b'\n' {
        n += 1;
    }
    if n < bytes.len() {
        Some((&bytes[..n], &bytes[n + 1..]))
    } else {
        Some((bytes, &bytes[n..]))
    }
}

/// The line without the blanks at its front.
fn skip_blanks(line: &[u8]) -> &[u8]
    ensures same { words result.now ≡ words line.now }
    ensures first { BeginsWithWord result.now }
{
    let mut rest = line;
    while let [byte, tail @ ..] = rest {
        if !is_blank(*byte) {
            break;
        }
        rest = tail;
    }
    rest
}

/// How many bytes the word has with which the line begins.
fn word_len(line: &[u8]) -> usize
    requires some { 0 < length line.now }
    requires first { BeginsWithWord line.now }
    ensures within { result ≤ length line.now }
    ensures word { words line.now ≡ take result line.now ∷ words (drop result line.now) }
{
    if is_mark(line[0]) {
        return 1;
    }
    let mut n = 1;
    while n < line.len() && line[n - 1] != b':' && !is_blank(line[n]) && !is_mark(line[n]) {
        n += 1;
    }
    n
}

/// The first word and what is left of the line; None where no word is left.
pub fn next_word(line: &[u8]) -> Option<(&[u8], &[u8])>
    ensures { option_map (λ p. (p.0.now, words p.1.now)) result ≡ word (words line.now) }
{
    let line = skip_blanks(line);
    if line.is_empty() {
        return None;
    }
    let n = word_len(line);
    Some(line.split_at(n))
}

/// Whether no word is left of the line.
pub fn is_at_end(line: &[u8]) -> bool
    ensures { result ≡ at_end (words line.now) }
{
    next_word(line).is_none()
}
