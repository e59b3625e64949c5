ghost use Rattle.std.specs.Prelude.{◌≡◌, codes};
ghost use Rattle.std.specs.Option.{option_map};
ghost use Rattle.sp_run.specs.Words.{after_prefix, alone, joined};

/// An option of `run`.
#[derive(Clone, Copy, Debug, PartialEq, Eq)]
pub enum OptionName {
    /// `--pc`, the program counter at the start.
    Pc,
    /// `--steps`, the most steps.
    Steps,
    /// `--set`, one setting.
    Set,
}

/// What follows a prefix, if the text begins with it.
fn after_prefix<'a>(prefix: &[u8], text: &'a [u8]) -> Option<&'a [u8]>
    ensures { option_map (λ s. s.now) result ≡ after_prefix prefix.now text.now }
{
    text.strip_prefix(prefix)
}

/// The option that a word names, its value being the next word.
pub fn alone(word: &[u8]) -> Option<OptionName>
    ensures { result ≡ alone word.now }
{
    if word == b"--pc".as_slice() {
        Some(OptionName::Pc)
    } else if word == b"--steps".as_slice() {
        Some(OptionName::Steps)
    } else if word == b"--set".as_slice() {
        Some(OptionName::Set)
    } else {
        None
    }
}

/// The option that a word names, with its value behind `=`.
pub fn joined(word: &[u8]) -> Option<(OptionName, &[u8])>
    ensures { option_map (λ g. (g.0, g.1.now)) result ≡ joined word.now }
{
    if let Some(value) = after_prefix(b"--pc=".as_slice(), word) {
        return Some((OptionName::Pc, value));
    }
    match after_prefix(b"--steps=".as_slice(), word) {
        Some(value) => Some((OptionName::Steps, value)),
        None => None,
    }
}
