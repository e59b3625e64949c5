ghost use Rattle.std.specs.Prelude.{◌≡◌, ◌≤◌, ◌↔◌, length, IsSome, IfSome};
ghost use Rattle.sp_lex.specs.Names.{folded};
ghost use Rattle.sp_lex.specs.code.Lines.{is_end_word};

use sp_base::Name;

/// The name that a text stands for, folded to upper case, if it has at most 31 bytes.
pub fn name(text: &[u8]) -> Option<Name>
    ensures short { IsSome result ↔ (length text.now ≤ 31) }
    ensures value { IfSome result (λ name. name ≡ folded text.now) }
{
    if text.len() > Name::MAX {
        return None;
    }
    let mut bytes = [0; Name::MAX];
    for (i, byte) in text.iter().enumerate() {
        bytes[i] = byte.to_ascii_uppercase();
    }
    Name::new(&bytes[..text.len()])
}

/// Whether a word is END.
pub(crate) fn is_end_word(word: &[u8]) -> bool
    ensures { result ≡ is_end_word word.now }
{
    match word {
        [e, n, d] => {
            e.to_ascii_uppercase() == b'E'
                && n.to_ascii_uppercase() == b'N'
                && d.to_ascii_uppercase() == b'D'
        }
        _ => false,
    }
}
