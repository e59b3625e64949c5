ghost use Rattle.std.specs.Prelude.{◌≡◌};

/// Where an expression stands.
#[derive(Clone, Copy, Debug, PartialEq, Eq)]
pub enum Setting {
    /// In a statement. `$` is the statement's address.
    Statement,
    /// On an annotation line. There is no `$`, and the words of annotations are no names.
    Annotation,
}

impl Setting {
    ghost use Rattle.sp_expr.specs.code.Sentence.{has_address, is_name};

    /// Whether `$` may stand.
    pub(crate) fn has_address(self) -> bool
        ensures { result ≡ has_address self }
    {
        match self {
            Setting::Statement => true,
            Setting::Annotation => false,
        }
    }

    /// Whether a word that isn't reserved is a name.
    pub(crate) fn is_name(self, word: &[u8]) -> bool
        ensures { result ≡ is_name self word.now }
    {
        match self {
            Setting::Statement => true,
            Setting::Annotation => !sp_words::is_annotation_word(word),
        }
    }
}
