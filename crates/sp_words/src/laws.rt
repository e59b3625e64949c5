ghost use Rattle.sp_words.specs.Words.{WordsAreTheManuals, ReservedWordsHaveMeanings, WordsOfAnnotations, WordsByExample};

/// Each table has a meaning exactly under the name that the manual gives it: a mnemonic that of its instructions.
pub fn words_are_the_manuals()
    ensures { WordsAreTheManuals }
{}

/// A word is no name for the assembler exactly where it is a mnemonic, directive, operator, register, M, SP or PSW.
pub fn reserved_words_have_meanings()
    ensures { ReservedWordsHaveMeanings }
{}

/// The words of annotations are those of its grammar, and `STKk` for k from 1 to 32,767 without leading zeros.
pub fn annotations_have_their_words()
    ensures { WordsOfAnnotations }
{}

/// Single words, beside others that differ in one letter or digit or belong to the other grammar alone.
pub fn words_by_example()
    ensures { WordsByExample }
{}
