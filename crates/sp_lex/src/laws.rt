ghost use Rattle.std.specs.Prelude.{◌≡◌, ◌⊎◌, ◌≤◌, ◌<◌, ℕ, List, [], ◌∷◌, ◌++◌, Some, None, codes, replicate};
ghost use Rattle.sp_lex.specs.declared.refusal.TextKind.{TextKind};
ghost use Rattle.sp_lex.specs.declared.refusal.TextKind.TheVariants.{LongLine, BadByte, OpenQuote, BadNumber};
ghost use Rattle.sp_lex.specs.declared.token.TokenKind.TheVariants.{Name, Number, Text, Symbol};
ghost use Rattle.sp_lex.specs.declared.token.Token.{Token};
ghost use Rattle.sp_lex.specs.declared.token.SourceLine.{SourceLine};
ghost use Rattle.sp_lex.specs.Examples.{token, empty, statement, annotation};
ghost use Rattle.sp_lex.specs.Numbers.{number_of};
ghost use Rattle.sp_lex.specs.Readers.{items_of, AreItems};
ghost use Rattle.sp_lex.specs.Reading.{IsSound, IsFaultOf, AreLines, IsFaultAt, HaveTokensOf};
ghost use Rattle.sp_lex.specs.Texts.{text_of, characters_of};

/// A source has lines or a fault: one list of lines or one fault, and not both.
pub fn a_source_has_one_reading()
    ensures reading { (source : List ℕ)
        → ((lines : List SourceLine) × AreLines source lines)
        ⊎ ((line : ℕ) × (kind : TextKind) × IsFaultAt source line kind) }
    ensures lines { (source : List ℕ) (one other : List SourceLine)
        → AreLines source one → AreLines source other → one ≡ other }
    ensures fault { (source : List ℕ) (line there : ℕ) (kind other : TextKind)
        → IsFaultAt source line kind → IsFaultAt source there other → (line ≡ there) × (kind ≡ other) }
    ensures apart { (source : List ℕ) (lines : List SourceLine) (line : ℕ) (kind : TextKind)
        → AreLines source lines → ¬ IsFaultAt source line kind }
{}

/// Each token of a source's lines is its slice of the source.
pub fn tokens_are_slices_of_their_source()
    ensures { (source : List ℕ) (lines : List SourceLine) → AreLines source lines → HaveTokensOf source lines }
{}

/// A text stands for the characters that it is written of.
pub fn texts_stand_for_their_characters()
    ensures { (characters : List ℕ) → characters_of (text_of characters) ≡ characters }
{}

/// Commas divide tokens into items in one way.
pub fn commas_divide_items()
    ensures items { (source : List ℕ) (tokens : List Token) → AreItems source tokens (items_of source tokens) }
    ensures one { (source : List ℕ) (tokens : List Token) (one other : List (List Token))
        → AreItems source tokens one → AreItems source tokens other → one ≡ other }
{}

/// A line has at most 4,096 bytes without its end.
pub fn lines_have_at_most_4096_bytes()
    ensures longest { IsSound (replicate 4096 32) }
    ensures too_long { IsFaultOf (replicate 4097 32) LongLine }
{}

/// A name has at most 31 characters, and it ends before the first byte that is none of its.
pub fn names_have_at_most_31_characters()
    ensures longest { AreLines (codes "ABCDEFGHIJKLMNOPQRSTUVWXYZ01234") (statement (token Name 0 31 ∷ []) ∷ []) }
    ensures too_long { IsFaultAt (codes "ABCDEFGHIJKLMNOPQRSTUVWXYZ012345") 1 BadByte }
    ensures signs { AreLines (codes "?@9z @") (statement (token Name 0 4 ∷ token Name 5 6 ∷ []) ∷ []) }
    ensures no_letter { IsFaultAt (codes "_") 1 BadByte }
{}

/// The last letter of a number names its base, in either case; every other character is a digit of it.
pub fn numbers_end_with_their_base()
    ensures hexadecimal { number_of (codes "0BH") ≡ Some 11 }
    ensures binary { number_of (codes "1B") ≡ Some 1 }
    ensures octal { number_of (codes "17O") ≡ Some 15 }
    ensures octal_too { number_of (codes "17Q") ≡ Some 15 }
    ensures decimal { number_of (codes "17D") ≡ Some 17 }
    ensures plain { number_of (codes "17") ≡ Some 17 }
    ensures small_letters { number_of (codes "0ffh") ≡ Some 255 }
    ensures no_binary_digit { number_of (codes "2B") ≡ None }
    ensures no_octal_digit { number_of (codes "8O") ≡ None }
    ensures no_decimal_digit { number_of (codes "1A") ≡ None }
    ensures no_last_letter { number_of (codes "1H0") ≡ None }
    ensures no_number { number_of (codes "H") ≡ None }
{}

/// A number of a statement is at most 65,535, one of an annotation at most 9,223,372,036,854,775,807.
pub fn numbers_have_limits()
    ensures statement { AreLines (codes "65535") (statement (token Number 0 5 ∷ []) ∷ []) }
    ensures past_statement { IsFaultAt (codes "65536") 1 BadNumber }
    ensures annotation { AreLines (codes ";#9223372036854775807") (annotation (token Number 2 21 ∷ []) ∷ []) }
    ensures past_annotation { IsFaultAt (codes ";#9223372036854775808") 1 BadNumber }
{}

/// Bytes past 127 stand in comments alone; byte 127 and control characters other than the tab stand nowhere.
pub fn bytes_past_127_stand_in_comments()
    ensures accented { AreLines (59 ∷ 195 ∷ 169 ∷ []) (empty ∷ []) }
    ensures outside { IsFaultAt (195 ∷ 169 ∷ []) 1 BadByte }
    ensures quoted { IsFaultAt (39 ∷ 195 ∷ 39 ∷ []) 1 BadByte }
    ensures delete { IsFaultAt (59 ∷ 127 ∷ []) 1 BadByte }
    ensures control { IsFaultAt (59 ∷ 31 ∷ []) 1 BadByte }
    ensures tab { AreLines (59 ∷ 9 ∷ []) (empty ∷ []) }
    ensures quoted_tab { AreLines (39 ∷ 9 ∷ 39 ∷ []) (statement (token Text 0 3 ∷ []) ∷ []) }
    ensures quoted_control { IsFaultAt (39 ∷ 31 ∷ 39 ∷ []) 1 BadByte }
{}

/// A token is the longest that stands at its place.
pub fn tokens_are_the_longest()
    ensures three { AreLines (codes ";#<->") (annotation (token Symbol 2 5 ∷ []) ∷ []) }
    ensures two { AreLines (codes ";#<=>") (annotation (token Symbol 2 4 ∷ token Symbol 4 5 ∷ []) ∷ []) }
    ensures one { AreLines (codes ";#<-") (annotation (token Symbol 2 3 ∷ token Symbol 3 4 ∷ []) ∷ []) }
    ensures third_dot { IsFaultAt (codes ";#...") 1 BadByte }
    ensures arrow { AreLines (codes ";#->1") (annotation (token Symbol 2 4 ∷ token Number 4 5 ∷ []) ∷ []) }
    ensures plain { AreLines (codes "+-") (statement (token Symbol 0 1 ∷ token Symbol 1 2 ∷ []) ∷ []) }
    ensures no_statement { IsFaultAt (codes "<=") 1 BadByte }
    ensures name { AreLines (codes "A1B 1") (statement (token Name 0 3 ∷ token Number 4 5 ∷ []) ∷ []) }
{}

/// A text ends at the first quote that is not written twice.
pub fn texts_end_at_a_lone_quote()
    ensures no_character { AreLines (codes "''") (statement (token Text 0 2 ∷ []) ∷ []) }
    ensures quote { AreLines (codes "''''") (statement (token Text 0 4 ∷ []) ∷ []) }
    ensures inner { AreLines (codes "'it''s'") (statement (token Text 0 7 ∷ []) ∷ []) }
    ensures two { AreLines (codes "'a','b'") (statement (token Text 0 3 ∷ token Symbol 3 4 ∷ token Text 4 7 ∷ []) ∷ []) }
    ensures three_quotes { IsFaultAt (codes "'''") 1 OpenQuote }
    ensures one_quote { IsFaultAt (codes "'ab") 1 OpenQuote }
    ensures semicolon { AreLines (codes "';'") (statement (token Text 0 3 ∷ []) ∷ []) }
    ensures open_semicolon { IsFaultAt (codes "';") 1 OpenQuote }
    ensures comment { AreLines (codes "; 'a") (empty ∷ []) }
{}

/// A line is an annotation exactly where its first bytes after blanks are `;#`.
pub fn annotation_lines_begin_with_a_mark()
    ensures first { AreLines (codes ";#A") (annotation (token Name 2 3 ∷ []) ∷ []) }
    ensures after_blanks { AreLines (32 ∷ 9 ∷ codes ";#A") (annotation (token Name 4 5 ∷ []) ∷ []) }
    ensures apart { AreLines (codes "; #A") (empty ∷ []) }
    ensures after_token { AreLines (codes "A;#B") (statement (token Name 0 1 ∷ []) ∷ []) }
    ensures comment { AreLines (codes ";#A;#B") (annotation (token Name 2 3 ∷ []) ∷ []) }
    ensures alone { AreLines (codes ";#") (annotation [] ∷ []) }
{}

/// A source ends with the line whose first token is the word END.
pub fn an_end_line_is_the_last()
    ensures last { AreLines (codes "end" ++ 10 ∷ codes "'") (statement (token Name 0 3 ∷ []) ∷ []) }
    ensures colon { AreLines (codes " END:" ++ 10 ∷ codes "'") (statement (token Name 1 4 ∷ token Symbol 4 5 ∷ []) ∷ []) }
    ensures second_token { IsFaultAt (codes "A END" ++ 10 ∷ codes "'") 2 OpenQuote }
    ensures annotation { IsFaultAt (codes ";#END" ++ 10 ∷ codes "'") 2 OpenQuote }
    ensures longer_word { IsFaultAt (codes "ENDS" ++ 10 ∷ codes "'") 2 OpenQuote }
{}

/// Of several faults the lowest line counts, and on it the first kind, wherever it stands.
pub fn the_first_fault_of_the_lowest_line_counts()
    ensures byte { IsFaultAt (codes "2B '" ++ 1 ∷ []) 1 BadByte }
    ensures quote { IsFaultAt (codes "2B '") 1 OpenQuote }
    ensures number { IsFaultAt (codes "2B") 1 BadNumber }
    ensures lowest { IsFaultAt (codes "2B" ++ 10 ∷ codes "'") 1 BadNumber }
    ensures second { IsFaultAt (codes "2" ++ 10 ∷ codes "'") 2 OpenQuote }
{}

/// LF or CR and LF end a line, a lone CR ends none, and what stands after the last end is a line if it has a byte.
pub fn line_feeds_end_lines()
    ensures ends { AreLines (codes "A" ++ 13 ∷ 10 ∷ 10 ∷ codes "B") (statement (token Name 0 1 ∷ []) ∷ empty ∷ statement (token Name 4 5 ∷ []) ∷ []) }
    ensures no_more { AreLines (codes "A" ++ 10 ∷ []) (statement (token Name 0 1 ∷ []) ∷ []) }
    ensures lone_return { IsFaultAt (codes "A" ++ 13 ∷ []) 1 BadByte }
    ensures nothing { AreLines [] [] }
{}
