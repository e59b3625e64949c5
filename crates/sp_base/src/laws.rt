//! What holds of whole numbers, of bytes in an image, of lines of texts and of answers alone, as contracts of functions that do nothing.

ghost use Rattle.std.specs.Prelude.{◌≡◌, ◌≢◌, ℕ, ◌<◌, ℤ, pos, negsuc, ◌+ℤ◌, ◌<ℤ◌, ◌≤ℤ◌, ◌↔◌, Bool, IsTrue};
ghost use Rattle.sp_base.specs.Integers.{
  quotient,
  remainder,
  IsDivision,
  low_byte,
  byte_and,
  byte_or,
  byte_xor,
  parity,
  sum_between,
  all_between,
  some_between,
};
ghost use Rattle.std.specs.Prelude.{ℕ, ◌-◌, List, [], ◌∷◌, ◌++◌, Ok, Err, Some, None, map, nat_eq, slice_get};
ghost use Rattle.std.specs.FinMap as maps;
ghost use Rattle.std.specs.List.{IsDistinct};
ghost use Rattle.std.specs.Str.Lines.{lines as text_lines};
ghost use Rattle.sp_base.specs.Cells.{cells_at, placed};
ghost use Rattle.sp_base.specs.Image.{ImageMap};
ghost use Rattle.sp_base.specs.Limits.{addresses, bytes, low, high, word};
ghost use Rattle.sp_base.specs.Lines.{Row, rows_of, AreRowsOf, HasLine, lines};
ghost use Rattle.sp_base.specs.Refused.{Answers, IsComplete, at_line};

/// A quotient and its remainder make the number again, and the remainder lies between 0 and the divisor. By 0 both
/// are 0.
pub fn division_rounds_down()
    ensures whole { (x y : ℤ) → y ≢ pos 0 → IsDivision x y (quotient x y) (remainder x y) }
    ensures by_zero { (x : ℤ) → (quotient x (pos 0) ≡ pos 0) × (remainder x (pos 0) ≡ pos 0) }
    // -7 by 2 is -4 and 1 is left; 7 by -2 is -4 and -1 is left.
    ensures negative { (quotient (negsuc 6) (pos 2) ≡ negsuc 3) × (remainder (negsuc 6) (pos 2) ≡ pos 1) }
    ensures by_negative { (quotient (pos 7) (negsuc 1) ≡ negsuc 3) × (remainder (pos 7) (negsuc 1) ≡ negsuc 0) }
{}

/// The low byte of a number is what is left over of it by 256.
pub fn low_bytes_are_remainders()
    ensures value { (x : ℤ) → remainder x (pos 256) ≡ pos (low_byte x) }
    ensures range { (x : ℤ) → low_byte x < 256 }
    ensures and { (byte_and (pos 268) (pos 10) ≡ pos 8) × (byte_and (negsuc 0) (pos 10) ≡ pos 10) }
    ensures or { (byte_or (pos 268) (pos 10) ≡ pos 14) × (byte_or (negsuc 0) (pos 10) ≡ pos 255) }
    ensures xor { (byte_xor (pos 268) (pos 10) ≡ pos 6) × (byte_xor (negsuc 0) (pos 10) ≡ pos 245) }
    ensures even { (parity (pos 3) ≡ pos 1) × (parity (pos 256) ≡ pos 1) × (parity (negsuc 0) ≡ pos 1) }
    ensures odd { (parity (pos 1) ≡ pos 0) × (parity (pos 263) ≡ pos 0) × (parity (negsuc 1) ≡ pos 0) }
{}

/// A sum over no number is 0, over one number the value there, and over a range in two parts the sum over both.
pub fn sums_add_up()
    ensures none { (f : ℤ → ℤ) (low high : ℤ) → high <ℤ low → sum_between f low high ≡ pos 0 }
    ensures one { (f : ℤ → ℤ) (z : ℤ) → sum_between f z z ≡ f z }
    ensures parts { (f : ℤ → ℤ) (low mid high : ℤ) → low ≤ℤ (mid +ℤ pos 1) → mid ≤ℤ high →
        sum_between f low high ≡ sum_between f low mid +ℤ sum_between f (mid +ℤ pos 1) high }
{}

/// A test of a range passes at each of its numbers, or at one of them.
pub fn ranges_are_tested()
    ensures all { (p : ℤ → Bool) (low high : ℤ) → IsTrue (all_between p low high) ↔
        ((z : ℤ) → low ≤ℤ z → z ≤ℤ high → IsTrue (p z)) }
    ensures some { (p : ℤ → Bool) (low high : ℤ) → IsTrue (some_between p low high) ↔
        ((z : ℤ) × (low ≤ℤ z) × (z ≤ℤ high) × IsTrue (p z)) }
{}

/// A text has rows, and no others have its bytes; its lines are those of Rust's `str::lines`.
pub fn texts_have_rows()
    ensures made { (text : List ℕ) → AreRowsOf text (rows_of text) }
    ensures only { (text : List ℕ) (rows : List Row) → AreRowsOf text rows → rows ≡ rows_of text }
    ensures usual { (text : List ℕ) → lines text ≡ text_lines text }
    // CR and LF end a line, and LF alone; any other CR is a byte of its line. The last line may have no end.
    ensures ends { lines (65 ∷ 13 ∷ 10 ∷ 66 ∷ 10 ∷ []) ≡ (65 ∷ []) ∷ (66 ∷ []) ∷ [] }
    ensures bare { lines (65 ∷ 13 ∷ 66 ∷ 13 ∷ []) ≡ (65 ∷ 13 ∷ 66 ∷ 13 ∷ []) ∷ [] }
    ensures unended { lines (65 ∷ 10 ∷ 66 ∷ []) ≡ (65 ∷ []) ∷ (66 ∷ []) ∷ [] }
    ensures blank { lines (10 ∷ 10 ∷ []) ≡ [] ∷ [] ∷ [] }
{}

/// The lines of a text are numbered from 1 on, and each number has one line.
pub fn lines_have_numbers()
    ensures place { (text : List ℕ) (number : ℕ) (line : List ℕ) → HasLine text number line
        → slice_get (lines text) (number - 1) ≡ Some line }
    ensures first { (text line : List ℕ) (more : List (List ℕ)) → lines text ≡ line ∷ more → HasLine text 1 line }
    ensures least { (text line : List ℕ) → ¬ HasLine text 0 line }
{}

/// What an answer says of a layer in which 7 alone is right, and kind 5 on line 2 the one cause of a refusal.
pub fn answers_have_meanings()
    ensures given { (n : ℕ) → Answers {K = ℕ} (λ m. m ≡ 7) (λ l k. (l ≡ 2) × (k ≡ 5)) (Ok n) ↔ (n ≡ 7) }
    ensures refuses { (line kind : ℕ) → Answers {A = ℕ} (λ m. m ≡ 7) (λ l k. (l ≡ 2) × (k ≡ 5)) (Err (at_line line kind))
        ↔ ((line ≡ 2) × (kind ≡ 5)) }
    // Where 7 is right, no other value is a complete answer; where the cause is there, no other refusal is.
    ensures whole { (n : ℕ) → IsComplete {K = ℕ} (λ m. m ≡ 7) (λ _ _. ⊥) (Ok n) ↔ (n ≡ 7) }
    ensures exact { (line kind : ℕ) → IsComplete {A = ℕ} (λ _. ⊥) (λ l k. (l ≡ 2) × (k ≡ 5)) (Err (at_line line kind))
        ↔ ((line ≡ 2) × (kind ≡ 5)) }
{}

/// A number below 65,536 is its two bytes, and each two bytes make one number.
pub fn words_have_two_bytes()
    ensures whole { (n : ℕ) → word (high n) (low n) ≡ n }
    ensures parts { (h l : ℕ) → l < bytes → (high (word h l) ≡ h) × (low (word h l) ≡ l) }
    ensures within { (n : ℕ) → n < addresses → (high n < bytes) × (low n < bytes) }
    // 1234H is 12H and 34H.
    ensures one { (high 4660 ≡ 18) × (low 4660 ≡ 52) }
{}

/// Bytes are placed among cells exactly where no address then stands twice, and the image has just these bytes then.
pub fn bytes_are_placed_apart()
    ensures apart { (cells : List (ℕ × ℕ)) (a : ℕ) (bs : List ℕ) → IsDistinct nat_eq (map (λ c. c.0) (cells ++ cells_at a bs))
        → placed a bs (maps.from_entries cells) ≡ Some (maps.from_entries (cells ++ cells_at a bs)) }
    ensures only { (cells : List (ℕ × ℕ)) (a : ℕ) (bs : List ℕ) (image : ImageMap) → IsDistinct nat_eq (map (λ c. c.0) cells)
        → placed a bs (maps.from_entries cells) ≡ Some image
        → IsDistinct nat_eq (map (λ c. c.0) (cells ++ cells_at a bs)) × (image ≡ maps.from_entries (cells ++ cells_at a bs)) }
    // Addresses rise by one.
    ensures two { cells_at 65534 (8 ∷ 9 ∷ []) ≡ (65534, 8) ∷ (65535, 9) ∷ [] }
{}
