//! What holds of texts, images and loaded images alone, as contracts of functions that do nothing.

ghost use Rattle.std.specs.Prelude.{◌≡◌, ◌⊎◌, ℕ, ◌+◌, ◌-◌, ◌<◌, ◌≤◌, List, [], ◌∷◌, ◌++◌, Some, codes, length, take};
ghost use Rattle.std.specs.FinMap as maps;
ghost use Rattle.sp_base.specs.Image.{ImageMap, IsInMemory};
ghost use Rattle.sp_base.specs.Cells.{Data};
ghost use Rattle.sp_hex.specs.declared.refusal.HexKind.{HexKind};
ghost use Rattle.sp_hex.specs.declared.refusal.HexKind.TheVariants.{BadRecord, BadSum, Overlap, AfterEnd, NoEnd};
ghost use Rattle.sp_hex.specs.Hex.{digit_value, digit, StandsFor, AreWritten, records_of, text};
ghost use Rattle.sp_hex.specs.Load.{IsLoaded};
ghost use Rattle.sp_hex.specs.Refusals.{IsCause};
ghost use Rattle.sp_isa.specs.Core.{Core};

/// A text stands for one image, or one refusal has its cause in it, and never both.
pub fn one_answer()
    ensures image { (t : List ℕ) (a b : ImageMap) → StandsFor t a → StandsFor t b → a ≡ b }
    ensures refusal { (t : List ℕ) (n m : ℕ) (k j : HexKind) → IsCause t n k → IsCause t m j → (n ≡ m) × (k ≡ j) }
    ensures apart { (t : List ℕ) (image : ImageMap) (n : ℕ) (k : HexKind) → StandsFor t image → ¬ (IsCause t n k) }
    ensures some { (t : List ℕ) → ((image : ImageMap) × StandsFor t image) ⊎ ((n : ℕ) × (k : HexKind) × IsCause t n k) }
{}

/// Each value below 16 has one digit, and from 10 on another in lower case; nothing else is a digit.
pub fn digits_have_values()
    ensures upper { (v : ℕ) → v < 16 → digit_value (digit v) ≡ Some v }
    ensures lower { (v : ℕ) → 10 ≤ v → v < 16 → digit_value (digit v + 32) ≡ Some v }
    ensures only { (c v : ℕ) → digit_value c ≡ Some v → (v < 16) × ((c ≡ digit v) ⊎ ((10 ≤ v) × (c ≡ digit v + 32))) }
    ensures ends { (codes "09AF") ≡ digit 0 ∷ digit 9 ∷ digit 10 ∷ digit 15 ∷ [] }
{}

/// The byte 3EH at the address 0102H, by small texts. Digits are of either case, LF or CR and LF ends a line, and the
/// last line may have no end.
pub fn small_texts_have_images()
    ensures none { StandsFor (codes ":00000001FF") maps.empty }
    ensures one { StandsFor (codes ":010102003EBE" ++ 10 ∷ codes ":00000001FF" ++ 10 ∷ []) (maps.from_entries ((258, 62) ∷ [])) }
    ensures lower { StandsFor (codes ":010102003ebe" ++ 10 ∷ codes ":00000001ff") (maps.from_entries ((258, 62) ∷ [])) }
    ensures returns { StandsFor (codes ":010102003EBE" ++ 13 ∷ 10 ∷ codes ":00000001FF" ++ 13 ∷ 10 ∷ []) (maps.from_entries ((258, 62) ∷ [])) }
    ensures blank { StandsFor (codes ":010102003EBE" ++ 10 ∷ codes ":00000001FF" ++ 10 ∷ 10 ∷ []) (maps.from_entries ((258, 62) ∷ [])) }
{}

/// What is wrong with texts that differ from those in one place.
pub fn small_texts_have_causes()
    // No colon, a digit too few, another type, and data past FFFFH.
    ensures colon { IsCause (codes "00000001FF") 1 BadRecord }
    ensures short { IsCause (codes ":010102003EB") 1 BadRecord }
    ensures kind { IsCause (codes ":010102023EBC") 1 BadRecord }
    ensures past { IsCause (codes ":02FFFF000102FD") 1 BadRecord }
    ensures sum { IsCause (codes ":010102003EBF" ++ 10 ∷ codes ":00000001FF") 1 BadSum }
    ensures twice { IsCause (codes ":010102003EBE" ++ 10 ∷ codes ":010102003EBE" ++ 10 ∷ codes ":00000001FF") 2 Overlap }
    ensures after { IsCause (codes ":00000001FF" ++ 10 ∷ 10 ∷ codes " ") 3 AfterEnd }
    ensures open { IsCause (codes ":010102003EBE" ++ 10 ∷ []) 0 NoEnd }
{}

/// The records of an image are those in the one form in which they are written.
pub fn written_form()
    ensures made { (image : ImageMap) → AreWritten (maps.entries image) (records_of (maps.entries image)) }
    ensures only { (cells : List (ℕ × ℕ)) (records : List Data) → AreWritten cells records → records ≡ records_of cells }
{}

/// The text of an image stands for it, with its last line feed or without. A text that is cut by more stands for no image.
pub fn written_text()
    ensures whole { (image : ImageMap) → IsInMemory image → StandsFor (text image) image }
    ensures unended { (image : ImageMap) → IsInMemory image → StandsFor (take (length (text image) - 1) (text image)) image }
    // 65,536 records of one byte and the end record are the most.
    ensures short { (image : ImageMap) → IsInMemory image → length (text image) ≤ 917516 }
    ensures cut { (image other : ImageMap) (n : ℕ) → IsInMemory image → n + 2 ≤ length (text image) → ¬ (StandsFor (take n (text image)) other) }
{}

/// The image, and what the machine was before, say all of what it is once the image is loaded. Each machine has
/// 65,536 cells.
pub fn one_loading()
    ensures { (image : ImageMap) (old one other : Core) → length old.cells ≡ 65536 → IsLoaded image old one → IsLoaded image old other → one ≡ other }
{}
