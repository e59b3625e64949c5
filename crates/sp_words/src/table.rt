ghost use Rattle.std.specs.Prelude.{◌≡◌, IsTrue, nat_eq};
ghost use Rattle.std.specs.Map.{lookup};
ghost use Rattle.std.specs.Cmp.Lexicographic.{pointwise};
ghost use Rattle.sp_words.specs.code.Tables.{is_sorted};

/// What stands beside a word in a table that is sorted by its words, whose bytes are compared.
pub(crate) fn look_up<T: Copy>(table: &[(&[u8], T)], word: &[u8]) -> Option<T>
    requires { IsTrue (is_sorted (λ row. row.0.now) table.now) }
    ensures { result ≡ lookup (λ key. pointwise nat_eq key.now word.now) table.now }
{
    match table.binary_search_by_key(&word, |row| row.0) {
        Ok(place) => Some(table[place].1),
        Err(_) => None,
    }
}
