ghost use Rattle.std.specs.Prelude.{◌≡◌, ◌≤◌, ◌<◌, ◌↔◌, ◌⊎◌, ◌^◌, ℕ};
ghost use Rattle.sp_flow.specs.Unset.{Has};

/// The locations of either set.
#[tactic(auto, using(crate::proofs::SetLemmas::has_both, std::proofs::lemmas::Nat::le_or_l))]
pub fn both(a: u16, b: u16) -> u16
    ensures members { (x : ℕ) → Has x result ↔ (Has x a ⊎ Has x b) }
    ensures more { a ≤ result }
{
    a | b
}

/// The locations of the first set that are not in the second.
#[tactic(auto, using(crate::proofs::SetLemmas::has_without))]
pub fn without(a: u16, b: u16) -> u16
    ensures members { (x : ℕ) → Has x result ↔ (Has x a × (Has x b → ⊥)) }
{
    a & !b
}
