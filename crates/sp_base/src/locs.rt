ghost use Rattle.std.specs.Prelude.{◌≡◌, ◌^◌, ◌↔◌, ◌||◌, ⊤, [], ◌∷◌, codes, false, IsTrue};
ghost use Rattle.sp_base.specs.Locs.{none, only, both, has, place};

use crate::Loc;
use bitflags::{Flag, Flags, bitflag_items};

/// A set of registers and flags, with a bit for each in the order of `Loc`.
#[derive(Clone, Copy, Debug, PartialEq, Eq)]
pub struct Locs(u16);

bitflag_items! {
    impl Locs: u16 {
        const A = 1;
        const B = 2;
        const C = 4;
        const D = 8;
        const E = 16;
        const H = 32;
        const L = 64;
        const S = 128;
        const Z = 256;
        const AC = 512;
        const P = 1024;
        const CY = 2048;
    }
}

impl Flags for Locs {
    type Bits = u16;

    ghost exact = { ⊤ };

    ghost table = { (codes "A", 1) ∷ (codes "B", 2) ∷ (codes "C", 4) ∷ (codes "D", 8) ∷ (codes "E", 16) ∷ (codes "H", 32)
        ∷ (codes "L", 64) ∷ (codes "S", 128) ∷ (codes "Z", 256) ∷ (codes "AC", 512) ∷ (codes "P", 1024) ∷ (codes "CY", 2048) ∷ [] };

    ghost set_of = { λ locs. locs.0 };

    fn flags<'a>() -> &'a [Flag<Locs>] {
        Locs::FLAGS
    }

    fn bits(&self) -> u16 {
        self.0
    }

    fn from_bits_retain(bits: u16) -> Locs {
        Locs(bits)
    }
}

/// The bit of a location.
fn bit_of(x: Loc) -> u16
    ensures { result ≡ 2 ^ place x }
{
    match x {
        Loc::A => 1,
        Loc::B => 2,
        Loc::C => 4,
        Loc::D => 8,
        Loc::E => 16,
        Loc::H => 32,
        Loc::L => 64,
        Loc::S => 128,
        Loc::Z => 256,
        Loc::Ac => 512,
        Loc::P => 1024,
        Loc::Cy => 2048,
    }
}

impl Locs {
    /// The set of no location.
    #[tactic(auto, using(crate::proofs::LocsLaws::has_none), unfolding(crate::specs::Locs::none))]
    pub fn empty() -> Locs
        ensures value { result ≡ none }
        ensures members { (x : Loc) → has x result ≡ false }
    {
        Locs(0)
    }

    /// The set of one location.
    #[tactic(auto, unfolding(crate::specs::Locs::only))]
    pub fn single(x: Loc) -> Locs
        ensures value { result ≡ only x }
        ensures members { (y : Loc) → IsTrue (has y result) ↔ (y ≡ x) }
    {
        Locs(bit_of(x))
    }

    /// The locations of either set.
    #[tactic(auto, using(crate::proofs::LocsLaws::has_both), unfolding(crate::specs::Locs::both))]
    pub fn union(self, other: Locs) -> Locs
        ensures value { result ≡ both self other }
        ensures members { (x : Loc) → has x result ≡ (has x self || has x other) }
    {
        Locs(self.0 | other.0)
    }

    /// Whether a location is in the set.
    pub fn contains(self, x: Loc) -> bool
        ensures { result ≡ has x self }
    {
        self.0 & bit_of(x) != 0
    }
}
