ghost use Rattle.std.specs.Prelude.{◌≡◌, ◌<◌, ◌↔◌, IsTrue};
ghost use Rattle.sp_base.specs.Locs.{has, place};
ghost use Rattle.sp_flow.specs.Unset.{Has};
ghost use Rattle.sp_flow.specs.code.Least.{IsFirstLoc, Lacks};

use bitflags::Flags;
use sp_base::{Loc, Locs};

/// The location of a place in their order.
fn loc_at(at: usize) -> Loc
    requires { at < 12 }
    ensures { place result ≡ at }
{
    match at {
        0 => Loc::A,
        1 => Loc::B,
        2 => Loc::C,
        3 => Loc::D,
        4 => Loc::E,
        5 => Loc::H,
        6 => Loc::L,
        7 => Loc::S,
        8 => Loc::Z,
        9 => Loc::Ac,
        10 => Loc::P,
        _ => Loc::Cy,
    }
}

/// Whether a set, given by its bits, has a location.
#[tactic(auto, unfolding(sp_base::specs::Locs::has))]
fn has_bit(set: u16, x: Loc) -> bool
    ensures { IsTrue result ↔ Has (place x) set }
{
    Locs::from_bits_retain(set).contains(x)
}

/// Whether a location is used, not listed, and left unset.
fn lacks(used: Locs, listed: Locs, unset: u16, x: Loc) -> bool
    ensures { IsTrue result ↔ Lacks used listed unset x }
{
    used.contains(x) && !listed.contains(x) && has_bit(unset, x)
}

/// The first location that is used, not listed, and left unset.
pub fn first_lacking(used: Locs, listed: Locs, unset: u16) -> Option<Loc>
    ensures { IsFirstLoc (Lacks used listed unset) result }
{
    'places: for at in 0..12usize {
        let x = loc_at(at);
        if lacks(used, listed, unset, x) {
            return Some(x);
        }
    }
    None
}
