/// A register of eight bits (8080 manual, "Working registers").
#[derive(Clone, Copy, Debug, PartialEq, Eq, PartialOrd, Ord, Hash)]
pub enum Reg {
    B,
    C,
    D,
    E,
    H,
    L,
    A,
}

/// A register or a flag (8080 manual, "Working registers" and "Condition flags"). The stack pointer, the program
/// counter and cells of memory are no locations.
#[derive(Clone, Copy, Debug, PartialEq, Eq, PartialOrd, Ord, Hash)]
pub enum Loc {
    A,
    B,
    C,
    D,
    E,
    H,
    L,
    S,
    Z,
    Ac,
    P,
    Cy,
}

impl From<Reg> for Loc {
    ghost use Rattle.std.specs.Prelude.{◌≡◌};
    ghost use Rattle.sp_base.specs.Location.{loc_of};

    ghost from_gives = { λ reg loc. loc ≡ loc_of reg };

    fn from(reg: Reg) -> Loc {
        match reg {
            Reg::B => Loc::B,
            Reg::C => Loc::C,
            Reg::D => Loc::D,
            Reg::E => Loc::E,
            Reg::H => Loc::H,
            Reg::L => Loc::L,
            Reg::A => Loc::A,
        }
    }
}
