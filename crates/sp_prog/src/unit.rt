use crate::area::Areas;
use crate::routine::Routines;
use sp_base::Image;
use std::marker::Model;

/// A program with its annotations. Whoever makes one proves that it keeps the rules of units.
#[derive(Debug, Drop)]
pub struct Unit {
    pub image: Image,
    /// The first cell of the stack region.
    pub first: u16,
    /// The last cell of the stack region.
    pub last: u16,
    pub areas: Areas,
    pub routines: Routines,
}

impl Model for Unit {
    ghost use Rattle.std.specs.Coded.{codes};
    ghost use Rattle.sp_logic.specs.contracts.note.Note as note;
    ghost use Rattle.sp_prog.specs.Program.{Program, program, image_code};
    ghost use Rattle.sp_prog.specs.Rules.{IsUnit};

    ghost Value = { Program };

    ghost coded = { Prim.hlevel (codes, note.the_row.coded, image_code) };

    ghost view = { λ unit. program unit.image unit.first unit.last unit.areas unit.routines };

    ghost invariant = { λ unit. IsUnit (program unit.image unit.first unit.last unit.areas unit.routines) };
}
