//! Why a command ends before anything is written.
ghost use Rattle.std.specs.Prelude.{◌≡◌};
ghost use Rattle.sp_cli.specs.Stages.{check_refusal};

use sp_asm::AsmKind;
use sp_base::{Line, Memory, Name, Refused};
use sp_check::CheckKind;
use sp_flow::FlowKind;
use sp_hex::HexKind;
use sp_lex::TextKind;
use sp_note::NoteKind;
use sp_struct::StructKind;
use sp_unit::UnitKind;

/// A file that a command reads.
#[derive(Clone, Copy, Debug, PartialEq, Eq)]
pub enum Input {
    Source,
    Scripts,
    Image,
}

/// Why a command refuses what it was given.
#[derive(Clone, Copy, Debug)]
pub enum Refusal {
    Missing(Input),
    TooLarge(Input),
    NotBuilt,
    Open(Name, u64),
    Text(Line, TextKind),
    Asm(Line, AsmKind),
    Note(Line, NoteKind),
    Unit(Line, UnitKind),
    Struct(Line, StructKind),
    Flow(Line, FlowKind),
    Image(Line, HexKind),
}

/// Why a command ends before anything is written.
#[derive(Clone, Copy, Debug)]
pub enum Stop {
    /// A file could not be read.
    Fault,
    Memory,
    Refused(Refusal),
}

impl From<Memory> for Stop {
    ghost use Rattle.std.specs.Prelude.{◌≡◌};
    ghost use Rattle.sp_cli.specs.declared.refusal.Stop.TheVariants as stop;

    ghost from_gives = { λ _ s. s ≡ stop.Memory };

    fn from(_: Memory) -> Stop {
        Stop::Memory
    }
}

impl From<sp_first::Refusal> for Stop {
    ghost use Rattle.std.specs.Prelude.{◌≡◌};
    ghost use Rattle.sp_cli.specs.code.Stops.{verifier_stop};

    ghost from_gives = { λ r s. s ≡ verifier_stop r };

    fn from(refusal: sp_first::Refusal) -> Stop {
        match refusal {
            sp_first::Refusal::NotBuilt => Stop::Refused(Refusal::NotBuilt),
            sp_first::Refusal::Open(name, number) => Stop::Refused(Refusal::Open(name, number)),
            sp_first::Refusal::Memory => Stop::Memory,
        }
    }
}

impl From<Refused<TextKind>> for Stop {
    ghost use Rattle.std.specs.Prelude.{◌≡◌};
    ghost use Rattle.sp_cli.specs.code.Stops.{text_stop};

    ghost from_gives = { λ r s. s ≡ text_stop r };

    fn from(refusal: Refused<TextKind>) -> Stop {
        match refusal {
            Refused::At(line, kind) => Stop::Refused(Refusal::Text(line, kind)),
            Refused::Memory => Stop::Memory,
        }
    }
}

impl From<Refused<AsmKind>> for Stop {
    ghost use Rattle.std.specs.Prelude.{◌≡◌};
    ghost use Rattle.sp_cli.specs.code.Stops.{asm_stop};

    ghost from_gives = { λ r s. s ≡ asm_stop r };

    fn from(refusal: Refused<AsmKind>) -> Stop {
        match refusal {
            Refused::At(line, kind) => Stop::Refused(Refusal::Asm(line, kind)),
            Refused::Memory => Stop::Memory,
        }
    }
}

impl From<Refused<HexKind>> for Stop {
    ghost use Rattle.std.specs.Prelude.{◌≡◌};
    ghost use Rattle.sp_cli.specs.code.Stops.{image_stop};

    ghost from_gives = { λ r s. s ≡ image_stop r };

    fn from(refusal: Refused<HexKind>) -> Stop {
        match refusal {
            Refused::At(line, kind) => Stop::Refused(Refusal::Image(line, kind)),
            Refused::Memory => Stop::Memory,
        }
    }
}

/// The refusal of a source at a line, under its own name.
fn check_refusal(line: Line, kind: CheckKind) -> Refusal
    ensures { result ≡ check_refusal line kind }
{
    match kind {
        CheckKind::Text(kind) => Refusal::Text(line, kind),
        CheckKind::Asm(kind) => Refusal::Asm(line, kind),
        CheckKind::Note(kind) => Refusal::Note(line, kind),
        CheckKind::Unit(kind) => Refusal::Unit(line, kind),
        CheckKind::Struct(kind) => Refusal::Struct(line, kind),
        CheckKind::Flow(kind) => Refusal::Flow(line, kind),
    }
}

impl From<Refused<CheckKind>> for Stop {
    ghost use Rattle.std.specs.Prelude.{◌≡◌};
    ghost use Rattle.sp_cli.specs.code.Stops.{check_stop};

    ghost from_gives = { λ r s. s ≡ check_stop r };

    fn from(refusal: Refused<CheckKind>) -> Stop {
        match refusal {
            Refused::At(line, kind) => Stop::Refused(check_refusal(line, kind)),
            Refused::Memory => Stop::Memory,
        }
    }
}
