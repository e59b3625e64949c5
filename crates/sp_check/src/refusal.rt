use sp_asm::AsmKind;
use sp_base::Refused;
use sp_flow::FlowKind;
use sp_lex::TextKind;
use sp_note::NoteKind;
use sp_struct::StructKind;
use sp_unit::UnitKind;

/// How a source breaks a rule. The kinds count in this order over the whole source: a later one comes only where no line
/// breaks a rule of an earlier one.
#[derive(Clone, Copy, Debug, PartialEq, Eq)]
pub enum CheckKind {
    /// A rule on lines and tokens.
    Text(TextKind),
    /// A rule of the assembler.
    Asm(AsmKind),
    /// The grammar of annotation lines.
    Note(NoteKind),
    /// A rule of units.
    Unit(UnitKind),
    /// A rule on structure.
    Struct(StructKind),
    /// A rule on flow.
    Flow(FlowKind),
}

/// Why a source isn't right: the first rule that is broken, at its line, or want of memory.
pub type CheckRefusal = Refused<CheckKind>;

impl From<TextKind> for CheckKind {
    ghost use Rattle.std.specs.Prelude.{◌≡◌};
    ghost use Rattle.sp_check.specs.declared.refusal.CheckKind.TheVariants as kind;

    ghost from_gives = { λ low high. high ≡ kind.Text low };

    fn from(kind: TextKind) -> CheckKind {
        CheckKind::Text(kind)
    }
}

impl From<AsmKind> for CheckKind {
    ghost use Rattle.std.specs.Prelude.{◌≡◌};
    ghost use Rattle.sp_check.specs.declared.refusal.CheckKind.TheVariants as kind;

    ghost from_gives = { λ low high. high ≡ kind.Asm low };

    fn from(kind: AsmKind) -> CheckKind {
        CheckKind::Asm(kind)
    }
}

impl From<NoteKind> for CheckKind {
    ghost use Rattle.std.specs.Prelude.{◌≡◌};
    ghost use Rattle.sp_check.specs.declared.refusal.CheckKind.TheVariants as kind;

    ghost from_gives = { λ low high. high ≡ kind.Note low };

    fn from(kind: NoteKind) -> CheckKind {
        CheckKind::Note(kind)
    }
}

impl From<UnitKind> for CheckKind {
    ghost use Rattle.std.specs.Prelude.{◌≡◌};
    ghost use Rattle.sp_check.specs.declared.refusal.CheckKind.TheVariants as kind;

    ghost from_gives = { λ low high. high ≡ kind.Unit low };

    fn from(kind: UnitKind) -> CheckKind {
        CheckKind::Unit(kind)
    }
}

impl From<StructKind> for CheckKind {
    ghost use Rattle.std.specs.Prelude.{◌≡◌};
    ghost use Rattle.sp_check.specs.declared.refusal.CheckKind.TheVariants as kind;

    ghost from_gives = { λ low high. high ≡ kind.Struct low };

    fn from(kind: StructKind) -> CheckKind {
        CheckKind::Struct(kind)
    }
}

impl From<FlowKind> for CheckKind {
    ghost use Rattle.std.specs.Prelude.{◌≡◌};
    ghost use Rattle.sp_check.specs.declared.refusal.CheckKind.TheVariants as kind;

    ghost from_gives = { λ low high. high ≡ kind.Flow low };

    fn from(kind: FlowKind) -> CheckKind {
        CheckKind::Flow(kind)
    }
}
