ghost use Rattle.std.specs.Prelude.{◌≡◌};

use sp_base::{Loc, Pair, Reg};
use std::marker::Model;

/// A flag (8080 manual, "Condition flags").
#[derive(Clone, Copy, Debug, PartialEq, Eq)]
pub enum Flag {
    S,
    Z,
    Ac,
    P,
    Cy,
}

impl From<Flag> for Loc {
    ghost use Rattle.std.specs.Prelude.{◌≡◌};
    ghost use Rattle.sp_run.specs.Start.{flag_loc};

    ghost from_gives = { λ flag loc. loc ≡ flag_loc flag };

    fn from(flag: Flag) -> Loc {
        match flag {
            Flag::S => Loc::S,
            Flag::Z => Loc::Z,
            Flag::Ac => Loc::Ac,
            Flag::P => Loc::P,
            Flag::Cy => Loc::Cy,
        }
    }
}

/// What one `--set` does to the start of a run.
#[derive(Clone, Copy, Debug, PartialEq, Eq)]
pub enum Setting {
    /// A register has this byte.
    Register(Reg, u8),
    /// A register pair, or the stack pointer, has this word.
    Pair(Pair, u16),
    /// A flag is 1 or 0.
    Flag(Flag, bool),
    /// This byte is the next of the inputs.
    Input(u8),
    /// The cell at an address has this byte.
    Cell(u16, u8),
}

/// Settings in the order in which they are made. Contracts see a list.
#[derive(Debug, Drop)]
pub struct Settings {
    items: Vec<Setting>,
}

impl Model for Settings {
    ghost use Rattle.std.specs.Prelude.{List};
    ghost use Rattle.sp_run.specs.declared.settings.Setting.{Setting};

    ghost Value = { List Setting };

    ghost view = { λ settings. settings.items.items };
}

impl Settings {
    /// The list of these settings.
    pub fn from_vec(items: Vec<Setting>) -> Settings
        ensures { result ≡ items.items }
    {
        Settings { items }
    }

    /// The settings in order.
    pub fn as_slice(&self) -> &[Setting]
        ensures { result.now ≡ self.now }
    {
        self.items.as_slice()
    }
}

/// What the option words of `run` say.
#[derive(Debug, Drop)]
pub struct Options {
    /// The program counter at the start, where it isn't 0.
    pub pc: Option<u16>,
    /// The most steps; from words, 0 to 1,000,000.
    pub steps: u32,
    /// The settings that are made once the image is loaded.
    pub settings: Settings,
}
