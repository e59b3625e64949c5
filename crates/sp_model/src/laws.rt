//! Laws on states and runs, and on what annotations say.
ghost use Rattle.sp_model.specs.NoteExamples.{BindsInnermost, Connected, DividesDown, HasBits, HasWholeNumbers, Orders, Quantified, ReadsPlaces, ReadsStack, ShowsMemory, SumsCells};
ghost use Rattle.sp_model.specs.State.{RunsCompose, StepsExecute, StepsKeepStates, StoppedStatesStay};

/// Running m + n steps is running m, then n.
pub fn runs_compose()
    ensures { RunsCompose }
{}

/// A step of a state that isn't halted executes the instruction at its program counter.
pub fn steps_execute()
    ensures { StepsExecute }
{}

/// A halted state stays, and so does one at whose program counter no instruction begins.
pub fn stopped_states_stay()
    ensures { StoppedStatesStay }
{}

/// A step keeps each part of the state in its range.
pub fn steps_keep_states()
    ensures { StepsKeepStates }
{}

/// In annotations numbers are whole numbers without bounds.
pub fn notes_have_whole_numbers()
    ensures { HasWholeNumbers }
{}

/// `div` and `mod` round down, whatever the signs, and are 0 by 0.
pub fn notes_divide_down()
    ensures { DividesDown }
{}

/// `band`, `bor`, `bxor` and `par` take their arguments modulo 256.
pub fn notes_have_bits()
    ensures { HasBits }
{}

/// A register, a flag or a pair is that of the present machine, or with `~` that of the machine at entry.
pub fn notes_read_places()
    ensures { ReadsPlaces }
{}

/// `mem[e]` is the byte at e, and 0 in the stack region and where e is no address.
pub fn notes_show_memory()
    ensures { ShowsMemory }
{}

/// `STKk` is the word 2k bytes below the base, at addresses modulo 65,536.
pub fn notes_read_the_stack()
    ensures { ReadsStack }
{}

/// `total(x, y)` is the sum of the cells from x through y.
pub fn notes_sum_cells()
    ensures { SumsCells }
{}

/// The six comparisons, below 0 too.
pub fn notes_compare()
    ensures { Orders }
{}

/// `not`, `and`, `or`, `->` and `<->` of true and false.
pub fn notes_connect()
    ensures { Connected }
{}

/// `for all` and `for some` speak of both ends and what lies between, and of nothing past them.
pub fn notes_quantify()
    ensures { Quantified }
{}

/// A bound name is that of its innermost quantifier.
pub fn notes_bind_names()
    ensures { BindsInnermost }
{}
