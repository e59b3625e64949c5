//! What translation is for, as contracts of functions that do nothing.
ghost use Rattle.sp_trans.specs.Examples.{TranslatesByExample, PremisesAreMet};
ghost use Rattle.sp_trans.specs.Theorems.{
  StepsAreTranslated,
  PointersStay,
  CallsKeepValues,
  NotesAreTranslated,
  StatesStaySymbolic,
  FormulasAreClosed,
};

/// A step of the processor keeps its core the value of the symbolic state through the instruction.
pub fn steps_are_translated()
    ensures { StepsAreTranslated }
{}

/// The stack pointer stays at the newest word.
pub fn pointers_stay()
    ensures { PointersStay }
{}

/// A call leaves the core the value of the symbolic state.
pub fn calls_keep_values()
    ensures { CallsKeepValues }
{}

/// A note is true exactly where its formula is.
pub fn notes_are_translated()
    ensures { NotesAreTranslated }
{}

/// Each part of a symbolic state stays a closed term of its sort.
pub fn states_stay_symbolic()
    ensures { StatesStaySymbolic }
{}

/// The formula of a note over two such states is a closed formula.
pub fn formulas_are_closed()
    ensures { FormulasAreClosed }
{}

/// Parts that are joined, an increase, words on the stack and bound names, each by example.
pub fn translation_by_example()
    ensures { TranslatesByExample }
{}

/// Each core is the value of a symbolic state, and what is asked of an instruction can be met.
pub fn premises_are_met()
    ensures { PremisesAreMet }
{}
