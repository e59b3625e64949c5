//! What the grammar of conditions says, and that the reader answers by it.
ghost use Rattle.sp_note.specs.Examples.{GrammarByExample, NestingByExample, SortsByExample, BoundsByExample};
ghost use Rattle.sp_note.specs.Conditions.{ConditionsFollowTheGrammar, ConditionsAreOne};

/// Tokens are read as the condition that they are by the grammar, and else refused for the first rule that they break.
pub fn conditions_follow_the_grammar()
    ensures { ConditionsFollowTheGrammar }
{}

/// Tokens stand for at most one annotation.
pub fn conditions_are_one()
    ensures { ConditionsAreOne }
{}

/// Conditions that differ little: which are in the grammar.
pub fn grammar_by_example()
    ensures { GrammarByExample }
{}

/// What counts as nested.
pub fn nesting_by_example()
    ensures { NestingByExample }
{}

/// Parts with the sorts that their places ask, and with others.
pub fn sorts_by_example()
    ensures { SortsByExample }
{}

/// Bounds below and from 2 to the power 100.
pub fn bounds_by_example()
    ensures { BoundsByExample }
{}
