ghost use Rattle.std.specs.Prelude.{◌≡◌, ℕ, List, Option};
ghost use Rattle.sp_expr.specs.declared.setting.Setting.{Setting};
ghost use Rattle.sp_expr.specs.declared.word.Word.{Word};
ghost use Rattle.sp_expr.specs.code.Parsing.{SentencesAreExpressions, SentencesNestAsTheirTrees};
ghost use Rattle.sp_expr.specs.Examples.{OperatorsByExample, RanksByExample, SignsByExample, SettingsByExample, SpellingsByExample, LimitByExample, ValuesByExample, RefusalsByExample, TokensByExample};
ghost use Rattle.sp_expr.specs.Trees.{Tree, SpellsIn, value_of};

/// Words that are an expression have one value, however a tree is made of them.
pub fn an_expression_has_one_value()
    ensures { (setting : Setting) (ws : List Word) (one other : Tree) (names : List ℕ → Option ℕ)
        (here : ℕ) → SpellsIn setting ws one → SpellsIn setting ws other →
        value_of names here one ≡ value_of names here other }
{}

/// Words are a sentence, word by word, exactly where they have a tree.
pub fn sentences_are_expressions()
    ensures { SentencesAreExpressions }
{}

/// The words of an expression keep to the limit on nesting exactly where its tree does.
pub fn sentences_nest_as_their_trees()
    ensures { SentencesNestAsTheirTrees }
{}

/// What each operator gives on numbers of sixteen bits.
pub fn operators_by_example()
    ensures { OperatorsByExample }
{}

/// Which operators bind tighter, and that those of one rank go from the left.
pub fn ranks_by_example()
    ensures { RanksByExample }
{}

/// Where a sign may stand.
pub fn signs_by_example()
    ensures { SignsByExample }
{}

/// What statements and annotations have in expressions.
pub fn settings_by_example()
    ensures { SettingsByExample }
{}

/// How trees are written, and how deep they nest.
pub fn spellings_by_example()
    ensures { SpellingsByExample }
{}

/// The limit on nesting.
pub fn limit_by_example()
    ensures { LimitByExample }
{}

/// The values of trees.
pub fn values_by_example()
    ensures { ValuesByExample }
{}

/// Why an expression has no value.
pub fn refusals_by_example()
    ensures { RefusalsByExample }
{}

/// What single tokens stand for.
pub fn tokens_by_example()
    ensures { TokensByExample }
{}
