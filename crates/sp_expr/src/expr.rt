ghost use Rattle.std.specs.Prelude.{◌≡◌, nat_eq};
ghost use Rattle.std.specs.Cmp.Lexicographic.{pointwise};
ghost use Rattle.indexmap.specs.IndexMap.{get};
ghost use Rattle.sp_expr.specs.declared.setting.Setting.TheVariants as setting;
ghost use Rattle.sp_expr.specs.Parsing.{IsWithin, AnswersParse, AnswersParseIn, outcome};
ghost use Rattle.sp_expr.specs.Undefined.{first_undefined};
ghost use Rattle.sp_expr.specs.Trees.{Tree, Spells, value_of};
ghost use Rattle.sp_expr.specs.Words.{words_of};
ghost use Rattle.sp_lex.specs.Readers.{AreIn};

use crate::Symbols;
use crate::evaluation::{evaluate, first_undefined};
use crate::nesting::nests_within;
use crate::refusal::{ExprRefusal, ParseRefusal};
use crate::sentence::is_sentence;
use crate::setting::Setting;
use crate::tokens::words_of;
use crate::word::Word;
use sp_lex::Token;
use std::alloc::Global;
use std::marker::Model;

/// An expression, kept as its words, so that long ones and deep ones are read and dropped by loops. Contracts see the
/// list of its words, which have one tree.
#[derive(Debug, Drop)]
pub struct Expr {
    words: Vec<Word>,
}

impl Model for Expr {
    ghost use Rattle.std.specs.Prelude.{List};
    ghost use Rattle.sp_expr.specs.declared.word.Word.{Word};
    ghost use Rattle.sp_expr.specs.code.Parsing.{AreKept};

    ghost Value = { List Word };

    ghost view = { λ e. e.words.items };

    ghost invariant = { λ e. AreKept e.words.items };
}

impl Expr {
    /// The words of the expression, in order.
    pub fn as_slice(&self) -> &[Word]
        ensures words { result.now ≡ self.now }
        ensures expression { IsWithin setting.Statement self.now }
    {
        self.words.as_slice()
    }
}

/// The expression that tokens of a source stand for in this setting. From the tightest: numbers, names, `$`, texts of
/// one character and parentheses; `* / MOD SHL SHR`; `+ -`, and one of these as a sign before the first product of a
/// sum; NOT; AND; OR and XOR. Operators of one rank go from the left. At most 64 parentheses and NOTs may be nested.
pub fn parse_in(
    alloc: Global,
    setting: Setting,
    source: &[u8],
    tokens: &[Token],
) -> Result<Expr, ParseRefusal>
    requires { AreIn source.now tokens.now }
    ensures { AnswersParseIn setting result (words_of source.now tokens.now) }
{
    let words = words_of(alloc, source, tokens)?;
    if !is_sentence(setting, &words) {
        return Err(ParseRefusal::Syntax);
    }
    if !nests_within(&words) {
        return Err(ParseRefusal::TooDeep);
    }
    Ok(Expr { words })
}

/// The expression that tokens of a source stand for in a statement, as `parse_in` reads it.
pub fn parse(alloc: Global, source: &[u8], tokens: &[Token]) -> Result<Expr, ParseRefusal>
    requires { AreIn source.now tokens.now }
    ensures { AnswersParse result (words_of source.now tokens.now) }
{
    parse_in(alloc, Setting::Statement, source, tokens)
}

/// The value of an expression at the address of its statement, modulo 65,536: that of its tree. It takes no memory.
pub fn value(e: &Expr, names: &Symbols, here: u16) -> Result<u16, ExprRefusal>
    ensures expression { IsWithin setting.Statement e.now }
    ensures value { (t : Tree) → Spells e.now t →
        result ≡ outcome (first_undefined (λ name. get (pointwise nat_eq) names.now name) e.now)
        (value_of (λ name. get (pointwise nat_eq) names.now name) here t) }
{
    if let Some(name) = first_undefined(&e.words, names) {
        return Err(ExprRefusal::Undefined(name));
    }
    match evaluate(&e.words, names, here) {
        Some(value) => Ok(value),
        None => Err(ExprRefusal::ZeroDivisor),
    }
}
