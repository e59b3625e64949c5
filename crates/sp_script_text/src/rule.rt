ghost use Rattle.std.specs.Prelude.{◌≡◌};
ghost use Rattle.sp_script_text.specs.Rules.{name_of};
ghost use Rattle.sp_script_text.specs.code.Words.{rule_named, more_rule_named};

/// A rule of scripts.
#[derive(Clone, Copy, Debug, PartialEq, Eq)]
pub enum Rule {
    Close,
    Simp,
    Split,
    Intro,
    Side,
    Unpack,
    /// Its name is `use`.
    UseBoth,
    Cases,
    Cut,
    Fix,
    At,
    Give,
    Pick,
    Induct,
    Rewrite,
    Linear,
    DivMod,
    Range,
    Read,
    Rom,
    Frame,
    Bits,
    BitOf,
    Choose,
    Empty,
    Last,
    Over,
}

impl Rule {
    /// The name with which a step begins, as `close`.
    pub fn name(self) -> &'static str
        ensures { result.now ≡ name_of self }
    {
        match self {
            Rule::Close => "close",
            Rule::Simp => "simp",
            Rule::Split => "split",
            Rule::Intro => "intro",
            Rule::Side => "side",
            Rule::Unpack => "unpack",
            Rule::UseBoth => "use",
            Rule::Cases => "cases",
            Rule::Cut => "cut",
            Rule::Fix => "fix",
            Rule::At => "at",
            Rule::Give => "give",
            Rule::Pick => "pick",
            Rule::Induct => "induct",
            Rule::Rewrite => "rewrite",
            Rule::Linear => "linear",
            Rule::DivMod => "divmod",
            Rule::Range => "range",
            Rule::Read => "read",
            Rule::Rom => "rom",
            Rule::Frame => "frame",
            Rule::Bits => "bits",
            Rule::BitOf => "bitof",
            Rule::Choose => "choose",
            Rule::Empty => "empty",
            Rule::Last => "last",
            Rule::Over => "over",
        }
    }
}

/// The rule with this name.
#[tactic(auto, unfolding(crate::specs::code::Words::rule_named))]
pub(crate) fn rule_named(word: &[u8]) -> Option<Rule>
    ensures { result ≡ rule_named word.now }
{
    if word == b"linear".as_slice() {
        Some(Rule::Linear)
    } else if word == b"cut".as_slice() {
        Some(Rule::Cut)
    } else if word == b"use".as_slice() {
        Some(Rule::UseBoth)
    } else if word == b"close".as_slice() {
        Some(Rule::Close)
    } else if word == b"split".as_slice() {
        Some(Rule::Split)
    } else if word == b"simp".as_slice() {
        Some(Rule::Simp)
    } else if word == b"intro".as_slice() {
        Some(Rule::Intro)
    } else if word == b"side".as_slice() {
        Some(Rule::Side)
    } else if word == b"unpack".as_slice() {
        Some(Rule::Unpack)
    } else if word == b"cases".as_slice() {
        Some(Rule::Cases)
    } else if word == b"fix".as_slice() {
        Some(Rule::Fix)
    } else if word == b"at".as_slice() {
        Some(Rule::At)
    } else if word == b"give".as_slice() {
        Some(Rule::Give)
    } else {
        more_rule_named(word)
    }
}

/// The rule with this name, among the further ones.
#[tactic(auto, unfolding(crate::specs::code::Words::more_rule_named))]
fn more_rule_named(word: &[u8]) -> Option<Rule>
    ensures { result ≡ more_rule_named word.now }
{
    if word == b"pick".as_slice() {
        Some(Rule::Pick)
    } else if word == b"induct".as_slice() {
        Some(Rule::Induct)
    } else if word == b"rewrite".as_slice() {
        Some(Rule::Rewrite)
    } else if word == b"divmod".as_slice() {
        Some(Rule::DivMod)
    } else if word == b"range".as_slice() {
        Some(Rule::Range)
    } else if word == b"read".as_slice() {
        Some(Rule::Read)
    } else if word == b"rom".as_slice() {
        Some(Rule::Rom)
    } else if word == b"frame".as_slice() {
        Some(Rule::Frame)
    } else if word == b"bits".as_slice() {
        Some(Rule::Bits)
    } else if word == b"bitof".as_slice() {
        Some(Rule::BitOf)
    } else if word == b"choose".as_slice() {
        Some(Rule::Choose)
    } else if word == b"empty".as_slice() {
        Some(Rule::Empty)
    } else if word == b"last".as_slice() {
        Some(Rule::Last)
    } else if word == b"over".as_slice() {
        Some(Rule::Over)
    } else {
        None
    }
}
