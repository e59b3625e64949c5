ghost use Rattle.std.specs.Prelude.{◌≡◌, IfOk, IfErr, IfSome, IfNone};
ghost use Rattle.std.specs.List.{AllByRecursion, list_any};
ghost use Rattle.sp_script_text.specs.Files.{HasSteps};
ghost use Rattle.sp_script_text.specs.Tables.{IsFound, IsAbsent, AreKnown, IsUnknownAt};
ghost use Rattle.sp_script_text.specs.code.Table.{counts, AnswersTitles, AnswersTable};

use crate::refusal::{ReadScripts, ScriptKind};
use indexmap::IndexSet;
use sp_base::{Line, Name, Refused, Seq};
use std::alloc::Global;
use std::marker::Model;
use thiserror::Error;

/// The condition that a script names, as `FIVE.1`.
#[derive(Clone, Copy, Debug, PartialEq, Eq, Hash)]
pub struct Title {
    /// In upper case.
    pub name: Name,
    /// From 1 to 4294967295.
    pub number: u64,
}

/// A line of a script that is a step. Its text is the line without its end.
#[derive(Debug, Drop)]
pub struct Written {
    pub line: Line,
    pub text: Seq<u8>,
}

/// A script: the condition that it names, the lines of its first line and of `end`, and its steps in their order.
#[derive(Debug, Drop)]
pub struct Script {
    pub title: Title,
    pub line: Line,
    pub steps: Seq<Written>,
    pub end: Line,
}

/// Scripts in the order of their lines, each for a condition of its own. Contracts see the list of them.
#[derive(Drop)]
pub struct Scripts {
    list: Vec<Script>,
    titles: IndexSet<Title>,
}

impl Model for Scripts {
    ghost use Rattle.std.specs.Prelude.{List};
    ghost use Rattle.sp_script_text.specs.declared.script.Script.{Script};
    ghost use Rattle.sp_script_text.specs.code.Table.{IsTable};

    ghost Value = { List Script };

    ghost view = { λ s. s.list.items };

    ghost invariant = { λ s. IsTable s.list.items s.titles.keys };
}

/// Whether a condition is one of those that are counted together.
fn counts(count: (Name, u64), title: Title) -> bool
    ensures { result ≡ counts count title }
{
    count.0 == title.name && title.number <= count.1
}

/// Whether a condition is among those that are counted: of each routine those from 1 to its count.
fn is_counted(title: Title, all: &[(Name, u64)]) -> bool
    ensures { result ≡ list_any (λ c. counts c title) all.now }
{
    all.iter().any(|count| counts(*count, title))
}

/// The first script whose condition isn't counted begins at this line.
#[derive(Clone, Copy, Debug, PartialEq, Eq, Error)]
#[error("no such condition")]
pub struct NoSuch {
    pub line: Line,
}

/// The conditions of scripts, unless two are for one.
#[tactic(auto, using(crate::proofs::TableLemmas::titles_begin, crate::proofs::TableLemmas::titles_more, crate::proofs::TableLemmas::titles_all, crate::proofs::TableLemmas::title_twice))]
fn titles_of(alloc: Global, scripts: &[Script]) -> Result<IndexSet<Title>, ReadScripts>
    ensures { AnswersTitles result scripts.now }
{
    let mut titles = IndexSet::new(alloc);
    for script in scripts {
        if titles.contains(&script.title) {
            return Err(Refused::At(script.line, ScriptKind::Duplicate));
        }
        titles.insert(script.title)?;
    }
    Ok(titles)
}

impl Scripts {
    /// The table of scripts, unless two are for one condition.
    pub(crate) fn from_vec(alloc: Global, list: Vec<Script>) -> Result<Scripts, ReadScripts>
        requires { AllByRecursion HasSteps list.items }
        ensures { AnswersTable result list.items }
    {
        let titles = titles_of(alloc, list.as_slice())?;
        Ok(Scripts { list, titles })
    }

    /// The script for a condition, found by a look-up in a table.
    #[tactic(auto, using(crate::proofs::TableLemmas::found_within, crate::proofs::TableLemmas::found_script, crate::proofs::TableLemmas::absent_script, crate::proofs::TableLemmas::found_steps))]
    pub fn find(&self, name: Name, number: u64) -> Option<&Script>
        ensures found { IfSome result (λ s. IsFound self.now name number s.now) }
        ensures absent { IfNone result (IsAbsent self.now name number) }
        // Its lines are steps.
        ensures steps { IfSome result (λ s. HasSteps s.now) }
    {
        match self.titles.get_index_of(&Title { name, number }) {
            Some(i) => Some(&self.list[i]),
            None => None,
        }
    }

    /// The scripts in the order of their lines.
    fn as_slice(&self) -> &[Script]
        ensures { result.now ≡ self.now }
    {
        self.list.as_slice()
    }
}

/// Whether each script is for a condition that is counted: of a routine's conditions those from 1 to its count.
/// NoSuch names the lowest line that begins a script for another condition. It takes no memory.
#[tactic(auto, using(crate::proofs::TableLemmas::known_none, crate::proofs::TableLemmas::known_more, crate::proofs::TableLemmas::known_all, crate::proofs::TableLemmas::unknown_at))]
pub fn known(scripts: &Scripts, counts: &[(Name, u64)]) -> Result<(), NoSuch>
    ensures ok { IfOk result (λ _. AreKnown counts.now scripts.now) }
    ensures err { IfErr result (λ e. IsUnknownAt counts.now scripts.now e.line.0) }
{
    for script in scripts.as_slice() {
        if !is_counted(script.title, counts) {
            return Err(NoSuch { line: script.line });
        }
    }
    Ok(())
}
