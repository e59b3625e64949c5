ghost use Rattle.std.specs.Prelude.{◌≡◌, ◌+◌, ◌<◌, ◌^◌, length, IfOk, IfErr};
ghost use Rattle.sp_base.specs.Limits.{text_limit};
ghost use Rattle.sp_base.specs.Refused.{Answers, IsComplete};
ghost use Rattle.sp_script_text.specs.Files.{IsFile, IsCause};
ghost use Rattle.sp_script_text.specs.code.Bodies.{AnswersSyntax, IsWritten, IsNoStep, IsBody, BreaksBody, AnswersAll};

use crate::lines::{head_title, is_end, is_idle};
use crate::refusal::{ReadScripts, ScriptKind, StepRefusal};
use crate::script::{Script, Scripts, Title, Written};
use crate::stepping::read_step;
use bumpalo::Bump;
use sp_base::{Line, Refused, Seq, first_row};
use std::alloc::Global;

/// A line of a script as a step. Its terms are read and given up again.
fn written(alloc: Global, number: u32, line: &[u8]) -> Result<Written, ReadScripts>
    ensures { AnswersSyntax (IsWritten number line.now) (IsNoStep number line.now) result }
{
    let arena = Bump::new(alloc);
    match read_step(alloc, line, &arena) {
        Ok(_) => {}
        Err(StepRefusal::Syntax) => return Err(Refused::At(Line(number), ScriptKind::Syntax)),
        Err(StepRefusal::Memory) => return Err(Refused::Memory),
    }
    let text = Vec::from_slice(alloc, line)?;
    Ok(Written {
        line: Line(number),
        text: Seq::from_vec(text),
    })
}

/// A script after its first line, the number of the line after `end`, and what stands there.
#[tactic(auto, using(crate::proofs::BodyLemmas::part_begins, crate::proofs::BodyLemmas::body_open))]
fn script_body<'t>(
    alloc: Global,
    title: Title,
    number: u32,
    text: &'t [u8],
) -> Result<(Script, u32, &'t [u8]), ReadScripts>
    requires { number + 1 + length text.now < 2 ^ 32 }
    ensures { AnswersSyntax (IsBody title number text.now) (BreaksBody number text.now) result }
{
    let mut steps = Vec::new(alloc);
    let mut next = number + 1;
    let mut rest = text;
    while !rest.is_empty() {
        let row = first_row(rest);
        let line = row.line();
        let size = row.size();
        let (_, after) = rest.split_at(size);
        if is_end(line) {
            let script = Script {
                title,
                line: Line(number),
                steps: Seq::from_vec(steps),
                end: Line(next),
            };
            return Ok((script, next + 1, after));
        }
        if is_idle(line) {
            rest = after;
            next += 1;
        } else {
            match written(alloc, next, line) {
                Ok(step) => {
                    steps.push(step)?;
                    rest = after;
                    next += 1;
                }
                Err(refusal) => return Err(refusal),
            }
        }
    }
    Err(Refused::At(Line(next), ScriptKind::Syntax))
}

/// The scripts of a text in their order, also where two are for one condition.
#[tactic(auto, using(crate::proofs::BodyLemmas::done_begins, crate::proofs::BodyLemmas::done_all))]
fn all_scripts(alloc: Global, text: &[u8]) -> Result<Vec<Script>, ReadScripts>
    requires { length text.now < text_limit }
    ensures { AnswersAll text.now result }
{
    let mut scripts = Vec::new(alloc);
    let mut number = 1u32;
    let mut rest = text;
    while !rest.is_empty() {
        let row = first_row(rest);
        let line = row.line();
        let size = row.size();
        let (_, after) = rest.split_at(size);
        if is_idle(line) {
            rest = after;
            number += 1;
        } else {
            let Some(title) = head_title(line) else {
                return Err(Refused::At(Line(number), ScriptKind::Syntax));
            };
            match script_body(alloc, title, number, after) {
                Ok((script, next, after)) => {
                    scripts.push(script)?;
                    rest = after;
                    number = next;
                }
                Err(refusal) => return Err(refusal),
            }
        }
    }
    Ok(scripts)
}

/// The scripts of a text, each for a condition of its own.
#[tactic(auto, using(crate::proofs::FileLemmas::scripts_kept, crate::proofs::AnswerLemmas::answers_file, crate::proofs::AnswerLemmas::answers_refused))]
fn read_file(alloc: Global, text: &[u8]) -> Result<Scripts, ReadScripts>
    requires { length text.now < text_limit }
    ensures { Answers (IsFile text.now) (IsCause text.now) result }
{
    match all_scripts(alloc, text) {
        Ok(scripts) => Scripts::from_vec(alloc, scripts),
        Err(refusal) => Err(refusal),
    }
}

/// The scripts of a text: lines of blanks and lines that begin with `--`, and scripts, each of which begins with
/// `script NAME.k`, has one step a line and ends with `end`. LF or CRLF ends a line. The lowest line that isn't in the
/// grammar is Syntax; where there is none, the lowest line that begins a second script for a condition is Duplicate.
#[tactic(auto, using(crate::proofs::AnswerLemmas::complete_file))]
pub fn read_scripts(alloc: Global, text: &[u8]) -> Result<Scripts, ReadScripts>
    requires { length text.now < text_limit }
    ensures says { Answers (IsFile text.now) (IsCause text.now) result }
    // Each text that is a file of scripts is read, and each line that is wrong is refused, unless memory runs out.
    ensures complete { IsComplete (IsFile text.now) (IsCause text.now) result }
{
    read_file(alloc, text)
}
