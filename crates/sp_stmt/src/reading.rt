ghost use Rattle.std.specs.Prelude.{◌≡◌, ◌≤◌, ◌<◌, ◌+◌, length, count_by, IfOk, All};
ghost use Rattle.sp_base.specs.Refused.{IsComplete};
ghost use Rattle.sp_base.specs.Refused as refusal;
ghost use Rattle.sp_expr.specs.Words.{AreIn};
ghost use Rattle.sp_lex.specs.Reading.{AreLines};
ghost use Rattle.sp_stmt.specs.code.Answers.{Answers, refusal_at};
ghost use Rattle.sp_stmt.specs.code.Reading.{statement, refuses_label, coded, labelled, assigning, assigned, statement_of, is_statement};
ghost use Rattle.sp_stmt.specs.Source.{AreStatementsOf, IsUnread};
ghost use Rattle.sp_stmt.specs.Statements.{IsStatement};

use crate::body::{Body, body_of, with_expression};
use crate::operand::Operands;
use crate::refusal::{StatementKind, StatementRefusal};
use crate::statement::{Code, Statement, Statements};
use crate::tokens::{assignment_at, is_colon, mnemonic_at, own_name_at};
use sp_base::{Line, Name, Refused};
use sp_expr::ParseRefusal;
use sp_lex::{LineKind, Lines, SourceLine, Token};
use sp_words::{Assignment, ExpressionKind, Mnemonic};
use std::alloc::Global;

fn statement(line: Line, label: Option<Name>, body: Body) -> Statement
    ensures { result ≡ statement line.0 label body }
{
    let Body { code, operands } = body;
    Statement {
        line,
        label,
        code,
        operands,
    }
}

/// Whether no label may stand before a directive.
fn refuses_label(mnemonic: Mnemonic) -> bool
    ensures { result ≡ refuses_label mnemonic }
{
    match mnemonic {
        Mnemonic::Org | Mnemonic::End => true,
        _ => false,
    }
}

/// A statement with this label, if any, and a code.
#[tactic(auto, unfolding(crate::specs::code::Reading::coded))]
fn coded(
    alloc: Global,
    line: Line,
    label: Option<Name>,
    source: &[u8],
    tokens: &[Token],
) -> Result<Statement, ParseRefusal>
    requires { AreIn source.now tokens.now }
    ensures { Answers result (coded line.0 label source.now tokens.now) }
{
    let [first, operands @ ..] = tokens else {
        return Err(ParseRefusal::Syntax);
    };
    let Some(mnemonic) = mnemonic_at(source, *first) else {
        return Err(ParseRefusal::Syntax);
    };
    if label.is_some() && refuses_label(mnemonic) {
        return Err(ParseRefusal::Syntax);
    }
    let body = body_of(alloc, mnemonic, source, operands)?;
    Ok(statement(line, label, body))
}

/// What stands behind a label and its colon.
fn labelled(
    alloc: Global,
    line: Line,
    label: Option<Name>,
    source: &[u8],
    rest: &[Token],
) -> Result<Statement, ParseRefusal>
    requires { AreIn source.now rest.now }
    ensures { Answers result (labelled line.0 label source.now rest.now) }
{
    let Some(label) = label else {
        return Err(ParseRefusal::Syntax);
    };
    match rest {
        [] => Ok(Statement {
            line,
            label: Some(label),
            code: Code::Nothing,
            operands: Operands::from_vec(Vec::new(alloc)),
        }),
        [_, ..] => coded(alloc, line, Some(label), source, rest),
    }
}

fn assigning(form: Assignment, name: Name) -> Code
    ensures { result ≡ assigning form name }
{
    match form {
        Assignment::Equ => Code::Equ(name),
        Assignment::Set => Code::Set(name),
    }
}

/// EQU or SET behind a name.
fn assigned(
    alloc: Global,
    line: Line,
    form: Assignment,
    name: Option<Name>,
    source: &[u8],
    rest: &[Token],
) -> Result<Statement, ParseRefusal>
    requires { AreIn source.now rest.now }
    ensures { Answers result (assigned line.0 form name source.now rest.now) }
{
    let Some(name) = name else {
        return Err(ParseRefusal::Syntax);
    };
    let code = assigning(form, name);
    let body = with_expression(alloc, ExpressionKind::Word, code, source, rest)?;
    Ok(statement(line, None, body))
}

/// The statement of a line.
#[tactic(auto, unfolding(crate::specs::code::Reading::statement_of))]
fn statement_of(
    alloc: Global,
    line: Line,
    source: &[u8],
    tokens: &[Token],
) -> Result<Statement, ParseRefusal>
    requires { AreIn source.now tokens.now }
    ensures { Answers result (statement_of source.now line.0 tokens.now) }
{
    let [first, second, rest @ ..] = tokens else {
        return coded(alloc, line, None, source, tokens);
    };
    if is_colon(source, *second) {
        return labelled(alloc, line, own_name_at(source, *first), source, rest);
    }
    match assignment_at(source, *second) {
        Some(form) => {
            let name = own_name_at(source, *first);
            assigned(alloc, line, form, name, source, rest)
        }
        None => coded(alloc, line, None, source, tokens),
    }
}

fn is_statement(line: &SourceLine) -> bool
    ensures { result ≡ is_statement line.now.kind }
{
    match line.kind {
        LineKind::Statement => true,
        LineKind::Empty | LineKind::Annotation => false,
    }
}

/// The refusal of a source for that of this line.
fn refusal_at(refusal: ParseRefusal, line: Line) -> StatementRefusal
    ensures { result ≡ refusal_at refusal line }
{
    match refusal {
        ParseRefusal::Syntax => Refused::At(line, StatementKind::Syntax),
        ParseRefusal::TooDeep => Refused::At(line, StatementKind::TooDeep),
        ParseRefusal::Memory => Refused::Memory,
    }
}

/// How many statements lines have.
fn statement_count(lines: &[SourceLine]) -> usize
    ensures { result ≡ count_by (λ line. is_statement line.kind) lines.now }
{
    lines.iter().filter(|line| is_statement(line)).count()
}

/// The statements of a source's lines. A refusal names the lowest line that is no statement; annotations and empty lines
/// have none.
pub fn statements(
    alloc: Global,
    source: &[u8],
    lines: &Lines,
) -> Result<Statements, StatementRefusal>
    requires lines { AreLines source.now lines.now }
    requires short { length source.now < 4294967295 }
    ensures right { refusal.Answers (AreStatementsOf source.now lines.now) (IsUnread source.now lines.now) result }
    ensures complete { IsComplete (AreStatementsOf source.now lines.now) (IsUnread source.now lines.now) result }
    ensures each { IfOk result (λ found. All IsStatement found) }
{
    let lines = lines.as_slice();
    let mut statements = Vec::with_capacity(alloc, statement_count(lines))?;
    for (i, line) in lines.iter().enumerate() {
        if !is_statement(line) {
            continue;
        }
        let number = Line((i + 1) as u32);
        match statement_of(alloc, number, source, line.tokens.as_slice()) {
            Ok(statement) => statements.push(statement)?,
            Err(refusal) => return Err(refusal_at(refusal, number)),
        }
    }
    Ok(Statements::from_vec(statements))
}
