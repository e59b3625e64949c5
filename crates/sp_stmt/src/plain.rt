ghost use Rattle.std.specs.Prelude.{◌≡◌};
ghost use Rattle.sp_expr.specs.Words.{AreIn};
ghost use Rattle.sp_stmt.specs.code.Bodies.{with_register, with_pair, with_stack_pair, alone, register_instr, pair_instr, stack_instr, moved, move_instr};

use crate::tokens::{arg_at, is_comma, pair_at, stack_pair_at};
use sp_base::Pair;
use sp_isa::{Arg, Instr, StackPair};
use sp_lex::Token;
use sp_words::{PairForm, RegisterForm, StackForm};

fn with_register(form: RegisterForm, y: Arg) -> Instr
    ensures { result ≡ with_register form y }
{
    match form {
        RegisterForm::Inr => Instr::Inr(y),
        RegisterForm::Dcr => Instr::Dcr(y),
        RegisterForm::Alu(op) => Instr::Alu(op, y),
    }
}

fn with_pair(form: PairForm, p: Pair) -> Instr
    ensures { result ≡ with_pair form p }
{
    match form {
        PairForm::Dad => Instr::Dad(p),
        PairForm::Inx => Instr::Inx(p),
        PairForm::Dcx => Instr::Dcx(p),
        PairForm::Stax => Instr::Stax(p),
        PairForm::Ldax => Instr::Ldax(p),
    }
}

fn with_stack_pair(form: StackForm, p: StackPair) -> Instr
    ensures { result ≡ with_stack_pair form p }
{
    match form {
        StackForm::Push => Instr::Push(p),
        StackForm::Pop => Instr::Pop(p),
    }
}

/// An instruction without operands.
pub(crate) fn alone(instr: Instr, tokens: &[Token]) -> Option<Instr>
    ensures { result ≡ alone instr tokens.now }
{
    match tokens {
        [] => Some(instr),
        [_, ..] => None,
    }
}

/// An instruction with a register or M.
#[tactic(auto, unfolding(crate::specs::code::Bodies::register_instr))]
pub(crate) fn register_instr(source: &[u8], form: RegisterForm, tokens: &[Token]) -> Option<Instr>
    requires { AreIn source.now tokens.now }
    ensures { result ≡ register_instr source.now form tokens.now }
{
    let [only] = tokens else {
        return None;
    };
    let y = arg_at(source, *only)?;
    Some(with_register(form, y))
}

/// An instruction with a register pair. Not every one is in the table.
#[tactic(auto, unfolding(crate::specs::code::Bodies::pair_instr))]
pub(crate) fn pair_instr(source: &[u8], form: PairForm, tokens: &[Token]) -> Option<Instr>
    requires { AreIn source.now tokens.now }
    ensures { result ≡ pair_instr source.now form tokens.now }
{
    let [only] = tokens else {
        return None;
    };
    let p = pair_at(source, *only)?;
    Some(with_pair(form, p))
}

/// An instruction with a pair that is pushed or popped.
#[tactic(auto, unfolding(crate::specs::code::Bodies::stack_instr))]
pub(crate) fn stack_instr(source: &[u8], form: StackForm, tokens: &[Token]) -> Option<Instr>
    requires { AreIn source.now tokens.now }
    ensures { result ≡ stack_instr source.now form tokens.now }
{
    let [only] = tokens else {
        return None;
    };
    let p = stack_pair_at(source, *only)?;
    Some(with_stack_pair(form, p))
}

fn moved(to: Option<Arg>, from: Option<Arg>) -> Option<Instr>
    ensures { result ≡ moved to from }
{
    match (to, from) {
        (Some(to), Some(from)) => Some(Instr::Mov(to, from)),
        _ => None,
    }
}

/// MOV with its two operands. That of M and M isn't in the table.
#[tactic(auto, unfolding(crate::specs::code::Bodies::move_instr))]
pub(crate) fn move_instr(source: &[u8], tokens: &[Token]) -> Option<Instr>
    requires { AreIn source.now tokens.now }
    ensures { result ≡ move_instr source.now tokens.now }
{
    let [to, comma, from] = tokens else {
        return None;
    };
    if is_comma(source, *comma) {
        moved(arg_at(source, *to), arg_at(source, *from))
    } else {
        None
    }
}
