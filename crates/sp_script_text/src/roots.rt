//! The sort of a term, by its root.
ghost use Rattle.std.specs.Prelude.{◌≡◌};
ghost use Rattle.sp_term.specs.Terms.{tree_of};
ghost use Rattle.sp_script_text.specs.code.Arguments.{is_memory_name, is_memory, is_formula, is_int, literal_at};

use sp_term::{Kind, Term, Var};

fn is_memory_name(v: Var) -> bool
    ensures { result ≡ is_memory_name v }
{
    match v {
        Var::MemEntry | Var::Mem | Var::MemAfter(_) => true,
        _ => false,
    }
}

fn is_memory_kind(kind: &Kind) -> bool
    ensures { result ≡ is_memory (tree_of kind.now) }
{
    match kind {
        Kind::Variable(v) => is_memory_name(*v),
        Kind::Update(_, _, _) => true,
        _ => false,
    }
}

fn is_formula_kind(kind: &Kind) -> bool
    ensures { result ≡ is_formula (tree_of kind.now) }
{
    match kind {
        Kind::Truth(_)
        | Kind::Equal(_, _)
        | Kind::Less(_, _)
        | Kind::LessOrEqual(_, _)
        | Kind::Not(_)
        | Kind::And(_, _)
        | Kind::Or(_, _)
        | Kind::Implies(_, _)
        | Kind::Iff(_, _)
        | Kind::ForAll(_, _, _, _)
        | Kind::ForSome(_, _, _, _) => true,
        _ => false,
    }
}

/// The number that a literal is.
fn literal_kind(kind: &Kind) -> Option<i64>
    ensures { result ≡ literal_at (tree_of kind.now) }
{
    match kind {
        Kind::Literal(n) => Some(*n),
        _ => None,
    }
}

pub(crate) fn is_memory(t: &Term) -> bool
    ensures { result ≡ is_memory t.now }
{
    is_memory_kind(t.kind())
}

pub(crate) fn is_formula(t: &Term) -> bool
    ensures { result ≡ is_formula t.now }
{
    is_formula_kind(t.kind())
}

pub(crate) fn is_int(t: &Term) -> bool
    ensures { result ≡ is_int t.now }
{
    !is_formula(t) && !is_memory(t)
}

pub(crate) fn literal(t: &Term) -> Option<i64>
    ensures { result ≡ literal_at t.now }
{
    literal_kind(t.kind())
}
