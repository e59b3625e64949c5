//! Whole numbers times products of atoms, each atom a place of a pool.

ghost use Rattle.std.specs.Prelude.{◌≡◌, ℕ, List, OnOk, IfOk, ◌*◌, ◌<◌, ◌^◌, ◌*ℤ◌, ◌++◌, [], ◌∷◌, FitsSigned, unsigned_abs};
ghost use Rattle.std.specs.Int.{w128};
ghost use Rattle.sp_linear.specs.Polynomials.{times_monomial, times_one, multiply, number_only, atom_only};
ghost use Rattle.sp_linear.specs.code.Sums.{weight};

use sp_base::Memory;
use std::alloc::Global;
use std::marker::Model;

/// A number times a product of atoms.
#[derive(Drop)]
pub(crate) struct Product {
    pub(crate) number: i128,
    pub(crate) atoms: Vec<usize>,
}

impl Model for Product {
    ghost use Rattle.std.specs.Prelude.{ℕ};
    ghost use Rattle.sp_linear.specs.Polynomials.{Monomial};

    ghost Value = { Monomial ℕ };

    ghost view = { λ m. record { number = m.number; atoms = m.atoms.items } };
}

/// A number without atoms.
pub(crate) fn number(alloc: Global, n: i64) -> Product
    ensures { result ≡ number_only n }
{
    Product {
        number: n as i128,
        atoms: Vec::new(alloc),
    }
}

/// An atom, once.
pub(crate) fn atom(alloc: Global, place: usize) -> Result<Product, Memory>
    ensures { IfOk result (λ m. m ≡ atom_only place) }
{
    let mut atoms = Vec::new(alloc);
    atoms.push(place)?;
    Ok(Product { number: 1, atoms })
}

fn joined(m: &Product, n: &Product) -> Result<Product, Memory>
    requires { FitsSigned w128 (m.now.number *ℤ n.now.number) }
    ensures { IfOk result (λ p. p ≡ times_monomial m.now n.now) }
{
    let mut atoms = m.atoms.clone()?;
    atoms.extend_from_slice(n.atoms.as_slice())?;
    Ok(Product {
        number: m.number * n.number,
        atoms,
    })
}

/// Appends a monomial times each of a polynomial.
pub(crate) fn add_times(out: &mut Vec<Product>, m: &Product, ns: &[Product]) -> Result<(), Memory>
    requires { unsigned_abs m.now.number * weight ns.now < 2 ^ 127 }
    ensures { OnOk result (out.new.items ≡ out.old.items ++ times_one m.now ns.now) }
{
    for n in ns {
        let p = joined(m, n)?;
        out.push(p)?;
    }
    Ok(())
}

/// The product of two polynomials.
pub(crate) fn multiplied(
    alloc: Global,
    ms: &[Product],
    ns: &[Product],
) -> Result<Vec<Product>, Memory>
    requires { weight ms.now * weight ns.now < 2 ^ 127 }
    ensures { IfOk result (λ out. out.items ≡ multiply ms.now ns.now) }
{
    let mut out = Vec::new(alloc);
    for m in ms {
        add_times(&mut out, m, ns)?;
    }
    Ok(out)
}
