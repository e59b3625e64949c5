//! The coefficients of a polynomial, each product found at once by its sorted atoms.

ghost use Rattle.std.specs.Prelude.{◌≡◌, ◌<◌, ◌^◌, ◌||◌, ◌+ℤ◌, ℕ, pos, [], IfOk, FitsSigned, nat_eq, int_lt, IsPermutation, IsSorted};
ghost use Rattle.std.specs.Int.{w128};
ghost use Rattle.std.specs.Ordering.{int_eq, nat_cmp};
ghost use Rattle.sp_linear.specs.Polynomials.{coefficient};
ghost use Rattle.sp_linear.specs.code.Sums.{weight};
ghost use Rattle.sp_linear.specs.code.Tests.{is_empty, zero_apart, is_negative, is_nothing};
ghost use Rattle.sp_linear.specs.code.Table.{sum_at};

use crate::product::Product;
use indexmap::IndexMap;
use sp_base::Memory;
use std::alloc::Global;
use std::marker::Model;

/// A polynomial, with the sum of the numbers before each of its products. A contract sees it as the list of its monomials.
#[derive(Drop)]
pub(crate) struct Polynomial {
    products: Vec<Product>,
    sums: IndexMap<Vec<usize>, i128>,
}

impl Model for Polynomial {
    ghost use Rattle.std.specs.Prelude.{ℕ, List};
    ghost use Rattle.sp_linear.specs.Polynomials.{Monomial};
    ghost use Rattle.sp_linear.specs.code.Table.{AreSums};

    ghost Value = { List (Monomial ℕ) };

    ghost view = { λ p. p.products.items };

    ghost invariant = { λ p. AreSums p.products.items p.sums.entries };
}

/// The atoms of a product by rising places.
fn sorted(atoms: &Vec<usize>) -> Result<Vec<usize>, Memory>
    ensures sorted { IfOk result (λ p. IsSorted nat_cmp p.items) }
    ensures same { IfOk result (λ p. IsPermutation atoms.now.items p.items) }
{
    let mut p = atoms.clone()?;
    p.sort()?;
    Ok(p)
}

fn sum(sums: &IndexMap<Vec<usize>, i128>, p: &Vec<usize>) -> i128
    ensures { result ≡ sum_at sums.now.entries p.now.items }
{
    match sums.get(p) {
        Some(c) => *c,
        None => 0,
    }
}

fn plus(a: i128, b: i128) -> i128
    requires { FitsSigned w128 (a +ℤ b) }
    ensures { result ≡ a +ℤ b }
{
    a + b
}

impl Polynomial {
    /// The polynomial with these monomials.
    pub(crate) fn new(alloc: Global, products: Vec<Product>) -> Result<Polynomial, Memory>
        requires { weight products.items < 2 ^ 127 }
        ensures { IfOk result (λ p. p ≡ products.items) }
    {
        let mut sums = IndexMap::new(alloc);
        for m in &products {
            let p = sorted(&m.atoms)?;
            let c = plus(sum(&sums, &p), m.number);
            sums.insert(p, c)?;
        }
        Ok(Polynomial { products, sums })
    }

    /// The coefficient of a product.
    fn coefficient(&self, atoms: &Vec<usize>) -> Result<i128, Memory>
        ensures { IfOk result (λ c. c ≡ coefficient nat_eq atoms.now.items self.now) }
    {
        let p = sorted(atoms)?;
        Ok(sum(&self.sums, &p))
    }

    /// The number without atoms.
    fn constant(&self, alloc: Global) -> Result<i128, Memory>
        ensures { IfOk result (λ c. c ≡ coefficient nat_eq [] self.now) }
    {
        self.coefficient(&Vec::new(alloc))
    }

    fn is_zero_at(&self, m: &Product) -> Result<bool, Memory>
        ensures { IfOk result (λ b. b ≡ (is_empty m.now.atoms || int_eq (coefficient nat_eq m.now.atoms self.now) (pos 0))) }
    {
        if m.atoms.is_empty() {
            return Ok(true);
        }
        let c = self.coefficient(&m.atoms)?;
        Ok(c == 0)
    }

    /// Whether each product but the empty one has the coefficient 0.
    fn others_are_zero(&self) -> Result<bool, Memory>
        ensures { IfOk result (λ b. b ≡ zero_apart nat_eq self.now self.now) }
    {
        for m in &self.products {
            let zero = self.is_zero_at(m)?;
            if !zero {
                return Ok(false);
            }
        }
        Ok(true)
    }

    /// Whether it is a negative number without atoms.
    pub(crate) fn is_negative(&self, alloc: Global) -> Result<bool, Memory>
        ensures { IfOk result (λ b. b ≡ is_negative nat_eq self.now) }
    {
        let c = self.constant(alloc)?;
        if c < 0 {
            self.others_are_zero()
        } else {
            Ok(false)
        }
    }

    /// Whether every product has the coefficient 0.
    pub(crate) fn is_nothing(&self, alloc: Global) -> Result<bool, Memory>
        ensures { IfOk result (λ b. b ≡ is_nothing nat_eq self.now) }
    {
        let c = self.constant(alloc)?;
        if c == 0 {
            self.others_are_zero()
        } else {
            Ok(false)
        }
    }
}
