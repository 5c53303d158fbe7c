//! The sum of what stands for the terms of a form.
ghost use Rattle.std.specs.Prelude.{◌≡◌, ◌≤◌, [], length, ℤ};
ghost use Rattle.xan_lin.specs.Linear.{form_of, sized};
ghost use Rattle.xan_lin.specs.Subst.{VariablesRise, replaced_terms};
ghost use Rattle.xan_lin.specs.Terms.{IsRising};

use crate::form::Form;
use crate::product_sum::gathered_products;
use crate::replace::{Product, count_replaced, push_all_replaced};
use crate::term::{MOST_TERMS, Term};
use arrayvec::ArrayVec;

// The sum of what stands for the terms, which is put into an empty vector.
fn sum_over<const N: usize>(
    products: &mut ArrayVec<Product, N>,
    terms: &[Term],
    values: &[(u32, Form)],
    below: u32,
) -> ArrayVec<Term, 17>
    requires empty { products.old.items ≡ [] }
    requires room { length (replaced_terms values.now below terms.now) ≤ N }
    requires most { length (replaced_terms values.now below terms.now) ≤ 256 }
    requires listed { VariablesRise 0 values.now }
    ensures rising { IsRising 0 result.items }
    ensures same { (constant : ℤ) → sized result.items constant ≡ form_of (replaced_terms values.now below terms.now) constant }
{
    push_all_replaced(products, terms, values, below);
    gathered_products(products.as_slice())
}

// The sum of what stands for the terms, as far as 17 terms go, with numbers past the bound cut: it has the same answer as the sum itself.
// A vector is cleared as far as it has room, and few products are the rule.
pub(crate) fn replaced_sum(terms: &[Term], values: &[(u32, Form)], below: u32) -> ArrayVec<Term, 17>
    requires few { length terms.now ≤ 16 }
    requires listed { VariablesRise 0 values.now }
    ensures rising { IsRising 0 result.items }
    ensures same { (constant : ℤ) → sized result.items constant ≡ form_of (replaced_terms values.now below terms.now) constant }
{
    if count_replaced(terms, values, below) <= MOST_TERMS {
        let mut few: ArrayVec<Product, 16> = ArrayVec::new();
        sum_over(&mut few, terms, values, below)
    } else {
        let mut many: ArrayVec<Product, 256> = ArrayVec::new();
        sum_over(&mut many, terms, values, below)
    }
}
