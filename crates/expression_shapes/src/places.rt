//! Where parts of an expression begin, and whether parts follow.

ghost use Rattle.std.specs.Prelude.{◌≡◌, map};
ghost use Rattle.std.specs.Option.{option_map};
ghost use Rattle.xanadu_tree.specs.PlainTreeOf.{to_comparand, plain_comparison, plain_expression, plain_indices, plain_postfix, plain_primary, plain_product, plain_sum, plain_unary};
ghost use Rattle.xanadu_tree.specs.Written.{expression_at, sum_at, product_at, unary_at, postfix_at, primary_at};
ghost use Rattle.expression_shapes.specs.Expressions as spec;
ghost use Rattle.expression_shapes.specs.NodesOf.{conjunctions_of, negations_of, addends_of, factors_of};

use xanadu_tree::{
    Comparison, Conjunction, Expression, Negation, Op, Postfix, Primary, Product, Rel, Sum, Unary,
};

/// The place of an expression.
#[tactic(auto, using(xanadu_tree::proofs::TreeEquations::plain_nodes))]
pub fn place_of(e: &Expression) -> u32
    ensures { result ≡ expression_at (plain_expression e.now) }
{
    e.at
}

/// The place of a sum.
#[tactic(auto, using(xanadu_tree::proofs::TreeEquations::plain_nodes))]
pub fn place_of_sum(s: &Sum) -> u32
    ensures { result ≡ sum_at (plain_sum s.now) }
{
    s.at
}

/// The place of a product.
#[tactic(auto, using(xanadu_tree::proofs::TreeEquations::plain_nodes))]
pub fn place_of_product(p: &Product) -> u32
    ensures { result ≡ product_at (plain_product p.now) }
{
    p.at
}

/// The place of an operand of `*`, `/` or `%`.
#[tactic(auto, using(xanadu_tree::proofs::TreeEquations::plain_nodes))]
pub fn place_of_unary(u: &Unary) -> u32
    ensures { result ≡ unary_at (plain_unary u.now) }
{
    u.at
}

/// The place of a primary with its indices.
#[tactic(auto, using(xanadu_tree::proofs::TreeEquations::plain_nodes))]
pub fn place_of_postfix(p: &Postfix) -> u32
    ensures { result ≡ postfix_at (plain_postfix p.now) }
{
    p.at
}

/// The place of a primary.
#[tactic(auto, using(xanadu_tree::proofs::TreeEquations::plain_nodes))]
pub fn place_of_primary(primary: &Primary) -> u32
    ensures { result ≡ primary_at (plain_primary primary.now) }
{
    match primary {
        Primary::Number(_, at)
        | Primary::Truth(_, at)
        | Primary::Length(_, at)
        | Primary::New { at, .. }
        | Primary::Group(_, at) => *at,
        Primary::Variable(name) | Primary::Call(name, _) | Primary::Make(name, _) => name.at,
    }
}

/// Whether `||` follows.
pub fn has_conjunction(rest: &[(Conjunction, u32)]) -> bool
    ensures { result ≡ spec.has_conjunction (conjunctions_of rest.now) }
{
    if let [_, ..] = rest { true } else { false }
}

/// Whether `&&` follows.
pub fn has_negation(rest: &[(Negation, u32)]) -> bool
    ensures { result ≡ spec.has_negation (negations_of rest.now) }
{
    if let [_, ..] = rest { true } else { false }
}

/// Whether a comparison follows.
pub fn has_comparand(right: &Option<(Rel, Box<Sum>)>) -> bool
    ensures { result ≡ spec.has_comparand (to_comparand (option_map (λ r. (r.0, plain_sum r.1.value)) right.now)) }
{
    right.is_some()
}

/// Whether `+` or `-` follows.
pub fn has_addend(rest: &[(Op, Product, u32)]) -> bool
    ensures { result ≡ spec.has_addend (addends_of rest.now) }
{
    if let [_, ..] = rest { true } else { false }
}

/// Whether `*`, `/` or `%` follows.
pub fn has_factor(rest: &[(Op, Unary, u32)]) -> bool
    ensures { result ≡ spec.has_factor (factors_of rest.now) }
{
    if let [_, ..] = rest { true } else { false }
}

/// Whether an index follows.
pub fn has_index(indices: &[(Expression, u32)]) -> bool
    ensures { result ≡ spec.has_index (plain_indices indices.now) }
{
    if let [_, ..] = indices { true } else { false }
}

/// Whether a comparison has an operator or an index: else it is one primary.
#[tactic(auto, using(xanadu_tree::proofs::TreeEquations::plain_nodes))]
pub fn is_compound(c: &Comparison) -> bool
    ensures { result ≡ spec.is_compound (plain_comparison c.now) }
{
    let product = &c.left.first;
    let unary = &product.first;
    has_comparand(&c.right)
        || has_addend(&c.left.rest)
        || has_factor(&product.rest)
        || unary.negative
        || has_index(&unary.operand.indices)
}
