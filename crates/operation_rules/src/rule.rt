//! What a rule says, and the kinds of rules.

ghost use Rattle.std.specs.Prelude.{◌≡◌, [], ◌∷◌, IfOk};
ghost use Rattle.operation_rules.specs.Rules as spec;

use state_types::Ty;
use std::alloc::Global;
use xan_lin::{Form, Memory, TooLarge};
use xan_seq::Seq;

/// What an operation demands of the types that it reads, and what it gives.
#[derive(Drop)]
pub struct Rule {
    /// The rows that it demands, in order.
    pub demands: Seq<Form>,
    /// How many fresh variables there are.
    pub fresh: u32,
    /// The rows that are taken to hold, where they are within the bounds.
    pub assumed: Seq<Result<Form, TooLarge>>,
    /// The types of what is written, which have to be within the bounds.
    pub given: Seq<Result<Ty, TooLarge>>,
}

/// The list of one.
pub(crate) fn single<T: Drop>(alloc: Global, element: T) -> Result<Vec<T>, Memory>
    ensures { IfOk result (λ made. made.items ≡ element ∷ []) }
{
    let mut made = Vec::new(alloc);
    let Ok(()) = made.push(element) else {
        return Err(Memory);
    };
    Ok(made)
}

/// Nothing is fresh, and nothing is given.
pub(crate) fn gives_nothing(alloc: Global, demands: Vec<Form>) -> Rule
    ensures { result ≡ spec.gives demands.items [] }
{
    Rule {
        demands: Seq::from_vec(demands),
        fresh: 0,
        assumed: Seq::from_vec(Vec::new(alloc)),
        given: Seq::from_vec(Vec::new(alloc)),
    }
}

/// Nothing is fresh, and this type is given.
pub(crate) fn gives_type(alloc: Global, demands: Vec<Form>, ty: Ty) -> Result<Rule, Memory>
    ensures { IfOk result (λ rule. rule ≡ spec.gives demands.items (ty ∷ [])) }
{
    Ok(Rule {
        demands: Seq::from_vec(demands),
        fresh: 0,
        assumed: Seq::from_vec(Vec::new(alloc)),
        given: Seq::from_vec(single(alloc, Ok(ty))?),
    })
}

/// A fresh number of which rows hold.
pub(crate) fn gives_fresh(
    alloc: Global,
    first: u32,
    demands: Vec<Form>,
    rows: Vec<Result<Form, TooLarge>>,
) -> Result<Rule, Memory>
    ensures { IfOk result (λ rule. rule ≡ spec.gives_fresh first demands.items rows.items) }
{
    Ok(Rule {
        demands: Seq::from_vec(demands),
        fresh: 1,
        assumed: Seq::from_vec(rows),
        given: Seq::from_vec(single(alloc, Ok(Ty::Int(Form::variable(first))))?),
    })
}

/// A number with the value of a form, or one of which nothing is known where the form is past the bounds.
pub(crate) fn gives_number(
    alloc: Global,
    first: u32,
    form: Result<Form, TooLarge>,
) -> Result<Rule, Memory>
    ensures { IfOk result (λ rule. rule ≡ spec.gives_number first form) }
{
    match form {
        Ok(form) => gives_type(alloc, Vec::new(alloc), Ty::Int(form)),
        Err(_) => gives_fresh(alloc, first, Vec::new(alloc), Vec::new(alloc)),
    }
}
