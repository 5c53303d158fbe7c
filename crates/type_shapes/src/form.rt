//! Linear forms under way.

ghost use Rattle.std.specs.Prelude.{◌≡◌, OnOk, IfOk, cond, pos, negsuc, map, filter};
ghost use Rattle.type_shapes.specs.Code.{Gives};
ghost use Rattle.type_shapes.specs.FormOf.{form_of};
ghost use Rattle.type_shapes.specs.Linears as spec;

use std::alloc::Global;
use std::collections::BTreeMap;
use xan_io::Memory;
use xan_seq::Seq;
use xanadu_tree::{Linear, Sign};

/// A form to which terms are added.
#[derive(Drop)]
pub struct Form {
    coefficients: BTreeMap<u32, i128>,
    constant: i128,
}

impl Form {
    /// The form -1 where the row is strict, else the form 0.
    pub fn new(alloc: Global, strict: bool) -> Form
        ensures { form_of result ≡ spec.constant_form (cond strict (negsuc 0) (pos 0)) }
    {
        Form {
            coefficients: BTreeMap::new(alloc),
            constant: if strict { -1 } else { 0 },
        }
    }

    /// Adds so many times the variable.
    #[tactic(auto, unfolding(crate::specs::Linears::with_term, crate::specs::Linears::coefficient))]
    pub fn add_term(&mut self, variable: u32, times: &i128) -> Result<(), Memory>
        ensures { OnOk result (form_of self.new ≡ spec.with_term variable times.now (form_of self.old)) }
    {
        let before = self.coefficients.get(&variable).copied().unwrap_or(0);
        let Some(sum) = before.checked_add(*times) else {
            return Err(Memory);
        };
        self.coefficients.insert(variable, sum)?;
        Ok(())
    }

    /// Adds a number.
    #[tactic(auto, unfolding(crate::specs::Linears::with_constant))]
    pub fn add_constant(&mut self, number: &i128) -> Result<(), Memory>
        ensures { OnOk result (form_of self.new ≡ spec.with_constant number.now (form_of self.old)) }
    {
        let Some(sum) = self.constant.checked_add(*number) else {
            return Err(Memory);
        };
        self.constant = sum;
        Ok(())
    }

    /// The terms, without those that cancel.
    fn terms(&self, alloc: Global) -> Result<Vec<(i128, u32)>, Memory>
        ensures { IfOk result (λ x. x.items ≡ map spec.term_of (filter spec.is_term (form_of self.now).coefficients)) }
    {
        let terms = self
            .coefficients
            .iter()
            .filter(|entry| *entry.1 != 0)
            .map(|entry| (*entry.1, *entry.0))
            .collect(alloc)?;
        Ok(terms)
    }

    /// The form, without the variables that cancel.
    #[tactic(auto, using(crate::proofs::Integers::integers), unfolding(crate::specs::Linears::linear))]
    pub fn linear(&self, alloc: Global) -> Result<Linear, Memory>
        ensures { IfOk result (λ l. l ≡ spec.linear (form_of self.now)) }
    {
        Ok(Linear {
            terms: Seq::from_vec(self.terms(alloc)?),
            constant: self.constant,
        })
    }
}

/// The form that is this variable.
#[tactic(auto, unfolding(crate::specs::Linears::variable_form))]
pub fn variable_form(alloc: Global, variable: u32) -> Result<Linear, Memory>
    ensures { IfOk result (λ l. l ≡ spec.variable_form variable) }
{
    let mut terms = Vec::new(alloc);
    terms.push((1, variable))?;
    Ok(Linear {
        terms: Seq::from_vec(terms),
        constant: 0,
    })
}

/// The variable that the form is, where it is one alone, with coefficient 1.
#[tactic(auto, unfolding(crate::specs::Linears::lone))]
pub fn lone(form: &Linear) -> Option<u32>
    ensures { result ≡ spec.lone form.now.terms form.now.constant }
{
    let [(times, variable)] = form.terms.as_slice() else {
        return None;
    };
    if *times == 1 && form.constant == 0 {
        return Some(*variable);
    }
    None
}

/// The opposite sign.
pub fn opposite(sign: Sign) -> Sign
    ensures { result ≡ spec.opposite sign }
{
    match sign {
        Sign::Plus => Sign::Minus,
        Sign::Minus => Sign::Plus,
    }
}

/// The sign of a part within a whole that has a sign itself.
pub fn within(whole: Sign, part: Sign) -> Sign
    ensures { result ≡ spec.within whole part }
{
    match whole {
        Sign::Plus => part,
        Sign::Minus => opposite(part),
    }
}

/// The sign in front of an index expression.
pub fn first_sign(negative: bool) -> Sign
    ensures { result ≡ spec.first_sign negative }
{
    if negative { Sign::Minus } else { Sign::Plus }
}

/// The number with the sign.
pub fn signed(sign: Sign, number: &i64) -> i128
    ensures { result ≡ spec.signed sign number.now }
{
    match sign {
        Sign::Plus => i128::from(*number),
        Sign::Minus => -i128::from(*number),
    }
}
