//! Types of words.

ghost use Rattle.std.specs.Prelude.{◌≡◌, ◌↔◌, IsTrue, option_map};
ghost use Rattle.xan_lin.specs.Linear.{NamesBelow};
ghost use Rattle.xan_lin.specs.Subst.{VariablesRise};
ghost use Rattle.state_types.specs.Types as spec;

use xan_lin::{Form, TooLarge};

/// The number of a closed type in its table.
pub type TypeId = u32;

/// What a word is.
#[derive(Drop)]
pub enum Ty {
    /// A number: the value of the form. A source's `unit` is this type of the form 0.
    Int(Form),
    /// 0 or 1.
    Bool,
    /// An array whose cells have the closed type of this number, and whose length is the value of the form.
    Array(TypeId, Form),
    /// A tuple of the closed type of this number.
    Named(TypeId),
}

impl Ty {
    /// An equal type.
    pub fn copy(&self) -> Ty
        ensures { result ≡ self.now }
    {
        match self {
            Ty::Int(index) => Ty::Int(index.copy()),
            Ty::Bool => Ty::Bool,
            Ty::Array(id, index) => Ty::Array(*id, index.copy()),
            Ty::Named(id) => Ty::Named(*id),
        }
    }

    /// Whether its index names only variables less than `vars`.
    pub fn names_below(&self, vars: u32) -> bool
        ensures { IsTrue result ↔ spec.TypeBelow vars self.now }
    {
        match self {
            Ty::Int(index) | Ty::Array(_, index) => form_names_below(index, vars),
            Ty::Bool | Ty::Named(_) => true,
        }
    }

    /// The value of an int, or the length of an array.
    pub fn index(&self) -> Option<&Form>
        ensures { option_map (λ form. form.now) result ≡ spec.index_of self.now }
    {
        match self {
            Ty::Int(index) | Ty::Array(_, index) => Some(index),
            Ty::Bool | Ty::Named(_) => None,
        }
    }

    /// Whether the types differ in their indices at most.
    pub fn is_like(&self, other: &Ty) -> bool
        ensures { result ≡ spec.same_kind self.now other.now }
    {
        match (self, other) {
            (Ty::Int(_), Ty::Int(_)) | (Ty::Bool, Ty::Bool) => true,
            (Ty::Array(left, _), Ty::Array(right, _)) | (Ty::Named(left), Ty::Named(right)) => {
                left == right
            }
            _ => false,
        }
    }
}

// Whether the form names only variables less than `vars`.
pub(crate) fn form_names_below(form: &Form, vars: u32) -> bool
    ensures { IsTrue result ↔ NamesBelow vars form.now }
{
    form.terms().iter().all(|term| term.var < vars)
}

/// The type in which all listed variables are replaced at once, each by the form that stands beside it. A variable that is not listed
/// stays where it is less than `below`, and becomes 0 elsewhere. The listed variables rise. `Terms` and `Magnitude` come where the exact
/// index is past the bounds of a form, as at `Form::subst`. It takes no memory.
#[tactic(auto, unfolding(crate::specs::Types::subst_ty))]
pub fn subst_type(ty: &Ty, values: &[(u32, Form)], below: u32) -> Result<Ty, TooLarge>
    requires { VariablesRise 0 values.now }
    ensures { result ≡ spec.subst_ty values.now below ty.now }
{
    match ty {
        Ty::Int(index) => Ok(Ty::Int(index.subst(values, below)?)),
        Ty::Bool => Ok(Ty::Bool),
        Ty::Array(id, index) => Ok(Ty::Array(*id, index.subst(values, below)?)),
        Ty::Named(id) => Ok(Ty::Named(*id)),
    }
}
