//! The forms that are listed for variables.
ghost use Rattle.std.specs.Prelude.{◌≡◌, true, false, nat_lt, option_map};
ghost use Rattle.std.specs.List.Sorted.{IsPartitionPoint};
ghost use Rattle.xan_lin.specs.Subst.{VariablesRise, listed};

use crate::form::Form;

// How many of the listed variables are less than this one.
fn count_before(values: &[(u32, Form)], var: u32) -> usize
    requires { VariablesRise 0 values.now }
    ensures { IsPartitionPoint (λ v. nat_lt v.0 var ≡ true) (λ v. nat_lt v.0 var ≡ false) values.now result }
{
    values.partition_point(|value| value.0 < var)
}

// The form that is listed for the variable.
pub(crate) fn form_of_variable(values: &[(u32, Form)], var: u32) -> Option<&Form>
    requires { VariablesRise 0 values.now }
    ensures { option_map (λ form. form.now) result ≡ listed var values.now }
{
    let at = count_before(values, var);
    let Some((first, form)) = values.get(at) else {
        return None;
    };
    if *first == var { Some(form) } else { None }
}
