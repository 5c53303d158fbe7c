//! What the exact results mean: their values, under every assignment.
ghost use Rattle.std.specs.Prelude.{◌≡◌, ℕ, ℤ, pos, ◌+ℤ◌, ◌-ℤ◌, ◌*ℤ◌, neg_ℤ, List, Ok};
ghost use Rattle.xan_lin.specs.Linear.{Linear, sum_of, difference_of, excess_of, product_of, negated_row_of, form_of, NamesBelow};
ghost use Rattle.xan_lin.specs.Subst.{Gives, given_values, subst_of};
ghost use Rattle.xan_lin.specs.Value.{value_of, value_of_terms};
ghost use Rattle.xan_lin.specs.declared.term.Term.{Term};

/// The value of the form of some terms and a constant is the sum of the terms' values and the constant.
pub fn terms_add_their_values()
    ensures { (values : List ℤ) (ts : List Term) (constant : ℤ) (form : Linear) → form_of ts constant ≡ Ok form
        → value_of values form ≡ value_of_terms values ts +ℤ constant }
{}

/// The value of a sum is the sum of the values.
pub fn sum_adds_the_values()
    ensures { (values : List ℤ) (e f sum : Linear) → sum_of e f ≡ Ok sum → value_of values sum ≡ value_of values e +ℤ value_of values f }
{}

/// The value of a difference is the difference of the values.
pub fn difference_subtracts_the_values()
    ensures { (values : List ℤ) (e f difference : Linear) → difference_of e f ≡ Ok difference
        → value_of values difference ≡ value_of values e -ℤ value_of values f }
{}

/// The value of the excess row of two forms is the difference of the values less 1.
pub fn excess_takes_the_difference_less_one()
    ensures { (values : List ℤ) (e f row : Linear) → excess_of e f ≡ Ok row → value_of values row ≡ (value_of values e -ℤ value_of values f) -ℤ pos 1 }
{}

/// The value of a product by a number is the product of the value by it.
pub fn product_multiplies_the_value()
    ensures { (values : List ℤ) (e product : Linear) (by : ℤ) → product_of e by ≡ Ok product → value_of values product ≡ value_of values e *ℤ by }
{}

/// The value of the negated row of `e` is `-e - 1`.
pub fn negated_row_turns_the_value()
    ensures { (values : List ℤ) (e row : Linear) → negated_row_of e ≡ Ok row → value_of values row ≡ neg_ℤ (value_of values e) -ℤ pos 1 }
{}

/// The value of a form in which the variables are replaced is the value of the form under any assignment that gives each of its
/// variables the value of what stands for it.
pub fn subst_takes_given_values()
    ensures { (assignment given : List ℤ) (values : List (ℕ × Linear)) (below : ℕ) (e form : Linear) → Gives assignment values below e given
        → subst_of values below e ≡ Ok form → value_of assignment form ≡ value_of given e }
{}

/// The same under the assignment that lists these values, where the form names only so many variables.
pub fn subst_takes_the_values()
    ensures { (assignment : List ℤ) (values : List (ℕ × Linear)) (below vars : ℕ) (e form : Linear) → NamesBelow vars e
        → subst_of values below e ≡ Ok form → value_of assignment form ≡ value_of (given_values assignment values below vars) e }
{}
