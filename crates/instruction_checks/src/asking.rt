//! A test at a place.

ghost use Rattle.std.specs.Prelude.{◌≡◌, true, IfOk};
ghost use Rattle.dtal_code.specs.Verdicts as verdicts;
ghost use Rattle.instruction_checks.specs.Code.{Gives};

use crate::error::Broken;
use dtal_code::Rule;

/// The rule is kept where the test is true.
pub fn asks(test: bool, rule: Rule) -> Result<(), Broken>
    ensures verdict { Gives (λ _. tt) result (verdicts.asks test rule) }
    ensures holds { IfOk result (λ _. test ≡ true) }
{
    if test {
        Ok(())
    } else {
        Err(Broken::Rule(rule))
    }
}
