//! Why a place does not pass.

ghost use Rattle.std.specs.Prelude.{◌≡◌};
ghost use Rattle.instruction_checks.specs.Code.{of_rule};
ghost use Rattle.instruction_checks.specs.declared.error.Broken.TheVariants as broken;
ghost use Rattle.dtal_code.specs.Verdicts as verdicts;

use dtal_code::Rule;
use operation_rules::{Fault, RuleError};
use xan_lin::Memory;

/// Why a place does not pass.
#[derive(Clone, Copy, Drop)]
pub enum Broken {
    /// The first rule that fails there.
    Rule(Rule),
    /// Memory ran out.
    Memory,
}

// The rule by which an operation is refused.
fn rule_of(fault: Fault) -> Rule
    ensures { result ≡ verdicts.rule_of fault }
{
    match fault {
        Fault::NoTarget => Rule::Target,
        Fault::NoType => Rule::NoType,
        Fault::NoPlace => Rule::Place,
        Fault::WrongCount => Rule::Count,
        Fault::WrongKind => Rule::Kind,
        Fault::Large(_) => Rule::Form,
        Fault::Full(_) => Rule::Size,
    }
}

impl From<RuleError> for Broken {
    ghost from_gives = { λ why error. error ≡ of_rule why };

    fn from(why: RuleError) -> Broken {
        match why {
            RuleError::Fault(fault) => Broken::Rule(rule_of(fault)),
            RuleError::Memory => Broken::Memory,
        }
    }
}

impl From<Memory> for Broken {
    ghost from_gives = { λ _ error. error ≡ broken.Memory };

    fn from(_error: Memory) -> Broken {
        Broken::Memory
    }
}
