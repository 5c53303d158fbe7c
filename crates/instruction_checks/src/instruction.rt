//! Any instruction.

ghost use Rattle.std.specs.Prelude.{◌≡◌, IfOk};
ghost use Rattle.dtal_code.specs.Grammar.{IsInstr};
ghost use Rattle.dtal_code.specs.Passing as spec;
ghost use Rattle.instruction_checks.specs.Code.{Gives};
ghost use Rattle.instruction_checks.specs.Proving.{IsReady};
ghost use Rattle.instruction_checks.specs.Views.{AreCountable, IsSite, IsStanding, action_of};
ghost use Rattle.operation_rules.specs.Settings.{setting_of};
ghost use Rattle.xan_lin.specs.Subst.{VariablesRise};

use crate::action::{Action, action_in};
use crate::edges::go_to;
use crate::error::Broken;
use crate::going::{go_back, go_on};
use crate::lines::Checker;
use crate::site::Site;
use dtal_code::Instr;
use operation_rules::Operation;
use proof_lines::Line;
use state_types::StateType;
use xan_lin::Form;
use xan_seq::Seq;

// What an instruction does to the state before it.
fn act(
    site: &Site<'_>,
    checker: &mut Checker,
    action: &Action,
    values: &[(u32, Form)],
    by: &[Seq<Line>],
    state: &mut StateType,
) -> Result<(), Broken>
    requires site { IsSite site.now }
    requires ready { IsReady checker.old }
    requires countable { AreCountable by.now }
    requires rising { VariablesRise 0 values.now }
    requires standing { IsStanding site.now.setting.own.now.vars state.old }
    ensures gone { Gives (λ _. state.new) result
        (spec.verdict_by action.now.operation (setting_of site.now.setting) site.now.labels.now state.old (action_of action.now) values.now by.now) }
    ensures standing { IfOk result (λ _. IsStanding site.now.setting.own.now.vars state.new) }
    ensures ready { IfOk result (λ _. IsReady checker.new) }
{
    match &action.operation {
        Operation::Branch(_) | Operation::BranchTruth(_) | Operation::Jump => {
            go_to(site, checker, action, values, by, state)
        }
        Operation::Return => go_back(site, checker, action, by, state),
        _ => go_on(site, checker, action, by, state),
    }
}

/// What is asked of an instruction, and the state before the next one.
#[tactic(auto, unfolding(dtal_code::specs::Passing::instr_verdict))]
pub fn check_instruction(
    site: &Site<'_>,
    checker: &mut Checker,
    instr: &Instr,
    state: &mut StateType,
) -> Result<(), Broken>
    requires site { IsSite site.now }
    requires ready { IsReady checker.old }
    requires instr { IsInstr instr.now }
    requires standing { IsStanding site.now.setting.own.now.vars state.old }
    ensures gone { Gives (λ _. state.new) result (spec.instr_verdict (setting_of site.now.setting) site.now.labels.now state.old instr.now) }
    ensures standing { IfOk result (λ _. IsStanding site.now.setting.own.now.vars state.new) }
    ensures ready { IfOk result (λ _. IsReady checker.new) }
{
    let action = action_in(&instr.op);
    act(
        site,
        checker,
        &action,
        instr.edge.as_slice(),
        instr.by.as_slice(),
        state,
    )
}
