//! Statements with blocks, and blocks.

ghost use Rattle.std.specs.Prelude.{◌≡◌, ◌+◌, ◌≤◌, length, IfOk};
ghost use Rattle.constraint_elaborator.specs.BlockViews as views;
ghost use Rattle.join_elaborator.specs.Changed.{changed_by};
ghost use Rattle.header_elaborator.specs.Code.{Gives, Steps};
ghost use Rattle.expression_elaborator.specs.Views.{IsSite, site_of, state_of};
ghost use Rattle.join_elaborator.specs.JoinViews.{joint_of};
ghost use Rattle.typed_core.specs.Joins.{stated};
ghost use Rattle.typed_core.specs.States.{point};
ghost use Rattle.typed_core.specs.Statements as spec;
ghost use Rattle.xanadu_tree.specs.BodyRules as rules;
ghost use Rattle.xanadu_tree.specs.Plain as core;
ghost use Rattle.xanadu_tree.specs.PlainOf.{plain_block, plain_stmt, plain_test};

use crate::entering::{enter, enter_if, go_on};
use crate::statements::{assign, call, give_back, print, split, store};
use expression_elaborator::{Site, State, note_here, note_state, tested};
use header_elaborator::{Failure, Stop};
use index_sorts::Context;
use join_elaborator::{Blocks, Joint, joined};
use state_types::{Places, StateType};
use xanadu_tree::{Clause, CoreStmt, Test};

/// Whether control can come to what stands behind the statement.
#[cycle(completes)]
#[tactic(auto, using(xanadu_tree::proofs::Equations::plain_trees))]
fn completes(statement: &CoreStmt) -> bool
    ensures { result ≡ rules.completes (plain_stmt statement.now) }
{
    match statement {
        CoreStmt::If {
            on_true,
            on_false,
            ..
        } => {
            let one = completes_all(on_true);
            let two = completes_all(on_false);
            one || two
        }
        CoreStmt::Return(_, _) => false,
        CoreStmt::Set(_, _)
        | CoreStmt::Split(_, _, _)
        | CoreStmt::Store(_, _, _, _)
        | CoreStmt::Do(_)
        | CoreStmt::Print(_)
        | CoreStmt::While { .. } => true,
    }
}

/// The same of a block, whose end is its last statement's.
#[cycle(completes)]
#[tactic(auto, using(xanadu_tree::proofs::Equations::plain_trees))]
fn completes_all(block: &[CoreStmt]) -> bool
    ensures { result ≡ rules.completes_all (plain_block block.now) }
{
    let mut end = true;
    for statement in block {
        end = completes(statement);
    }
    end
}

/// Where the branches of an `if` begin: what was known before its test, and what is known where that is false.
#[derive(Drop)]
struct Begun {
    before: StateType,
    on_false: Context,
}

/// The end of the first branch, and whether each completes.
#[derive(Drop)]
struct Ends {
    one: StateType,
    one_completes: bool,
    two_completes: bool,
}

/// From before an `if` to where its first branch begins.
#[tactic(auto, unfolding(crate::specs::BlockViews::begun_if))]
fn begin_if(test: &Test, site: &Site<'_>, st: &mut State) -> Result<Begun, Stop>
    requires { IsSite site.now }
    ensures begun { Gives (λ begun. (begun.on_false.rows, state_of st.new)) result (views.begun_if (site_of site.now) (plain_test test.now) (state_of st.old)) }
    ensures before { IfOk result (λ begun. begun.before ≡ point (state_of st.old)) }
    ensures grown { IfOk result (λ begun. (st.old.ctx.vars ≤ st.new.ctx.vars) × (begun.on_false.vars ≤ st.new.ctx.vars)) }
{
    let before = st.point()?;
    let sides = tested(test, site, st)?;
    st.turn_to(&sides.on_true)?;
    Ok(Begun {
        before,
        on_false: sides.on_false,
    })
}

/// From the end of the first branch to where the second begins; what the first ends with.
fn begin_other(begun: &Begun, st: &mut State) -> Result<StateType, Failure>
    requires { begun.now.on_false.vars ≤ st.old.ctx.vars }
    ensures moved { IfOk result (λ _. state_of st.new ≡ views.begun_other begun.now.on_false.rows begun.now.before.places (state_of st.old)) }
    ensures end { IfOk result (λ end. end ≡ point (state_of st.old)) }
    ensures kept { IfOk result (λ _. st.new.ctx.vars ≡ st.old.ctx.vars) }
{
    let end = st.point()?;
    st.resume(&begun.on_false, &begun.before.places)?;
    note_here(st)?;
    Ok(end)
}

/// The branches meet.
#[tactic(auto, unfolding(typed_core::specs::Statements::meeting))]
fn meet(
    site: &Site<'_>,
    at: u32,
    join: &Option<Clause>,
    blocks: &Blocks<'_>,
    before: &StateType,
    ends: &Ends,
    st: &mut State,
) -> Result<(), Stop>
    requires { before.now.ctx.vars ≤ st.old.ctx.vars }
    ensures met { Gives (λ _. state_of st.new) result (spec.meeting (site_of site.now) at (stated join.now) (changed_by blocks.now)
        before.now (views.ends_of ends.now (state_of st.old)) (state_of st.old)) }
    ensures grown { IfOk result (λ _. st.old.ctx.vars ≤ st.new.ctx.vars) }
{
    let two = st.point()?;
    let joint = joined(site, join, blocks, before, st)?;
    enter_if(ends.one_completes, site, at, &joint, &ends.one, st)?;
    enter_if(ends.two_completes, site, at, &joint, &two, st)
}

/// What follows branches: nothing, the end of the one that completes, or the state where they meet.
#[tactic(auto, unfolding(typed_core::specs::Statements::after_branches))]
fn after_branches(
    site: &Site<'_>,
    at: u32,
    join: &Option<Clause>,
    blocks: &Blocks<'_>,
    before: &StateType,
    ends: &Ends,
    st: &mut State,
) -> Result<(), Stop>
    requires before { before.now.ctx.vars ≤ st.old.ctx.vars }
    requires one { ends.now.one.ctx.vars ≤ st.old.ctx.vars }
    ensures left { Gives (λ _. state_of st.new) result (spec.after_branches ends.now.one_completes ends.now.two_completes join.now (site_of site.now) at (changed_by blocks.now)
        before.now ends.now.one (state_of st.old)) }
    ensures grown { IfOk result (λ _. st.old.ctx.vars ≤ st.new.ctx.vars) }
{
    if !ends.one_completes && !ends.two_completes {
        st.resume(&before.ctx, &before.places)?;
        return Ok(());
    }
    if join.is_some() || (ends.one_completes && ends.two_completes) {
        return meet(site, at, join, blocks, before, ends, st);
    }
    if ends.one_completes {
        go_on(site.alloc, &before.places, &ends.one, st)?;
        return Ok(());
    }
    let two = st.point()?;
    go_on(site.alloc, &before.places, &two, st)?;
    Ok(())
}

/// What is known between the branches of an `if`: before its test, and at the end of the first.
#[derive(Drop)]
struct Between {
    before: StateType,
    one: StateType,
}

/// The same, where these are the branches.
fn leave(
    on_true: &[CoreStmt],
    on_false: &[CoreStmt],
    site: &Site<'_>,
    at: u32,
    join: &Option<Clause>,
    between: Between,
    st: &mut State,
) -> Result<(), Stop>
    requires before { between.before.ctx.vars ≤ st.old.ctx.vars }
    requires one { between.one.ctx.vars ≤ st.old.ctx.vars }
    ensures left { Gives (λ _. state_of st.new) result (views.left (plain_block on_true.now) (plain_block on_false.now) join.now (site_of site.now) at
        between.before between.one (state_of st.old)) }
    ensures grown { IfOk result (λ _. st.old.ctx.vars ≤ st.new.ctx.vars) }
{
    let ends = Ends {
        one: between.one,
        one_completes: completes_all(on_true),
        two_completes: completes_all(on_false),
    };
    let blocks = Blocks::Branches(on_true, on_false);
    after_branches(site, at, join, &blocks, &between.before, &ends, st)
}

/// Where each turn of a loop begins: what a way in has to give, and the types there.
#[derive(Drop)]
struct Turns {
    joint: Joint,
    types: Places,
}

/// From before a loop to before its test.
#[tactic(auto, unfolding(crate::specs::BlockViews::begun_turns))]
fn begin_turns(
    body: &[CoreStmt],
    site: &Site<'_>,
    at: u32,
    head: &Option<Clause>,
    st: &mut State,
) -> Result<Turns, Stop>
    ensures begun { Gives (λ turns. views.turns_of turns (state_of st.new)) result (views.begun_turns (plain_block body.now) (site_of site.now) at head.now (state_of st.old)) }
    ensures grown { IfOk result (λ _. st.old.ctx.vars ≤ st.new.ctx.vars) }
    ensures few { IfOk result (λ turns. (turns.joint.first + turns.joint.count) + length turns.joint.others.items ≤ 1024) }
{
    let before = st.point()?;
    let joint = joined(site, head, &Blocks::Body(body), &before, st)?;
    let types = st.places.copy()?;
    enter(site, at, &joint, &before, st)?;
    Ok(Turns { joint, types })
}

/// From the end of a loop's body to behind the loop.
fn end_turns(
    body: &[CoreStmt],
    site: &Site<'_>,
    at: u32,
    turns: &Turns,
    on_false: &Context,
    st: &mut State,
) -> Result<(), Stop>
    requires few { (turns.now.joint.first + turns.now.joint.count) + length turns.now.joint.others.items ≤ 1024 }
    requires within { on_false.now.vars ≤ st.old.ctx.vars }
    ensures ended { Gives (λ _. state_of st.new) result
        (views.ended_turns (plain_block body.now) (site_of site.now) at (joint_of turns.now.joint) turns.now.types on_false.now.rows (state_of st.old)) }
    ensures grown { IfOk result (λ _. st.old.ctx.vars ≤ st.new.ctx.vars) }
{
    let turn = st.point()?;
    enter_if(completes_all(body), site, at, &turns.joint, &turn, st)?;
    st.resume(on_false, &turns.types)?;
    note_state(on_false, st)?;
    Ok(())
}

/// The test and the first branch, and then to where the second begins.
#[cycle(block)]
#[tactic(auto, unfolding(crate::specs::BlockViews::first_branch))]
fn first_branch(
    on_true: &[CoreStmt],
    test: &Test,
    site: &Site<'_>,
    st: &mut State,
) -> Result<Between, Stop>
    requires { IsSite site.now }
    ensures moved { Steps (λ between. between.one) result (state_of st.new)
        (views.first_branch (site_of site.now) (plain_test test.now) (plain_block on_true.now) (state_of st.old)) }
    ensures before { IfOk result (λ between. between.before ≡ point (state_of st.old)) }
    ensures grown { IfOk result (λ between. (st.old.ctx.vars ≤ st.new.ctx.vars) × (between.one.ctx.vars ≤ st.new.ctx.vars)) }
{
    let begun = begin_if(test, site, st)?;
    block(on_true, site, st)?;
    let one = begin_other(&begun, st)?;
    Ok(Between {
        before: begun.before,
        one,
    })
}

/// The second branch, and what follows both.
#[cycle(block)]
#[tactic(auto, unfolding(crate::specs::BlockViews::second_branch))]
fn second_branch(
    on_false: &[CoreStmt],
    on_true: &[CoreStmt],
    site: &Site<'_>,
    at: u32,
    join: &Option<Clause>,
    between: Between,
    st: &mut State,
) -> Result<(), Stop>
    requires site { IsSite site.now }
    requires before { between.before.ctx.vars ≤ st.old.ctx.vars }
    requires one { between.one.ctx.vars ≤ st.old.ctx.vars }
    ensures left { Gives (λ _. state_of st.new) result (views.second_branch (plain_block on_true.now) (plain_block on_false.now) join.now (site_of site.now) at
        between.before between.one (state_of st.old)) }
    ensures grown { IfOk result (λ _. st.old.ctx.vars ≤ st.new.ctx.vars) }
{
    block(on_false, site, st)?;
    leave(on_true, on_false, site, at, join, between, st)
}

/// A loop's body, and what follows it.
#[cycle(block)]
#[tactic(auto, unfolding(crate::specs::BlockViews::turn_body))]
fn turn_body(
    body: &[CoreStmt],
    site: &Site<'_>,
    at: u32,
    turns: &Turns,
    on_false: &Context,
    st: &mut State,
) -> Result<(), Stop>
    requires site { IsSite site.now }
    requires few { (turns.now.joint.first + turns.now.joint.count) + length turns.now.joint.others.items ≤ 1024 }
    requires within { on_false.now.vars ≤ st.old.ctx.vars }
    ensures ended { Gives (λ _. state_of st.new) result
        (views.turn_body (plain_block body.now) (site_of site.now) at (joint_of turns.now.joint) turns.now.types on_false.now.rows (state_of st.old)) }
    ensures grown { IfOk result (λ _. st.old.ctx.vars ≤ st.new.ctx.vars) }
{
    block(body, site, st)?;
    end_turns(body, site, at, turns, on_false, st)
}

/// A loop's test, its body, and what follows.
#[cycle(block)]
#[tactic(auto, unfolding(crate::specs::BlockViews::turn))]
fn turn(
    body: &[CoreStmt],
    test: &Test,
    site: &Site<'_>,
    at: u32,
    turns: &Turns,
    st: &mut State,
) -> Result<(), Stop>
    requires site { IsSite site.now }
    requires few { (turns.now.joint.first + turns.now.joint.count) + length turns.now.joint.others.items ≤ 1024 }
    ensures ended { Gives (λ _. state_of st.new) result
        (views.turn (plain_block body.now) (plain_test test.now) (site_of site.now) at (joint_of turns.now.joint) turns.now.types (state_of st.old)) }
    ensures grown { IfOk result (λ _. st.old.ctx.vars ≤ st.new.ctx.vars) }
{
    let sides = tested(test, site, st)?;
    st.turn_to(&sides.on_true)?;
    turn_body(body, site, at, turns, &sides.on_false, st)
}

/// A loop.
#[cycle(block)]
fn repeat(
    body: &[CoreStmt],
    test: &Test,
    head: &Option<Clause>,
    site: &Site<'_>,
    at: u32,
    st: &mut State,
) -> Result<(), Stop>
    requires { IsSite site.now }
    ensures moved { Gives (λ _. state_of st.new) result
        (spec.statement (site_of site.now) (core.While (plain_test test.now) head.now (plain_block body.now) at) (state_of st.old)) }
    ensures grown { IfOk result (λ _. st.old.ctx.vars ≤ st.new.ctx.vars) }
{
    let turns = begin_turns(body, site, at, head, st)?;
    turn(body, test, site, at, &turns, st)
}

/// From before a statement to behind it.
#[cycle(block)]
#[tactic(auto, using(xanadu_tree::proofs::Equations::plain_trees), unfolding(typed_core::specs::Statements::statement))]
fn statement(statement: &CoreStmt, site: &Site<'_>, st: &mut State) -> Result<(), Stop>
    requires { IsSite site.now }
    ensures moved { Gives (λ _. state_of st.new) result (spec.statement (site_of site.now) (plain_stmt statement.now) (state_of st.old)) }
    ensures grown { IfOk result (λ _. st.old.ctx.vars ≤ st.new.ctx.vars) }
{
    match statement {
        CoreStmt::Set(x, e) => assign(*x, e, site, st),
        CoreStmt::Split(xs, e, _) => split(xs.as_slice(), e, site, st),
        CoreStmt::Store(array, index, value, at) => store(array, index, value, *at, site, st),
        CoreStmt::Do(e) => call(e, site, st),
        CoreStmt::Print(e) => print(e, site, st),
        CoreStmt::If {
            test,
            on_true,
            on_false,
            join,
            at,
        } => {
            let between = first_branch(on_true, test, site, st)?;
            second_branch(on_false, on_true, site, *at, join, between, st)
        }
        CoreStmt::While {
            test,
            head,
            body,
            at,
        } => repeat(body, test, head, site, *at, st),
        CoreStmt::Return(value, at) => give_back(value, *at, site, st),
    }
}

/// Statements in order.
#[cycle(block)]
#[tactic(auto, using(xanadu_tree::proofs::Equations::plain_trees), unfolding(typed_core::specs::Statements::block))]
pub(crate) fn block(statements: &[CoreStmt], site: &Site<'_>, st: &mut State) -> Result<(), Stop>
    requires { IsSite site.now }
    ensures moved { Gives (λ _. state_of st.new) result (spec.block (site_of site.now) (plain_block statements.now) (state_of st.old)) }
    ensures grown { IfOk result (λ _. st.old.ctx.vars ≤ st.new.ctx.vars) }
{
    for one in statements {
        statement(one, site, st)?;
    }
    Ok(())
}
