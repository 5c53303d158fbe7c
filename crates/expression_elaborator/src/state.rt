//! What is known at a place of a function's body, and how a walk goes from there to the next place.

ghost use Rattle.std.specs.Prelude.{◌≡◌, ◌≤◌, ◌<◌, ◌+◌, suc, true, false, Ok, Err, IfOk, length, nat_lt, option_map};
ghost use Rattle.std.specs.List.Sorted.{IsPartitionPoint};
ghost use Rattle.header_elaborator.specs.Code.{Gives};
ghost use Rattle.expression_elaborator.specs.Views.{state_of};
ghost use Rattle.state_types.specs.PlaceTypes.{PlacesRise, type_at};
ghost use Rattle.typed_core.specs.Limits.{Misfit, within};
ghost use Rattle.typed_core.specs.States as spec;
ghost use Rattle.xan_lin.specs.declared.term.LimitKind.TheVariants as limit;

use header_elaborator::{Failure, Stop, is_like};
use index_sorts::Context;
use operation_rules::{Setting, widen};
use state_types::{Places, StateType, Ty};
use std::alloc::Global;
use typed_core::{GoalAt, Note};
use xan_lin::{Form, LimitKind};

/// How many places a function has at most.
const MOST_PLACES: u16 = 240;

/// What stands throughout a body.
#[derive(Clone, Copy, Drop)]
pub struct Site<'a> {
    /// Where memory comes from.
    pub alloc: Global,
    /// The closed types, the signatures of all functions, and the function's own.
    pub setting: Setting<'a>,
    /// The number of the function.
    pub fun: u32,
}

/// What is known at a place of a body, with the goals and notes of the program so far.
#[derive(Drop)]
pub struct State {
    /// The index variables so far, and the rows that hold of them.
    pub ctx: Context,
    /// The types of the visible variables.
    pub places: Places,
    /// The variable that each index variable of a clause has become.
    pub naming: Vec<(u32, Form)>,
    /// The goals of the program so far.
    pub goals: Vec<GoalAt>,
    /// Its notes so far.
    pub notes: Vec<Note>,
}

/// The place of a variable, of which a function has at most 240.
pub fn place_of(x: u32) -> Result<u16, Stop>
    ensures few { Gives (λ _. tt) result (within limit.Places (suc x)) }
    ensures place { IfOk result (λ place. place ≡ x) }
{
    match u16::try_from(x) {
        Ok(place) => {
            if place < MOST_PLACES {
                Ok(place)
            } else {
                Err(Stop::Past(LimitKind::Places))
            }
        }
        Err(_) => Err(Stop::Past(LimitKind::Places)),
    }
}

/// How many of the entries are of variables before this one.
fn count_before(entries: &[(u16, Ty)], x: u32) -> usize
    requires { PlacesRise 0 entries.now }
    ensures point { IsPartitionPoint (λ e. nat_lt e.0 x ≡ true) (λ e. nat_lt e.0 x ≡ false) entries.now result }
    ensures within { result ≤ length entries.now }
{
    entries.partition_point(|entry| u32::from(entry.0) < x)
}

/// The type that is listed for the variable.
fn type_among(entries: &[(u16, Ty)], x: u32) -> Option<&Ty>
    requires { PlacesRise 0 entries.now }
    ensures { option_map (λ ty. ty.now) result ≡ type_at x entries.now }
{
    let at = count_before(entries, x);
    let Some((found, ty)) = entries.get(at) else {
        return None;
    };
    if u32::from(*found) == x {
        Some(ty)
    } else {
        None
    }
}

/// The type of a variable among those of places.
pub fn type_of(x: u32, places: &Places) -> Result<Ty, Stop>
    ensures { Gives (λ ty. ty) result (spec.there (type_at x places.now)) }
{
    match type_among(places.entries(), x) {
        Some(ty) => Ok(ty.copy()),
        None => Err(Stop::Misfit),
    }
}

/// The rows of a context, over so many variables, which are no fewer.
pub(crate) fn over(rows: &Context, vars: u32) -> Result<Context, Failure>
    requires fewer { rows.now.vars ≤ vars }
    requires few { vars ≤ 1024 }
    ensures { IfOk result (λ ctx. ctx ≡ record { vars = vars; rows = rows.now.rows }) }
{
    let mut ctx = rows.copy()?;
    let Ok(_) = ctx.fresh(vars - rows.vars()) else {
        unreachable!()
    };
    Ok(ctx)
}

impl State {
    /// Adds so many index variables.
    #[tactic(auto, using(header_elaborator::proofs::WalkParts::ruled_fails), unfolding(typed_core::specs::States::with_fresh))]
    pub fn fresh(&mut self, count: u32) -> Result<(), Stop>
        ensures moved { Gives (λ _. state_of self.new) result (spec.with_fresh count (state_of self.old)) }
        ensures more { IfOk result (λ _. self.new.ctx.vars ≡ self.old.ctx.vars + count) }
    {
        widen(&mut self.ctx, count)?;
        Ok(())
    }

    /// A variable is declared, or assigned a value of its kind.
    #[tactic(auto, unfolding(typed_core::specs::States::given))]
    pub fn give(&mut self, x: u32, ty: Ty) -> Result<(), Stop>
        ensures given { Gives (λ _. state_of self.new) result (spec.given x ty (state_of self.old)) }
        ensures kept { self.new.ctx ≡ self.old.ctx }
    {
        let place = place_of(x)?;
        if is_unlike(&self.places, place, &ty) {
            return Err(Stop::Misfit);
        }
        self.places.set(place, ty)?;
        Ok(())
    }

    /// The context and the types here.
    pub fn point(&self) -> Result<StateType, Failure>
        ensures { IfOk result (λ point. point ≡ spec.point (state_of self.now)) }
    {
        Ok(StateType {
            ctx: self.ctx.copy()?,
            places: self.places.copy()?,
        })
    }

    /// Where control comes by another way: these rows hold, over all index variables so far.
    pub fn turn_to(&mut self, rows: &Context) -> Result<(), Failure>
        requires { rows.now.vars ≤ self.old.ctx.vars }
        ensures turned { IfOk result (λ _. state_of self.new ≡ spec.resuming rows.now.rows self.old.places (state_of self.old)) }
        ensures kept { IfOk result (λ _. self.new.ctx.vars ≡ self.old.ctx.vars) }
    {
        self.ctx = over(rows, self.ctx.vars())?;
        Ok(())
    }

    /// The same, and variables have these types.
    pub fn resume(&mut self, rows: &Context, places: &Places) -> Result<(), Failure>
        requires { rows.now.vars ≤ self.old.ctx.vars }
        ensures turned { IfOk result (λ _. state_of self.new ≡ spec.resuming rows.now.rows places.now (state_of self.old)) }
        ensures kept { IfOk result (λ _. self.new.ctx.vars ≡ self.old.ctx.vars) }
    {
        self.ctx = over(rows, self.ctx.vars())?;
        self.places = places.copy()?;
        Ok(())
    }
}

/// Whether the place has a type of another kind.
fn is_unlike(places: &Places, place: u16, ty: &Ty) -> bool
    ensures like { result ≡ false → spec.like (type_at place places.now) ty.now ≡ Ok ty.now }
    ensures unlike { result ≡ true → spec.like (type_at place places.now) ty.now ≡ Err Misfit }
{
    match places.get(place) {
        Some(old) => !is_like(old, ty),
        None => false,
    }
}
