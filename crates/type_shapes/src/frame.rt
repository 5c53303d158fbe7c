//! Quantifiers: opened before the types under them are read, closed after.

ghost use Rattle.std.specs.Prelude.{◌≡◌, ◌+◌, map, IfOk, OnOk};
ghost use Rattle.std.specs.Option.{option_map};
ghost use Rattle.xanadu_tree.specs.PlainTreeOf.{plain_index, plain_quantifier, plain_type};
ghost use Rattle.type_shapes.specs.Code.{Gives, Steps};
ghost use Rattle.type_shapes.specs.FrameOf.{frame_of};
ghost use Rattle.type_shapes.specs.Linears as linears;
ghost use Rattle.type_shapes.specs.Quantifiers as spec;

use crate::error::{ShapeError, ShapeKind};
use crate::form::{Form, lone, variable_form};
use crate::index::{add_index, add_relations};
use crate::scope::Scope;
use std::alloc::Global;
use std::collections::BTreeSet;
use xan_io::Memory;
use xan_seq::Seq;
use xanadu_tree::{Binder, IndexExpression, Linear, Quant, Quantifier, Sign, Sort};

/// A quantifier while types under it are read.
#[derive(Drop)]
pub struct Frame {
    /// The number of its first variable.
    pub first: u32,
    /// The number of the next variable to come.
    pub next: u32,
    pub rows: Vec<Linear>,
    /// The variables that are an index alone and with coefficient 1.
    indices: BTreeSet<u32>,
}

impl Frame {
    /// Without variables so far.
    pub fn new(alloc: Global, first: u32) -> Frame
        ensures { frame_of result ≡ spec.empty_frame first }
    {
        Frame {
            first,
            next: first,
            rows: Vec::new(alloc),
            indices: BTreeSet::new(alloc),
        }
    }

    /// Adds a variable.
    #[tactic(auto, unfolding(crate::specs::Quantifiers::with_variable))]
    pub fn add_variable(&mut self, alloc: Global, sort: Sort) -> Result<(), Memory>
        ensures { OnOk result (frame_of self.new ≡ spec.with_variable sort (frame_of self.old)) }
    {
        let Some(next) = self.next.checked_add(1) else {
            return Err(Memory);
        };
        match sort {
            Sort::Int => {}
            Sort::Nat => self.rows.push(variable_form(alloc, self.next)?)?,
        }
        self.next = next;
        Ok(())
    }

    /// Reads an index as it is written.
    #[tactic(auto, unfolding(crate::specs::Quantifiers::index))]
    pub fn index(
        &mut self,
        alloc: Global,
        scope: &Scope<'_>,
        index: &IndexExpression,
    ) -> Result<Linear, ShapeError>
        ensures { Steps (λ x. x) result (frame_of self.new) (spec.index scope.now (plain_index index.now) (frame_of self.old)) }
    {
        let mut form = Form::new(alloc, false);
        add_index(scope, Sign::Plus, index, &mut form)?;
        let form = form.linear(alloc)?;
        match lone(&form) {
            Some(variable) => {
                self.indices.insert(variable)?;
            }
            None => {}
        }
        Ok(form)
    }

    /// Whether the variable is an index alone.
    fn is_index(&self, variable: u32) -> bool
        ensures { result ≡ spec.is_index variable (frame_of self.now).indices }
    {
        self.indices.contains(&variable)
    }

    /// The place of the first binder whose variable is no index.
    #[tactic(auto, unfolding(crate::specs::Quantifiers::unindexed))]
    fn unindexed(&self, mut binders: &[Binder]) -> Result<Option<u32>, Memory>
        ensures { IfOk result (λ x. x ≡ spec.unindexed binders.entry.now self.now.first (frame_of self.now).indices) }
    {
        let mut number = self.first;
        while let [binder, rest @ ..] = binders {
            if !self.is_index(number) {
                return Ok(Some(binder.name.at));
            }
            let Some(next) = number.checked_add(1) else {
                return Err(Memory);
            };
            number = next;
            binders = rest;
        }
        Ok(None)
    }

    /// What is quantified, without a look at its binders.
    fn quant(self) -> Quant
        ensures { result ≡ spec.quant (frame_of self) }
    {
        Quant {
            count: self.next.saturating_sub(self.first),
            rows: Seq::from_vec(self.rows),
        }
    }

    /// The quantifier, or its first binder that is no index.
    #[tactic(auto, unfolding(crate::specs::Quantifiers::closed))]
    pub fn close(self, quantifier: &Option<Quantifier>) -> Result<Quant, ShapeError>
        ensures { Gives (λ x. x) result (spec.closed (option_map plain_quantifier quantifier.now) (frame_of self)) }
    {
        if let Some(written) = quantifier {
            if let Some(at) = self.unindexed(&written.binders)? {
                return Err(ShapeError::Fault {
                    at,
                    kind: ShapeKind::NoIndex,
                });
            }
        }
        Ok(self.quant())
    }
}

/// Whether the meaning of a name is a variable that is numbered from there on.
fn is_from(first: u32, meaning: Option<u32>) -> bool
    ensures { result ≡ spec.is_from first meaning }
{
    match meaning {
        Some(variable) => first <= variable,
        None => false,
    }
}

/// Reads binders.
#[tactic(auto, unfolding(crate::specs::Quantifiers::bind))]
fn bind<'a>(
    alloc: Global,
    scope: &mut Scope<'a>,
    first: u32,
    mut binders: &'a [Binder],
) -> Result<Frame, ShapeError>
    ensures { Steps frame_of result scope.new (spec.bind binders.entry.now (spec.empty_frame first) scope.old) }
{
    let mut frame = Frame::new(alloc, first);
    while let [binder, rest @ ..] = binders {
        if is_from(frame.first, scope.meaning(binder.name.name.bytes())) {
            return Err(ShapeError::Fault {
                at: binder.name.at,
                kind: ShapeKind::NamedTwice,
            });
        }
        scope.declare(binder.name.name.bytes(), frame.next)?;
        frame.add_variable(alloc, binder.sort)?;
        binders = rest;
    }
    Ok(frame)
}

/// Opens a quantifier, whose names are added to the scope.
#[tactic(auto, unfolding(crate::specs::Quantifiers::opened))]
pub fn open<'a>(
    alloc: Global,
    scope: &mut Scope<'a>,
    first: u32,
    quantifier: &'a Option<Quantifier>,
) -> Result<Frame, ShapeError>
    ensures { Steps frame_of result scope.new (spec.opened (option_map plain_quantifier quantifier.now) first scope.old) }
{
    match quantifier {
        None => Ok(Frame::new(alloc, first)),
        Some(written) => {
            let mut frame = bind(alloc, scope, first, &written.binders)?;
            add_relations(alloc, scope, &written.relations, &mut frame.rows)?;
            Ok(frame)
        }
    }
}
