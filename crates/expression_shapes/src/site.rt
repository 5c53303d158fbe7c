//! Where a statement or an expression stands: what is declared in the program, and what is visible in the function.

ghost use Rattle.std.specs.Prelude.{◌≡◌, ◌-◌, IfOk, length, map, slice_get};
ghost use Rattle.std.specs.Option.{option_map};
ghost use Rattle.xanadu_tree.specs.PlainOf.{plain_expr};
ghost use Rattle.type_shapes.specs.Code.{Gives, Steps};
ghost use Rattle.type_shapes.specs.HeadersOf.{header_of};
ghost use Rattle.type_shapes.specs.Names.{or_unknown};
ghost use Rattle.expression_shapes.specs.Sites as spec;
ghost use Rattle.expression_shapes.specs.SitesOf.{globals_of, locals_of, typed_of, callee_of};

use std::alloc::Global;
use type_shapes::{
    Functions, Header, Scope, ShapeError, ShapeKind, Types, header_at, known, narrowed, parts_of,
    same_kind, tuple_type,
};
use xan_io::Memory;
use xanadu_tree::{CoreExpr, Identifier, Kind, Packing};

/// What is declared in the program.
#[derive(Drop)]
pub struct Globals<'a> {
    pub types: Types<'a>,
    pub packings: Vec<Packing>,
    pub functions: Functions<'a>,
}

/// What is visible in the function, and the kind of each variable that was declared so far.
#[derive(Drop)]
pub struct Locals<'a> {
    pub variables: Scope<'a>,
    pub kinds: Vec<Kind>,
    pub indices: Scope<'a>,
    /// The number of the next index variable of a clause.
    pub next: u32,
}

/// Where an expression stands.
#[derive(Clone, Copy, Drop)]
pub struct Site<'s, 'a> {
    pub alloc: Global,
    pub globals: &'s Globals<'a>,
    pub locals: &'s Locals<'a>,
}

/// An expression and its kind.
#[derive(Drop)]
pub struct Typed {
    pub expr: CoreExpr,
    pub kind: Kind,
}

/// What is called.
#[derive(Drop)]
pub struct Callee<'g, 'a> {
    pub number: u32,
    pub header: &'g Header<'a>,
}

impl<'a> Locals<'a> {
    /// Declares a variable, and gives its number.
    #[tactic(auto, unfolding(crate::specs::Sites::declared))]
    pub fn declare(&mut self, name: &'a Identifier, kind: Kind) -> Result<u32, Memory>
        ensures { IfOk result (λ number. spec.declared name.now kind (locals_of self.old) ≡ (number, locals_of self.new)) }
    {
        let number = narrowed(self.kinds.len())?;
        self.variables.declare(name.name.bytes(), number)?;
        self.kinds.push(kind)?;
        Ok(number)
    }

    /// The same, unless a variable of this name is visible.
    #[tactic(auto, unfolding(crate::specs::Sites::new_variable))]
    pub fn new_variable(&mut self, name: &'a Identifier, kind: Kind) -> Result<u32, ShapeError>
        ensures { Steps (λ x. x) result (locals_of self.new) (spec.new_variable name.now kind (locals_of self.old)) }
    {
        if self.variables.meaning(name.name.bytes()).is_some() {
            return Err(ShapeError::Fault {
                at: name.at,
                kind: ShapeKind::NamedTwice,
            });
        }
        Ok(self.declare(name, kind)?)
    }
}

impl<'a> Locals<'a> {
    /// Takes back all names but so many, where a block ends.
    #[tactic(auto, unfolding(crate::specs::Sites::without))]
    pub fn leave(&mut self, variables: usize, indices: usize)
        ensures { locals_of self.new ≡ spec.without variables indices (locals_of self.old) }
    {
        self.variables.release(variables);
        self.indices.release(indices);
    }
}

/// The kind of a variable.
fn variable_kind(kinds: &[Kind], number: u32) -> Kind
    ensures { result ≡ spec.variable_kind kinds.now number }
{
    kinds.get(number as usize).copied().unwrap_or(Kind::Unit)
}

/// The kind of a visible variable, by its number.
pub fn kind_of_variable(locals: &Locals<'_>, number: u32) -> Kind
    ensures { result ≡ spec.variable_kind (locals_of locals.now).kinds number }
{
    variable_kind(&locals.kinds, number)
}

/// The visible variable of this name.
#[tactic(auto, using(xanadu_tree::proofs::Equations::plain_trees), unfolding(crate::specs::Sites::variable))]
pub fn variable(locals: &Locals<'_>, name: &Identifier) -> Result<Typed, ShapeError>
    ensures { Gives typed_of result (spec.variable (locals_of locals.now) name.now) }
{
    let number = known(&locals.variables, name)?;
    Ok(Typed {
        expr: CoreExpr::Var(number),
        kind: kind_of_variable(locals, number),
    })
}

/// The expression, where it is of the kind that is asked for; else the fault is at its place.
#[tactic(auto, unfolding(crate::specs::Sites::asked))]
pub fn check_kind(kind: Kind, at: u32, typed: Typed) -> Result<CoreExpr, ShapeError>
    ensures { Gives plain_expr result (spec.asked kind at (typed_of typed)) }
{
    if same_kind(typed.kind, kind) {
        return Ok(typed.expr);
    }
    Err(ShapeError::Fault {
        at,
        kind: ShapeKind::OtherKind,
    })
}

/// The type of an array's cells.
#[tactic(auto, unfolding(crate::specs::Sites::asked_array))]
pub fn check_array(at: u32, kind: Kind) -> Result<u32, ShapeError>
    ensures { Gives (λ x. x) result (spec.asked_array at kind) }
{
    match kind {
        Kind::Array(element) => Ok(element),
        Kind::Int | Kind::Bool | Kind::Named(_) | Kind::Unit => Err(ShapeError::Fault {
            at,
            kind: ShapeKind::OtherKind,
        }),
    }
}

/// The type of a tuple.
#[tactic(auto, unfolding(crate::specs::Sites::asked_tuple))]
pub fn check_tuple(at: u32, kind: Kind) -> Result<u32, ShapeError>
    ensures { Gives (λ x. x) result (spec.asked_tuple at kind) }
{
    match kind {
        Kind::Named(number) => Ok(number),
        Kind::Int | Kind::Bool | Kind::Array(_) | Kind::Unit => Err(ShapeError::Fault {
            at,
            kind: ShapeKind::OtherKind,
        }),
    }
}

/// Any kind but that of a call without a value.
#[tactic(auto, unfolding(crate::specs::Sites::asked_value))]
pub fn check_value(at: u32, kind: Kind) -> Result<Kind, ShapeError>
    ensures { Gives (λ x. x) result (spec.asked_value at kind) }
{
    match kind {
        Kind::Unit => Err(ShapeError::Fault {
            at,
            kind: ShapeKind::OtherKind,
        }),
        Kind::Int | Kind::Bool | Kind::Array(_) | Kind::Named(_) => Ok(kind),
    }
}

/// The function of this name, with so many arguments.
#[tactic(auto, unfolding(crate::specs::Sites::function, crate::specs::Sites::called))]
pub fn find_callee<'g, 'a>(
    globals: &'g Globals<'a>,
    name: &Identifier,
    given: usize,
) -> Result<Callee<'g, 'a>, ShapeError>
    ensures { Gives callee_of result (spec.called (globals_of globals.now) name.now given) }
{
    let Some(place) = globals.functions.names.place(name.name.bytes()) else {
        return Err(ShapeError::Fault {
            at: name.at,
            kind: ShapeKind::Unknown,
        });
    };
    let Some(header) = header_at(&globals.functions.headers, place) else {
        return Err(ShapeError::Fault {
            at: name.at,
            kind: ShapeKind::Unknown,
        });
    };
    if header.params.len() != given {
        return Err(ShapeError::Fault {
            at: name.at,
            kind: ShapeKind::Count,
        });
    }
    Ok(Callee {
        number: narrowed(place)?,
        header,
    })
}

/// The number of the tuple type of this name, with so many parts.
#[tactic(auto, unfolding(crate::specs::Sites::made))]
pub fn find_tuple_type(
    globals: &Globals<'_>,
    name: &Identifier,
    given: usize,
) -> Result<u32, ShapeError>
    ensures { Gives (λ x. x) result (spec.made (globals_of globals.now) name.now given) }
{
    let number = tuple_type(&globals.types, name)?;
    if parts_of(&globals.packings, number).len() != given {
        return Err(ShapeError::Fault {
            at: name.at,
            kind: ShapeKind::Count,
        });
    }
    Ok(number)
}
