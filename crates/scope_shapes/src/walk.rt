//! The whole walk.

ghost use Rattle.std.specs.Prelude.{◌≡◌, map, IfOk};
ghost use Rattle.xanadu_tree.specs.PlainOf.{plain_core};
ghost use Rattle.xanadu_tree.specs.PlainTreeOf.{plain_tree};
ghost use Rattle.xanadu_tree.specs.Shaped.{Shaped};
ghost use Rattle.xanadu_tree.specs.Written.{IsWritten};
ghost use Rattle.type_shapes.specs.Code.{Gives};
ghost use Rattle.expression_shapes.specs.SitesOf.{globals_of};
ghost use Rattle.scope_shapes.specs.BodiesOf.{inner_of};
ghost use Rattle.scope_shapes.specs.Shape as spec;

use crate::bodies::{Inner, add_inners, funs};
use expression_shapes::Globals;
use std::alloc::Global;
use type_shapes::{
    Functions, ShapeError, add_headers, add_packings, add_type_names, main_number, no_functions,
    no_types,
};
use xan_io::Memory;
use xan_seq::Seq;
use xanadu_tree::{Core, Tree};

/// Nothing is declared.
fn no_globals<'a>(alloc: Global) -> Globals<'a>
    ensures { globals_of result ≡ spec.no_globals }
{
    Globals {
        types: no_types(alloc),
        packings: Vec::new(alloc),
        functions: no_functions(alloc),
    }
}

/// Adds what is declared in the program.
#[tactic(auto, unfolding(crate::specs::Shape::globals))]
fn add_globals<'a>(
    alloc: Global,
    tree: &'a Tree,
    program: &mut Globals<'a>,
) -> Result<(), ShapeError>
    ensures { Gives (λ _. globals_of program.new) result (spec.globals (plain_tree tree.now) (globals_of program.old)) }
{
    add_type_names(&tree.declarations, &mut program.types)?;
    add_packings(
        alloc,
        &program.types,
        &tree.declarations,
        &mut program.packings,
    )?;
    add_headers(
        alloc,
        &program.types,
        &tree.declarations,
        &mut program.functions,
    )
}

/// The number of main, with what is declared and the bodies of functions added.
#[tactic(auto, unfolding(crate::specs::Shape::walked))]
fn walk<'a>(
    alloc: Global,
    tree: &'a Tree,
    end: u32,
    program: &mut Globals<'a>,
    bodies: &mut Vec<Inner>,
) -> Result<u32, ShapeError>
    ensures { Gives (λ main. (main, map inner_of bodies.new.items, globals_of program.new)) result (spec.walked (plain_tree tree.now) end (globals_of program.old) (map inner_of bodies.old.items)) }
{
    add_globals(alloc, tree, program)?;
    let main = main_number(&program.functions, end)?;
    add_inners(alloc, program, &program.functions.headers, bodies)?;
    Ok(main)
}

/// The core, when all has been looked at.
fn finish(
    alloc: Global,
    program: Globals<'_>,
    bodies: Vec<Inner>,
    main: u32,
) -> Result<Core, Memory>
    requires { Shaped (spec.finished (globals_of program) (map inner_of bodies.items) main) }
    ensures { IfOk result (λ core. plain_core core ≡ spec.finished (globals_of program.entry) (map inner_of bodies.items) main) }
{
    let Globals {
        types: _types,
        packings,
        functions,
    } = program;
    let Functions {
        names: _names,
        headers,
    } = functions;
    let funs = Seq::from_vec(funs(alloc, headers, bodies)?);
    Ok(Core::new(Seq::from_vec(packings), funs, main))
}

/// The core of a tree that some source spells, or its first fault. `end` is the end of the source, the place of the fault that there is no `main`.
///
/// The walk goes over the names of types, their bodies, the headers of functions, main, and the bodies of functions. Each part of it is
/// finished before the next begins, and in each the faults are met from left to right. `Memory` comes where memory ran out, or where a
/// number of a variable is past 32 bits or a number of a form past 127.
#[tactic(auto, unfolding(crate::specs::Shape::shape))]
pub fn resolve(alloc: Global, tree: &Tree, end: u32) -> Result<Core, ShapeError>
    requires { IsWritten (plain_tree tree.now) }
    ensures { Gives plain_core result (spec.shape (plain_tree tree.now) end) }
{
    let mut program = no_globals(alloc);
    let mut bodies = Vec::new(alloc);
    let main = walk(alloc, tree, end, &mut program, &mut bodies)?;
    Ok(finish(alloc, program, bodies, main)?)
}
