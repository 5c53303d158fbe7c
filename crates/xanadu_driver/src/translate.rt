//! From the bytes of a source to the text of its program: the passes in their order.

ghost use Rattle.std.specs.Prelude.{◌≡◌, ◌≤◌, length, IfOk, IfErr};
ghost use Rattle.xanadu_parser.specs.Faults.{IsAnswer};
ghost use Rattle.xanadu_tree.specs.PlainOf.{plain_core};
ghost use Rattle.xanadu_tree.specs.PlainTreeOf.{plain_tree};
ghost use Rattle.goal_table.specs.Answers.{AllAreProved, AreShort};
ghost use Rattle.xanadu_driver.specs.Correct.{Translates, IsTextOf};
ghost use Rattle.xanadu_driver.specs.Source.{IsCore, IsElaborated, IsProved, Stops, ComesEarly, FailsGoals, source_most};

use crate::counting::count;
use command_reports::{Counts, SourceError, Workspace};
use constraint_elaborator::elaborate;
use dtal_code::print;
use dtal_text::program_texts_are_read;
use goal_table::prove_all;
use program_builder::build_program;
use scope_shapes::resolve;
use std::alloc::Global;
use typed_core::{Elaborated, Proved};
use xan_seq::Seq;
use xanadu_lexer::{Token, lex};
use xanadu_parser::{ParseError, parse};
use xanadu_tree::{Core, Tree};

/// The text of a program, and how many functions, goals and instructions it has.
#[derive(Drop)]
pub struct Text {
    pub bytes: Vec<u8>,
    pub counts: Counts,
}

/// The text of the source's program, which is accepted and does what the source does. `Refused` tells the first thing that the source is
/// refused for, behind its length.
pub fn compile(alloc: Global, source: &[u8]) -> Result<Text, SourceError>
    requires { length source.now ≤ source_most }
    ensures text { IfOk result (λ text. Translates source.now text.bytes.items text.counts) }
    ensures refused { IfErr result (Stops source.now) }
{
    let base = elaborate_source(alloc, source)?;
    let proved = prove(alloc, base)?;
    print_program(alloc, &proved)
}

/// The source's core with lines for each of its goals.
pub fn prove_source(alloc: Global, source: &[u8]) -> Result<Proved, SourceError>
    requires { length source.now ≤ source_most }
    ensures proved { IfOk result (λ proved. IsProved source.now (plain_core proved.base.core) proved.base.made) }
    ensures refused { IfErr result (Stops source.now) }
{
    let base = elaborate_source(alloc, source)?;
    prove(alloc, base)
}

/// The source's core with all that elaboration makes of it.
pub fn elaborate_source(alloc: Global, source: &[u8]) -> Result<Elaborated, SourceError>
    requires { length source.now ≤ source_most }
    ensures goals { IfOk result (λ base. IsElaborated source.now (plain_core base.core) base.made) }
    ensures refused { IfErr result (Stops source.now) }
    ensures early { IfErr result ComesEarly }
{
    let core = find_core(alloc, source)?;
    Ok(elaborate(alloc, core)?)
}

/// The source's core.
fn find_core(alloc: Global, source: &[u8]) -> Result<Core, SourceError>
    requires { length source.now ≤ source_most }
    ensures core { IfOk result (λ core. IsCore source.now (plain_core core)) }
    ensures refused { IfErr result (Stops source.now) }
    ensures early { IfErr result ComesEarly }
{
    let end = source.len() as u32;
    let tokens = lex(alloc, source)?;
    let tree = parse_tokens(alloc, tokens, end)?;
    Ok(resolve(alloc, &tree, end)?)
}

/// The program with lines for each of its goals.
fn prove(alloc: Global, base: Elaborated) -> Result<Proved, SourceError>
    ensures proved { IfOk result (λ proved. AllAreProved base proved) }
    ensures short { IfOk result (λ proved. AreShort proved.lines) }
    ensures refused { IfErr result (FailsGoals base.made.goals) }
{
    let mut work = Workspace::new(alloc)?;
    Ok(prove_all(alloc, base, &mut work.pool, &mut work.buf)?)
}

/// The text of a program of which all goals are proved.
fn print_program(alloc: Global, proved: &Proved) -> Result<Text, SourceError>
    requires { AreShort proved.now.lines }
    ensures text { IfOk result (λ text. IsTextOf (plain_core proved.now.base.core) proved.now.base.made text.bytes.items text.counts) }
    ensures refused { IfErr result (λ stop. stop ≡ SourceError.Memory) }
{
    let program = build_program(alloc, proved)?;
    let bytes = print(alloc, &program)?;
    // Cites the law: the text spells no other program.
    program_texts_are_read();
    Ok(Text {
        bytes,
        counts: count(proved, &program),
    })
}

/// The tree of these tokens, which are let go.
fn parse_tokens(alloc: Global, tokens: Seq<Token>, end: u32) -> Result<Tree, ParseError>
    ensures { IsAnswer plain_tree tokens end result }
{
    parse(alloc, tokens.as_slice(), end)
}
