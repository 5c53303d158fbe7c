//! A program of which all goals are proved.

ghost use Rattle.std.specs.Prelude.{◌≡◌};
ghost use Rattle.typed_core.specs.Proving.{ProvedParts, ProveAll};

use crate::elaborated::Elaborated;
use proof_lines::Line;
use std::marker::Model;
use xan_seq::Seq;

/// An elaborated program with a list of lines for each goal. It keeps that each list proves the goal of its place.
#[derive(Drop)]
pub struct Proved {
    base: Elaborated,
    lines: Seq<Seq<Line>>,
}

impl Model for Proved {
    ghost use Rattle.std.specs.Coded.{codes};
    ghost use Rattle.typed_core.specs.Proving.{ProvedParts, ProveAll};
    ghost use Rattle.typed_core.specs.contracts.elaborated.Elaborated as elaborated;
    ghost use Rattle.proof_lines.specs.contracts.line.Line as line;

    ghost Value = { ProvedParts };

    ghost coded = { Prim.hlevel (codes, elaborated.the_row.coded, line.the_row.coded) };

    ghost view = { λ it. record { base = it.base; lines = it.lines } };

    ghost invariant = { λ it. ProveAll it.base.made.goals it.lines };
}

impl Proved {
    /// The program with these lines: as many lists as goals, and each proves the goal of its place. It takes no memory.
    pub fn new(base: Elaborated, lines: Seq<Seq<Line>>) -> Proved
        requires { ProveAll base.made.goals lines }
        ensures { result ≡ record { base = base; lines = lines } }
    {
        Proved { base, lines }
    }

    /// The elaborated program.
    pub fn base(&self) -> &Elaborated
        ensures { result.now ≡ self.now.base }
    {
        &self.base
    }

    /// The lines of each goal. That they prove it is a clause here.
    pub fn lines(&self) -> &[Seq<Line>]
        ensures lines { result.now ≡ self.now.lines }
        ensures proved { ProveAll self.now.base.made.goals self.now.lines }
    {
        self.lines.as_slice()
    }
}
