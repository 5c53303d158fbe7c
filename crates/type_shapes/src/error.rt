//! Why a source has no core.

ghost use Rattle.std.specs.Prelude.{◌≡◌};
ghost use Rattle.type_shapes.specs.Faults.{kind_number};
ghost use Rattle.type_shapes.specs.declared.error.ShapeError.TheVariants as shape_error;

use std::alloc::{AllocError, AllocFailed};
use thiserror::Error;
use xan_io::Memory;

/// Why a tree has no core.
#[derive(Clone, Copy, Debug, Error)]
pub enum ShapeError {
    /// The first fault of the walk, at the offset of its token.
    #[error("fault")]
    Fault { at: u32, kind: ShapeKind },
    /// Memory ran out, or a number of a variable is past 32 bits, or a number of a form past 127.
    #[error("memory")]
    Memory,
}

impl From<Memory> for ShapeError {
    ghost from_gives = { λ _ error. error ≡ shape_error.Memory };

    fn from(_error: Memory) -> ShapeError {
        ShapeError::Memory
    }
}

impl From<AllocError> for ShapeError {
    ghost from_gives = { λ _ error. error ≡ shape_error.Memory };

    fn from(_error: AllocError) -> ShapeError {
        ShapeError::Memory
    }
}

impl<T: Drop> From<AllocFailed<T>> for ShapeError {
    ghost from_gives = { λ _ error. error ≡ shape_error.Memory };

    fn from(_error: AllocFailed<T>) -> ShapeError {
        ShapeError::Memory
    }
}

/// What is wrong at the token of a fault.
#[derive(Clone, Copy, Debug)]
pub enum ShapeKind {
    /// The name names something of its sort already.
    NamedTwice,
    /// The name names nothing.
    Unknown,
    /// An expression or a type of another simple kind than asked for.
    OtherKind,
    /// Another number of arguments, parts or names than asked for.
    Count,
    /// `&&`, `||` or `!` outside the test of an `if` or a `while`.
    OutsideTest,
    /// A binder that is no index, alone and with coefficient 1, under its quantifier.
    NoIndex,
    /// The name of a cell type where a type or a constructor is asked for.
    CellType,
    /// The body of a function completes.
    Completes,
    /// A statement after one that does not complete.
    Unreachable,
    /// There is no function `main`.
    NoMain,
    /// A parameter or the result of `main` is of a kind that no run can give or take.
    MainKind,
}

impl ShapeKind {
    /// Its number, from 1 to 11 in the order above.
    pub fn number(self) -> u8
        ensures { result ≡ kind_number self }
    {
        match self {
            ShapeKind::NamedTwice => 1,
            ShapeKind::Unknown => 2,
            ShapeKind::OtherKind => 3,
            ShapeKind::Count => 4,
            ShapeKind::OutsideTest => 5,
            ShapeKind::NoIndex => 6,
            ShapeKind::CellType => 7,
            ShapeKind::Completes => 8,
            ShapeKind::Unreachable => 9,
            ShapeKind::NoMain => 10,
            ShapeKind::MainKind => 11,
        }
    }
}
