//! How much of each there may be.

ghost use Rattle.std.specs.Prelude.{◌≡◌, ◌≤◌, IfOk};
ghost use Rattle.header_elaborator.specs.Code.{Gives};
ghost use Rattle.typed_core.specs.Limits as spec;

use crate::error::Stop;
use xan_lin::{BOUND, LimitKind};

/// How much of each there may be.
pub fn most(kind: LimitKind) -> u64
    ensures { result ≡ spec.most kind }
{
    match kind {
        LimitKind::Length => 1_048_576,
        LimitKind::Nesting | LimitKind::Cone => 64,
        LimitKind::Functions | LimitKind::Types | LimitKind::Variables => 1024,
        LimitKind::Parameters => 8,
        LimitKind::Rows => 512,
        LimitKind::Terms => 16,
        LimitKind::Magnitude => BOUND as u64,
        LimitKind::Places => 240,
        LimitKind::System => 2000,
    }
}

/// Whether so many of a kind are within its limit.
pub fn within(kind: LimitKind, count: u64) -> Result<(), Stop>
    ensures within { Gives (λ _. tt) result (spec.within kind count) }
    ensures few { IfOk result (λ _. count ≤ spec.most kind) }
{
    if count > most(kind) {
        return Err(Stop::Past(kind));
    }
    Ok(())
}

/// The same of the length of a list.
pub fn within_length(kind: LimitKind, count: usize) -> Result<(), Stop>
    ensures within { Gives (λ _. tt) result (spec.within kind count) }
    ensures few { IfOk result (λ _. count ≤ spec.most kind) }
{
    within(kind, count as u64)
}
