//! Faults of arguments.

ghost use Rattle.operation_rules.specs.Entry.{entry_fault};
ghost use Rattle.argument_checks.specs.Checking.{IsRunSignature};
ghost use Rattle.dtal_machine.specs.Loading.{HasNoFault};

use crate::loading::LoadError;
use argument_checks::ArgumentError;
use state_types::Signature;
use std::alloc::Global;
use xan_io::Arg;

/// Nothing, where the arguments may be those of a function of this signature; else their first fault.
pub(crate) fn check_arguments(alloc: Global, sig: &Signature, args: &[Arg]) -> Result<(), LoadError>
    requires { IsRunSignature sig.now }
    ensures { HasNoFault (entry_fault sig.now.vars sig.now.rows sig.now.params args.now) result }
{
    match argument_checks::check_arguments(alloc, sig, args) {
        Ok(()) => Ok(()),
        Err(ArgumentError::ArgCount) => Err(LoadError::ArgCount),
        Err(ArgumentError::ArgKind(number)) => Err(LoadError::ArgKind(number)),
        Err(ArgumentError::ArgIndex(number)) => Err(LoadError::ArgIndex(number)),
        Err(ArgumentError::EntryRow(number)) => Err(LoadError::EntryRow(number)),
        Err(ArgumentError::Memory) => Err(LoadError::Memory),
    }
}
