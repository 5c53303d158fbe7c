//! The function with which a run begins.

ghost use Rattle.std.specs.Prelude.{◌≡◌, ◌≤◌, IsSome, Some, option_map, length, codes, bytes_eq};
ghost use Rattle.dtal_code.specs.declared.limits.TheConstants.{LAST_NUMBER};
ghost use Rattle.dtal_code.specs.Declarations.{main_of};

use dtal_code::Function;

/// The number of the function `main`.
#[tactic(auto, unfolding(dtal_code::specs::Declarations::main_of))]
pub(crate) fn find_main(mut funs: &[Function]) -> u32
    requires there { IsSome (main_of funs.now) }
    requires few { length funs.now ≤ LAST_NUMBER }
    ensures { option_map (λ main. main.0) (main_of funs.entry.now) ≡ Some result }
{
    let mut number: u32 = 0;
    'each: while let [fun, later @ ..] = funs {
        if fun.name.bytes() == b"main".as_slice() {
            return number;
        }
        number += 1;
        funs = later;
    }
    number
}
