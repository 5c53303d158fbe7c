//! The names of functions.

ghost use Rattle.xan_read.specs.Code.{Gives};
ghost use Rattle.xan_read.specs.Names.{name};
ghost use Rattle.dtal_code.specs.Lower.{keywords};

use xan_read::{Fault, name};

/// The name of a function, and the bytes behind it.
pub(crate) fn read_name(bytes: &[u8]) -> Result<(&[u8], &[u8]), Fault>
    ensures { Gives (λ x. (x.0.now, x.1.now)) result (name keywords bytes.now) }
{
    name(
        bytes,
        &[
            b"fun".as_slice(),
            b"type".as_slice(),
            b"var".as_slice(),
            b"let".as_slice(),
            b"if".as_slice(),
            b"else".as_slice(),
            b"join".as_slice(),
            b"while".as_slice(),
            b"with".as_slice(),
            b"return".as_slice(),
            b"print".as_slice(),
            b"new".as_slice(),
            b"len".as_slice(),
            b"true".as_slice(),
            b"false".as_slice(),
            b"int".as_slice(),
            b"nat".as_slice(),
            b"bool".as_slice(),
            b"unit".as_slice(),
        ],
    )
}
