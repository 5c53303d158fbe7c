//! The one spelling of numbers and integers.

ghost use Rattle.std.specs.Prelude.{◌≡◌, ◌++◌, decimal, OnOk, OnErr};
ghost use Rattle.std.specs.Fmt.{signed_decimal};
ghost use Rattle.xan_read.specs.Integers.{with_sign};

use itoa::Buffer;
use std::alloc::AllocError;

/// Puts the one spelling of the number at the end. Where memory runs out, nothing is put.
pub fn push_number(out: &mut Vec<u8>, n: u64) -> Result<(), AllocError>
    ensures ok { OnOk result (out.new.items ≡ out.old.items ++ decimal n) }
    ensures err { OnErr result (out.new.items ≡ out.old.items) }
{
    let mut buffer = Buffer::new();
    out.extend_from_slice(buffer.format(n).as_bytes())
}

/// Puts the one spelling of the integer at the end, with a `-` only where it is negative.
/// Where memory runs out, nothing is put.
pub fn push_integer(out: &mut Vec<u8>, z: i64) -> Result<(), AllocError>
    ensures ok { OnOk result (out.new.items ≡ out.old.items ++ signed_decimal z) }
    ensures err { OnErr result (out.new.items ≡ out.old.items) }
{
    let mut buffer = Buffer::new();
    out.extend_from_slice(buffer.format(z).as_bytes())
}

/// Puts the one spelling of the integer with its sign at the end. Where memory runs out, the sign may be put alone.
#[tactic(auto, using(crate::proofs::SignLaws::with_sign_of))]
pub fn push_signed(out: &mut Vec<u8>, z: i64) -> Result<(), AllocError>
    ensures { OnOk result (out.new.items ≡ out.old.items ++ with_sign z) }
{
    if z < 0 {
        return push_integer(out, z);
    }
    out.push(b'+')?;
    push_integer(out, z)
}
