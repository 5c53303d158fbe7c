//! What texts are put together from: bytes, numbers and places.

ghost use Rattle.std.specs.Prelude.{◌≡◌, ◌++◌, OnOk, decimal};
ghost use Rattle.std.specs.Fmt.{signed_decimal};
ghost use Rattle.dtal_code.specs.Places.{place_text};

use itoa::Buffer;
use xan_lin::Memory;

/// How many places are registers: the slots are numbered from here.
const REGISTERS: u16 = 16;

/// Appends bytes.
pub(crate) fn put(out: &mut Vec<u8>, bytes: &[u8]) -> Result<(), Memory>
    ensures { OnOk result (out.new.items ≡ out.old.items ++ bytes.now) }
{
    let Ok(()) = out.extend_from_slice(bytes) else {
        return Err(Memory);
    };
    Ok(())
}

/// Appends a number.
pub(crate) fn put_number(out: &mut Vec<u8>, number: u64) -> Result<(), Memory>
    ensures { OnOk result (out.new.items ≡ out.old.items ++ decimal number) }
{
    put(out, Buffer::new().format(number).as_bytes())
}

/// Appends a number with a `-` where it is negative.
pub(crate) fn put_integer(out: &mut Vec<u8>, number: &i64) -> Result<(), Memory>
    ensures { OnOk result (out.new.items ≡ out.old.items ++ signed_decimal number.now) }
{
    put(out, Buffer::new().format(*number).as_bytes())
}

/// Appends `r0` to `r15`, and then `s0` and on.
pub(crate) fn put_place(out: &mut Vec<u8>, place: u16) -> Result<(), Memory>
    ensures { OnOk result (out.new.items ≡ out.old.items ++ place_text place) }
{
    if place < REGISTERS {
        put(out, b"r")?;
        put_number(out, u64::from(place))
    } else {
        put(out, b"s")?;
        put_number(out, u64::from(place - REGISTERS))
    }
}
