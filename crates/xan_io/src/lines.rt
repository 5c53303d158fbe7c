//! Lines of output, each put as one piece.

ghost use Rattle.std.specs.Prelude.{◌≡◌, ◌≤◌, ◌++◌, length, codes, OnOk, OnErr};
ghost use Rattle.std.specs.Io.KnownBytes.{append_known};
ghost use Rattle.xan_io.specs.Faults.{Rose};
ghost use Rattle.xan_io.specs.Lines.{number_line};
ghost use Rattle.xan_io.specs.Written.{AppendsPrefix};

use crate::sink::{Sink, SinkFault};
use arrayvec::ArrayString;
use itoa::Buffer;

/// Puts the line of a number as one piece, without memory.
pub fn put_number<O: Sink>(out: &mut O, number: &i64) -> Result<(), SinkFault>
    ensures appended { OnOk result (O.written out.new ≡ append_known (O.written out.old) (number_line number.now)) }
    ensures counted { OnOk result (O.faults out.new ≡ O.faults out.old) }
    ensures prefix { OnErr result (AppendsPrefix (O.written out.old) (O.written out.new) (number_line number.now)) }
    ensures failed { OnErr result (Rose (O.faults out.old) (O.faults out.new)) }
    ensures never_falls { O.faults out.old ≤ O.faults out.new }
{
    let mut buffer = Buffer::new();
    let line = line_of(buffer.format(*number));
    out.put(line.as_bytes())
}

/// The line of a number's digits.
fn line_of(digits: &str) -> ArrayString<41>
    requires { length digits.now ≤ 40 }
    ensures { result.bytes ≡ digits.now ++ codes "\n" }
{
    let mut line = ArrayString::new();
    line.push_str(digits);
    line.push_str("\n");
    line
}
