// All proper prefixes of a text.
use crate::running::{comes_out, run};
use itoa::Buffer;
use std::alloc::Global;
use std::test::Fail;
use xan_io::Memory;

/// Prints its parameter and returns it.
const ECHO: &[u8] =
    b"dtal 1\nfun main {1|} (int(+1v0+0)) {1|} int(+1v1+0)\nprint r0\nret r0\nend\n";

const VERIFY: &[&str] = &["verify", "text"];

/// Whether the line says that so many bytes begin a text.
fn says_at(alloc: Global, said: &[u8], at: usize) -> Result<bool, Memory> {
    let mut line = Vec::from_slice(alloc, b"text: at ")?;
    let mut buffer = Buffer::new();
    line.extend_from_slice(buffer.format(at).as_bytes())?;
    line.push(b'\n')?;
    Ok(said == line.as_slice())
}

/// The first line alone spells the program without functions, which has no `main`.
const FIRST_LINE: &[u8] = b"dtal 1\n";

#[test]
fn the_first_line_is_the_only_proper_prefix_that_is_a_text(rt: HostRuntime) -> Result<(), Fail> {
    let alloc = rt.alloc();
    for len in 0..ECHO.len() {
        let (prefix, _) = ECHO.split_at(len);
        let verified = run(
            alloc,
            VERIFY,
            Some(prefix),
            Vec::new(alloc),
            1000,
            Vec::new(alloc),
        )?;
        let wanted = if prefix == FIRST_LINE {
            verified.status == 11
                && verified.said.as_slice() == b"refused: program: rule main\n".as_slice()
        } else {
            verified.status == 7 && says_at(alloc, verified.said.as_slice(), len)?
        };
        assert!(rt; wanted, "prefix {len}");
        // A run says the same.
        assert!(rt;
            comes_out(
                alloc,
                &["run", "text", "int=1"],
                Some(prefix),
                verified.status,
                verified.said.as_slice()
            )?,
            "prefix {len}"
        );
    }
    Ok(())
}
