// Each call of the outside fails once, and a sink has less room than the lines.
use crate::running::{Outcome, one, run};
use dtal_driver::dtal_top;
use std::test::Fail;
use xan_io::{MemSink, SafeFiles};

/// Prints its parameter and returns it.
const ECHO: &[u8] =
    b"dtal 1\nfun main {1|} (int(+1v0+0)) {1|} int(+1v1+0)\nprint r0\nret r0\nend\n";

const RUN_ECHO: &[&str] = &["run", "text", "int=77"];

/// Whether a run whose lines are cut ends with 4, after a part of them.
fn is_cut(run: &Outcome) -> bool {
    b"77\n77\n".starts_with(run.said.as_slice()) && run.said.len() < 6 && run.status == 4
}

#[test]
fn each_call_fails_once(rt: HostRuntime) -> Result<(), Fail> {
    let alloc = rt.alloc();
    let read = run(
        alloc,
        RUN_ECHO,
        Some(ECHO),
        one(alloc, 0)?,
        1000,
        Vec::new(alloc),
    )?;
    assert_eq!(rt; read.status, 3);
    assert!(rt; read.said.as_slice() == b"read: failed\n".as_slice());
    // Each line is one piece: the run puts twice.
    for put in 0..2u64 {
        let cut = run(
            alloc,
            RUN_ECHO,
            Some(ECHO),
            Vec::new(alloc),
            1000,
            one(alloc, put)?,
        )?;
        assert!(rt; is_cut(&cut), "put {put}");
    }
    for room in 0..6u64 {
        let cut = run(
            alloc,
            RUN_ECHO,
            Some(ECHO),
            Vec::new(alloc),
            room,
            Vec::new(alloc),
        )?;
        assert!(rt; is_cut(&cut), "room {room}");
    }
    let whole = run(
        alloc,
        RUN_ECHO,
        Some(ECHO),
        Vec::new(alloc),
        6,
        Vec::new(alloc),
    )?;
    assert_eq!(rt; whole.status, 0);
    Ok(())
}

#[test]
fn safe_files_serve_as_well(rt: HostRuntime) -> Result<(), Fail> {
    let alloc = rt.alloc();
    let mut files = SafeFiles::new(alloc);
    files.set("text", ECHO)?;
    let mut out = MemSink::new(alloc, 1000, Vec::new(alloc))?;
    assert_eq!(rt; dtal_top(alloc, RUN_ECHO, &mut files, &mut out), 0);
    assert!(rt; out.bytes() == b"77\n77\n".as_slice());
    Ok(())
}
