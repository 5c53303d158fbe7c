// Files, sinks, names and arguments: that each call succeeds with ample memory, and what the calls that are to fail leave.
use std::process::Abort;
use std::test::Fail;
use std::{env, fs};
use xan_io::{
    Arg, ArgError, FileFault, FileRead, Files, HostFiles, HostSink, MemFiles, MemSink, Name,
    SafeFiles, Sink, put_number, read_arg,
};

/// The read gave these bytes.
fn is_whole(outcome: Result<FileRead, FileFault>, wanted: &[u8]) -> bool {
    match outcome {
        Ok(FileRead::Whole(bytes)) => bytes.as_slice() == wanted,
        _ => false,
    }
}

/// The read found more bytes than it was to take.
fn is_too_long(outcome: Result<FileRead, FileFault>) -> bool {
    matches!(outcome, Ok(FileRead::TooLong))
}

fn is_failed(outcome: Result<FileRead, FileFault>) -> bool {
    matches!(outcome, Err(FileFault::Failed))
}

#[test]
fn names(rt: HostRuntime) -> Result<(), Fail> {
    let name = Name::from_bytes(rt.alloc(), b"main")?;
    let copy = name.copy()?;
    assert!(rt; name.bytes() == b"main".as_slice());
    assert!(rt; copy.bytes() == b"main".as_slice());
    Ok(())
}

#[test]
fn safe_files(rt: HostRuntime) -> Result<(), Fail> {
    let alloc = rt.alloc();
    let mut files = SafeFiles::new(alloc);
    assert!(rt; files.content("a").is_none());
    assert!(rt; is_whole(files.read(alloc, "a", 0), b""));
    assert!(rt; files.content("a").is_none());
    files.set("a", b"abcde")?;
    assert!(rt; is_whole(files.read(alloc, "a", 5), b"abcde"));
    assert!(rt; is_too_long(files.read(alloc, "a", 4)));
    assert!(rt; files.write(alloc, "a", b"xyz").is_ok());
    assert!(rt; files.content("a") == Some(b"xyz".as_slice()));
    Ok(())
}

/// Runs three calls of which the one of this number fails, and compares what the files then hold.
fn fail_once(rt: &(impl Abort + AllocGlobal), number: u64, b: Option<&[u8]>) -> Result<(), Fail> {
    let alloc = rt.alloc();
    let mut files = MemFiles::new(alloc, vec![in alloc; number]?);
    files.set("a", b"abcde")?;
    let first = files.read(alloc, "a", 5);
    let second = files.write(alloc, "b", b"vwxyz");
    let third = files.read(alloc, "a", 4);
    assert_eq!(rt; is_failed(first), number == 0, "read, {number}");
    assert_eq!(rt; second.is_err(), number == 1, "write, {number}");
    assert_eq!(rt; is_failed(third), number == 2, "read again, {number}");
    assert_eq!(rt; files.content("a"), Some(b"abcde".as_slice()));
    assert_eq!(rt; files.content("b"), b, "at {number}");
    Ok(())
}

#[test]
fn mem_files(rt: HostRuntime) -> Result<(), Fail> {
    fail_once(&rt, 0, Some(b"vwxyz"))?;
    fail_once(&rt, 1, Some(b"vw"))?;
    fail_once(&rt, 2, Some(b"vwxyz"))?;
    let alloc = rt.alloc();
    let mut files = MemFiles::new(alloc, Vec::new(alloc));
    assert!(rt; is_failed(files.read(alloc, "a", 9)), "no such file");
    assert!(rt; files.write(alloc, "a", b"").is_ok());
    assert!(rt; is_whole(files.read(alloc, "a", 0), b""));
    Ok(())
}

/// Puts `abc` and then `de` into so much room.
fn put_twice(
    rt: &(impl Abort + AllocGlobal),
    room: u64,
    fails: &[u64],
    wanted: &[u8],
) -> Result<(), Fail> {
    let mut sink = MemSink::new(rt.alloc(), room, fails.to_vec(rt.alloc())?)?;
    let _ = sink.put(b"abc");
    let _ = sink.put(b"de");
    assert!(rt; sink.bytes() == wanted, "room {room}");
    Ok(())
}

#[test]
fn mem_sink(rt: HostRuntime) -> Result<(), Fail> {
    put_twice(&rt, 0, &[], b"")?;
    put_twice(&rt, 1, &[], b"a")?;
    put_twice(&rt, 2, &[], b"ad")?;
    put_twice(&rt, 3, &[], b"abc")?;
    put_twice(&rt, 4, &[], b"abcd")?;
    put_twice(&rt, 5, &[], b"abcde")?;
    put_twice(&rt, 9, &[0], b"ade")?;
    put_twice(&rt, 9, &[1], b"abcd")
}

#[test]
fn host_sink(rt: HostRuntime) {
    let mut sink = HostSink::new(&rt);
    assert!(rt; sink.put(b"built\n").is_ok());
    assert!(rt; sink.put(b"").is_ok());
}

#[test]
fn host_files(rt: HostRuntime) -> Result<(), Fail> {
    let alloc = rt.alloc();
    let mut path = env::temp_dir(&rt)?;
    path.push("xan_io_host_files")?;
    let name = path.to_str().ok_or("the path is text")?;
    let mut files = HostFiles::new(&rt);
    assert!(rt; files.write(alloc, name, b"abcde").is_ok());
    assert!(rt; is_whole(files.read(alloc, name, 5), b"abcde"));
    assert!(rt; is_too_long(files.read(alloc, name, 4)));
    assert!(rt; files.write(alloc, name, b"xy").is_ok());
    assert!(rt; is_whole(files.read(alloc, name, 5), b"xy"));
    fs::remove_file(&rt, name)?;
    assert!(rt; is_failed(files.read(alloc, name, 5)));
    Ok(())
}

/// A line goes out as one piece: a sink without room for it holds the first half of it.
#[test]
fn a_number_is_one_piece(rt: HostRuntime) -> Result<(), Fail> {
    let alloc = rt.alloc();
    let mut sink = MemSink::new(alloc, 40, Vec::new(alloc))?;
    assert!(rt; put_number(&mut sink, &i64::MIN).is_ok());
    assert!(rt; put_number(&mut sink, &i64::MAX).is_err());
    assert!(rt; sink.bytes() == b"-9223372036854775808\n9223372036".as_slice());
    Ok(())
}

const NUMBERS: &[(&str, i64)] = &[
    ("int=0", 0),
    ("int=7", 7),
    ("int=-1", -1),
    ("int=10", 10),
    ("int=9223372036854775807", i64::MAX),
    ("int=-9223372036854775808", i64::MIN),
];

const ARRAYS: &[(&str, &[i64])] = &[
    ("arr=", &[]),
    ("arr=5", &[5]),
    ("arr=4,5,-2", &[4, 5, -2]),
    (
        "arr=0,-9223372036854775808,9223372036854775807",
        &[0, i64::MIN, i64::MAX],
    ),
];

const NO_ARGUMENTS: &[&str] = &[
    "",
    "i",
    "int",
    "int=",
    "int=-",
    "int=-0",
    "int=00",
    "int=01",
    "int=+1",
    "int= 1",
    "int=1 ",
    "int=1,2",
    "int=0x1",
    "int=9223372036854775808",
    "int=-9223372036854775809",
    "int=99999999999999999999",
    "Int=1",
    "bool=",
    "bool=True",
    "bool=truer",
    "bool=1",
    "arr",
    "arr=,",
    "arr=1,",
    "arr=,1",
    "arr=1,,2",
    "arr=1, 2",
    "arr=1,-0",
    "arr=9223372036854775808",
    "1",
];

fn is_number(rt: &HostRuntime, word: &str, number: i64) -> bool {
    match read_arg(rt.alloc(), word) {
        Ok(Arg::Int(read)) => read == number,
        _ => false,
    }
}

fn is_truth(rt: &HostRuntime, word: &str, truth: bool) -> bool {
    match read_arg(rt.alloc(), word) {
        Ok(Arg::Bool(read)) => read == truth,
        _ => false,
    }
}

fn is_array(rt: &HostRuntime, word: &str, cells: &[i64]) -> bool {
    match read_arg(rt.alloc(), word) {
        Ok(Arg::Array(read)) => read.as_slice() == cells,
        _ => false,
    }
}

fn is_refused(rt: &HostRuntime, word: &str) -> bool {
    match read_arg(rt.alloc(), word) {
        Err(error) => error == ArgError::Text,
        Ok(_) => false,
    }
}

#[test]
fn arguments(rt: HostRuntime) {
    for (word, number) in NUMBERS {
        assert!(rt; is_number(&rt, word, *number), "{word}");
    }
    for (word, cells) in ARRAYS {
        assert!(rt; is_array(&rt, word, cells), "{word}");
    }
    for word in NO_ARGUMENTS {
        assert!(rt; is_refused(&rt, word), "{word}");
    }
    assert!(rt; is_truth(&rt, "bool=true", true));
    assert!(rt; is_truth(&rt, "bool=false", false));
}
