//! The compiler `xanadu` over real files and standard output.
//!
//! It hands its words to [`xanadu_top`] and ends with the status that this answers; all that is promised stands there.
#![tactic(auto)]

use std::process::ExitCode;
use std::{env, io};
use xan_io::{HostFiles, HostSink, words_behind_name};
use xanadu_driver::xanadu_top;

fn main(rt: HostRuntime) -> io::Result<ExitCode> {
    let alloc = rt.alloc();
    let mut files = HostFiles::new(&rt);
    let mut out = HostSink::new(&rt);
    let status = match env::args(&rt) {
        Ok(args) => {
            let args: Vec<String> = args.collect(alloc)?;
            let words = words_behind_name(alloc, args.as_slice())?;
            xanadu_top(alloc, words.as_slice(), &mut files, &mut out)
        }
        // A word that is not UTF-8 makes the words no command.
        Err(error) if error.kind() == io::ErrorKind::InvalidData => {
            xanadu_top(alloc, &[], &mut files, &mut out)
        }
        Err(error) => return Err(error),
    };
    Ok(ExitCode::from(status))
}
