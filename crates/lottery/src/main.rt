//! The program `lottery`: its words, the files of the disk and the standard streams for the commands of `alloc_cli`.
#![tactic(auto)]

use alloc_cli::run;
use device_core::{DiskFiles, StdSink};
use std::alloc::AllocError;
use std::env;
use std::io::{ErrorKind, Write};
use std::process::ExitCode;

// The words after the program's name. There are none where one is no text or they can't be read.
fn gather(rt: &HostRuntime) -> Result<Vec<String>, AllocError> {
    match env::args(rt) {
        Ok(words) => words.skip(1).collect(rt.alloc()),
        Err(error) if error.kind() == ErrorKind::OutOfMemory => Err(AllocError),
        Err(_) => Ok(Vec::new(rt.alloc())),
    }
}

fn main(rt: HostRuntime) -> ExitCode {
    let Ok(words) = gather(&rt) else {
        let _ = rt.stderr().write_all(b"memory\n");
        return ExitCode::from(6);
    };
    let (mut out, mut err) = (StdSink::new(rt.stdout()), StdSink::new(rt.stderr()));
    let ended = run(
        rt.alloc(),
        &words,
        &mut DiskFiles::new(&rt),
        &mut out,
        &mut err,
    );
    ExitCode::from(ended.status)
}
