//! The program: its words, files and standard streams, handed to `geosop_run::run`.
#![tactic(auto)]

use geosop_io::{FileInputs, StdSink};
use geosop_run::run;
use pair_batch::Free;
use std::env;
use std::io::{self, ErrorKind};
use std::process::ExitCode;
use std::rt::Env;

/// The exit status where the words can't be had for want of memory.
const NO_MEMORY: u8 = 5;

/// The exit status where the words can't be had for another reason, as where they aren't UTF-8.
const NO_WORDS: u8 = 6;

fn main(rt: HostRuntime) -> ExitCode {
    match words(&rt) {
        Ok(words) => {
            let mut inputs = FileInputs::new(&rt);
            let mut out = StdSink::new(rt.stdout());
            let mut err = StdSink::new(rt.stderr());
            let status = run(
                &rt,
                rt.alloc(),
                words.as_slice(),
                &mut inputs,
                &mut out,
                &mut err,
                &Free,
            );
            ExitCode::from(status.code())
        }
        Err(error) if error.kind() == ErrorKind::OutOfMemory => ExitCode::from(NO_MEMORY),
        Err(_) => ExitCode::from(NO_WORDS),
    }
}

/// The words of the command line, the program's name first.
fn words<R: Env + AllocGlobal>(rt: &R) -> io::Result<Vec<String>> {
    let mut words = Vec::new(rt.alloc());
    for word in env::args(rt)? {
        words.push(word)?;
    }
    Ok(words)
}
