//! The program `dagcbor`: tests lines of hexadecimal text against DAG-CBOR, or lists their links.
#![tactic(auto)]

use program_dagcbor::{OUT_OF_MEMORY, USAGE, run_command};
use program_shared::{arguments, give_up};
use std::io::{BufReader, ErrorKind};
use std::process::ExitCode;

fn main(rt: HostRuntime) -> ExitCode {
    let mut errors = rt.stderr().lock();
    let status = match arguments(&rt) {
        // Without a buffer, a pipe is read one byte per call.
        Ok(words) => match BufReader::new(rt.alloc(), rt.reader()) {
            Ok(mut input) => run_command(
                rt.alloc(),
                &words,
                &mut input,
                &mut rt.stdout().lock(),
                &mut errors,
            ),
            Err(_) => give_up(&mut errors, OUT_OF_MEMORY, 1),
        },
        Err(e) if e.kind() == ErrorKind::OutOfMemory => give_up(&mut errors, OUT_OF_MEMORY, 1),
        Err(_) => give_up(&mut errors, USAGE, 2),
    };
    ExitCode::from(status)
}
