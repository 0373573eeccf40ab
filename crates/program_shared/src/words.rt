//! The words of the command line.

use std::rt::Env;
use std::{env, io};

/// Returns the arguments after the program's name.
pub fn arguments(rt: &(impl Env + AllocGlobal)) -> io::Result<Vec<String>> {
    let mut words = Vec::new(rt.alloc());
    for word in env::args(rt)?.skip(1) {
        words.push(word)?;
    }
    Ok(words)
}
