//! Makes one call of the library as many times as given, with the block on standard input, and
//! prints how many calls succeeded. Timing is done from outside.
#![tactic(auto)]

mod bag;
mod calls;
mod declared;
mod derived;
mod record;

use calls::successes;
use std::io::{ErrorKind, Read};
use std::{env, io};

/// Reads the call's name and the number of times from the words after the program's name.
fn main(rt: HostRuntime) -> io::Result<()> {
    let alloc = rt.alloc();
    let mut words = Vec::new(alloc);
    for word in env::args(&rt)?.skip(1) {
        words.push(word)?;
    }
    let [name, times] = words.as_slice() else {
        return Err(io::Error::from(ErrorKind::InvalidInput));
    };
    let Ok(times) = times.parse::<u64>() else {
        return Err(io::Error::from(ErrorKind::InvalidInput));
    };
    let mut block = Vec::new(alloc);
    rt.reader().read_to_end(&mut block)?;
    match successes(alloc, name, &block, times) {
        Some(count) => println!(rt; "{count}"),
        None => Err(io::Error::from(ErrorKind::InvalidInput)),
    }
}
