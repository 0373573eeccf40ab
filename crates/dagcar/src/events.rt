//! `event`: frames of an AT Protocol event stream.

use crate::{NOT_OPENED, end_output};
use program_dagcar::OneFault;
use program_events::{EventWords, run_events};
use program_shared::give_up;
use std::io::{BufReader, BufWriter, Read, Write};
use std::{fs, io};

/// Writes what the frames of the source say. Returns the exit status.
fn events_over<S: Read + Drop, V: Write>(
    rt: &HostRuntime,
    source: S,
    errors: &mut V,
) -> io::Result<u8> {
    let mut input = BufReader::new(rt.alloc(), source)?;
    let mut output = BufWriter::new(rt.alloc(), OneFault::new(rt.stdout().lock()))?;
    let status = run_events(rt.alloc(), &mut input, &mut output, errors);
    Ok(end_output(&mut output, errors, status))
}

/// Writes what the frames of the named file, or of standard input, say. Returns the exit status.
pub(crate) fn event_file<V: Write>(
    rt: &HostRuntime,
    asked: EventWords<'_>,
    errors: &mut V,
) -> io::Result<u8> {
    let path = match asked.file {
        None | Some("-") => return events_over(rt, rt.reader(), errors),
        Some(path) => path,
    };
    match fs::open(rt, path) {
        Ok(source) => events_over(rt, source, errors),
        Err(_) => Ok(give_up(errors, NOT_OPENED, 2)),
    }
}
