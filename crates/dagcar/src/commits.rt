//! `commit`, `record-proof` and `records --json`: what a repository's commit says, the CAR file
//! that proves a record, and the data of all records.

use crate::{NOT_OPENED, end_output};
use program_dagcar::OneFault;
use program_dagcar_files::{run_commit, run_record_proof, run_records_json};
use program_records::{CommitAsked, CommitWords};
use program_shared::give_up;
use std::io::{BufReader, BufWriter, Read, Write};
use std::{fs, io};

/// Writes the answer for the source. Returns the exit status.
fn commit_over<S: Read + Drop, V: Write>(
    rt: &HostRuntime,
    asked: CommitAsked<'_>,
    source: S,
    errors: &mut V,
) -> io::Result<u8> {
    let mut input = BufReader::new(rt.alloc(), source)?;
    let mut output = BufWriter::new(rt.alloc(), OneFault::new(rt.stdout().lock()))?;
    let status = match asked {
        CommitAsked::Commit => run_commit(rt.alloc(), &mut input, &mut output, errors),
        CommitAsked::Proof(key) => {
            run_record_proof(rt.alloc(), key, &mut input, &mut output, errors)
        }
        CommitAsked::Records => run_records_json(rt.alloc(), &mut input, &mut output, errors),
    };
    Ok(end_output(&mut output, errors, status))
}

/// Writes the answer for the named file, or for standard input. Returns the exit status.
pub(crate) fn commit_file<V: Write>(
    rt: &HostRuntime,
    words: CommitWords<'_>,
    errors: &mut V,
) -> io::Result<u8> {
    let path = match words.file {
        None | Some("-") => return commit_over(rt, words.asked, rt.reader(), errors),
        Some(path) => path,
    };
    match fs::open(rt, path) {
        Ok(source) => commit_over(rt, words.asked, source, errors),
        Err(_) => Ok(give_up(errors, NOT_OPENED, 2)),
    }
}
