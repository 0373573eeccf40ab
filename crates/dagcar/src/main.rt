//! The program `dagcar`: judges CAR files (versions 1 and 2), and blocks.
#![tactic(auto)]

mod commits;
mod events;
mod sections;
mod split;

use crate::commits::commit_file;
use crate::events::event_file;
use crate::sections::{filter_file, merge_files};
use crate::split::split_file;
use ipld_tree::Cid;
use program_dagcar::{
    OUT_OF_MEMORY, OneFault, USAGE, changes_of, run_changes, run_command, run_inspect, split_words,
};
use program_dagcar_files::{
    IndexAsked, IndexWords, index_of, index_words_of, is_check, name_of, path_words_of, run_asked,
    run_checked, run_entries, run_get, run_index, run_inspected, run_judged,
};
use program_events::event_of;
use program_inspect::{Form, Index, Inspection, inspection_of};
use program_parts::Asked;
use program_records::commit_words_of;
use program_sections::{filter_of, merge_of, split_of};
use program_shared::{arguments, give_up};
use std::fs::File;
use std::io::{BufReader, BufWriter, ErrorKind, Read, Write};
use std::process::ExitCode;
use std::{fs, io};

/// The error line for a file that cannot be opened.
const NOT_OPENED: &str = "dagcar: the file cannot be opened\n";

/// Flushes the buffered output. Returns the exit status of the run.
fn end_output<W: Write, V: Write>(output: &mut W, errors: &mut V, status: u8) -> u8 {
    match output.flush() {
        Err(_) if status != 2 => give_up(errors, "dagcar: output failed\n", 2),
        _ => status,
    }
}

/// Runs the command that the words stand for on the source. Returns the exit status. Buffers the
/// output, so that one call writes many lines.
fn run_over<S: Read + Drop, V: Write>(
    rt: &HostRuntime,
    words: &[String],
    source: S,
    errors: &mut V,
) -> io::Result<u8> {
    // Without a buffer, a pipe is read one byte per call.
    let mut input = BufReader::new(rt.alloc(), source)?;
    let mut output = BufWriter::new(rt.alloc(), OneFault::new(rt.stdout().lock()))?;
    let status = run_command(rt.alloc(), words, &mut input, &mut output, errors);
    Ok(end_output(&mut output, errors, status))
}

/// Writes the differences between the two sources, in the same way.
fn run_between<R: Read + Drop, S: Read + Drop, V: Write>(
    rt: &HostRuntime,
    old: R,
    new: S,
    errors: &mut V,
) -> io::Result<u8> {
    let mut old = BufReader::new(rt.alloc(), old)?;
    let mut new = BufReader::new(rt.alloc(), new)?;
    let mut output = BufWriter::new(rt.alloc(), OneFault::new(rt.stdout().lock()))?;
    let status = run_changes(rt.alloc(), &mut old, &mut new, &mut output, errors);
    Ok(end_output(&mut output, errors, status))
}

/// Writes the differences between a source and the new file, or standard input.
fn run_before<R: Read + Drop, V: Write>(
    rt: &HostRuntime,
    old: R,
    new: &str,
    errors: &mut V,
) -> io::Result<u8> {
    if new == "-" {
        return run_between(rt, old, rt.reader(), errors);
    }
    match fs::open(rt, new) {
        Ok(new) => run_between(rt, old, new, errors),
        Err(_) => Ok(give_up(errors, NOT_OPENED, 2)),
    }
}

/// Writes the differences between two files, one of which can be standard input.
fn run_files<V: Write>(rt: &HostRuntime, old: &str, new: &str, errors: &mut V) -> io::Result<u8> {
    if old == "-" {
        return run_before(rt, rt.reader(), new, errors);
    }
    match fs::open(rt, old) {
        Ok(old) => run_before(rt, old, new, errors),
        Err(_) => Ok(give_up(errors, NOT_OPENED, 2)),
    }
}

/// Writes the named file with an index of its sections.
fn index_file<V: Write>(rt: &HostRuntime, path: &str, errors: &mut V) -> io::Result<u8> {
    let Ok(source) = fs::open(rt, path) else {
        return Ok(give_up(errors, NOT_OPENED, 2));
    };
    let mut output = BufWriter::new(rt.alloc(), OneFault::new(rt.stdout().lock()))?;
    let status = run_index(rt.alloc(), &source, &mut output, errors);
    Ok(end_output(&mut output, errors, status))
}

/// Writes what the index of the named file holds, or what is wrong with it.
fn read_index<V: Write>(rt: &HostRuntime, words: IndexWords<'_>, errors: &mut V) -> io::Result<u8> {
    let Ok(source) = fs::open(rt, words.file) else {
        return Ok(give_up(errors, NOT_OPENED, 2));
    };
    let mut output = BufWriter::new(rt.alloc(), OneFault::new(rt.stdout().lock()))?;
    let status = match words.asked {
        IndexAsked::Entries => run_entries(rt.alloc(), &source, &mut output, errors),
        IndexAsked::Judgement => run_judged(rt.alloc(), &source, &mut output, errors),
    };
    Ok(end_output(&mut output, errors, status))
}

/// Judges the file, and its index, if it has one.
fn check_from<V: Write>(rt: &HostRuntime, source: &File, errors: &mut V) -> io::Result<u8> {
    let mut output = BufWriter::new(rt.alloc(), OneFault::new(rt.stdout().lock()))?;
    let status = run_checked(rt.alloc(), source, &mut output, errors);
    Ok(end_output(&mut output, errors, status))
}

/// Writes the block with this CID, by the file's index, if it has one.
fn get_from<V: Write>(
    rt: &HostRuntime,
    name: &Cid,
    source: &File,
    errors: &mut V,
) -> io::Result<u8> {
    let mut output = BufWriter::new(rt.alloc(), OneFault::new(rt.stdout().lock()))?;
    let status = run_get(rt.alloc(), name, source, &mut output, errors);
    Ok(end_output(&mut output, errors, status))
}

/// Writes the answer for the path in the text, from the root, by the file's index, if it has one.
fn ask_from<V: Write>(
    rt: &HostRuntime,
    asked: Asked,
    root: &Cid,
    text: &str,
    source: &File,
    errors: &mut V,
) -> io::Result<u8> {
    let mut output = BufWriter::new(rt.alloc(), OneFault::new(rt.stdout().lock()))?;
    let status = run_asked(rt.alloc(), asked, root, text, source, &mut output, errors);
    Ok(end_output(&mut output, errors, status))
}

/// Returns whether the file has random access. A pipe does not.
fn has_places(file: &File) -> bool {
    file.metadata().is_ok_and(|it| it.is_file())
}

/// Runs the command that the words stand for on the named file.
fn run_file<V: Write>(
    rt: &HostRuntime,
    words: &[String],
    path: &str,
    errors: &mut V,
) -> io::Result<u8> {
    let Ok(source) = fs::open(rt, path) else {
        return Ok(give_up(errors, NOT_OPENED, 2));
    };
    if !has_places(&source) {
        return run_over(rt, words, source, errors);
    }
    if is_check(words) {
        return check_from(rt, &source, errors);
    }
    if let Some(it) = path_words_of(words) {
        return ask_from(rt, it.asked, &it.root, it.text, &source, errors);
    }
    match name_of(words) {
        Some(name) => get_from(rt, &name, &source, errors),
        None => run_over(rt, words, source, errors),
    }
}

/// Writes what the source holds, in this form.
fn inspect_over<S: Read + Drop, V: Write>(
    rt: &HostRuntime,
    form: Form,
    source: S,
    errors: &mut V,
) -> io::Result<u8> {
    let mut input = BufReader::new(rt.alloc(), source)?;
    let mut output = BufWriter::new(rt.alloc(), OneFault::new(rt.stdout().lock()))?;
    let status = run_inspect(
        rt.alloc(),
        form,
        Index::There,
        &mut input,
        &mut output,
        errors,
    );
    Ok(end_output(&mut output, errors, status))
}

/// Writes what the random-access file holds, and whether its index is right.
fn inspect_from<V: Write>(
    rt: &HostRuntime,
    form: Form,
    source: &File,
    errors: &mut V,
) -> io::Result<u8> {
    let mut output = BufWriter::new(rt.alloc(), OneFault::new(rt.stdout().lock()))?;
    let status = run_inspected(rt.alloc(), form, source, &mut output, errors);
    Ok(end_output(&mut output, errors, status))
}

/// Writes what the named file, or standard input, holds.
fn inspect_file<V: Write>(
    rt: &HostRuntime,
    asked: Inspection<'_>,
    errors: &mut V,
) -> io::Result<u8> {
    let path = match asked.file {
        None | Some("-") => return inspect_over(rt, asked.form, rt.reader(), errors),
        Some(path) => path,
    };
    match fs::open(rt, path) {
        Ok(source) if has_places(&source) => inspect_from(rt, asked.form, &source, errors),
        Ok(source) => inspect_over(rt, asked.form, source, errors),
        Err(_) => Ok(give_up(errors, NOT_OPENED, 2)),
    }
}

/// Runs the command that the words stand for, on the files that they name or on standard input.
fn run_words<V: Write>(rt: &HostRuntime, args: &[String], errors: &mut V) -> io::Result<u8> {
    if let Some((old, new)) = changes_of(args) {
        return run_files(rt, old, new, errors);
    }
    if let Some(asked) = index_words_of(args) {
        return read_index(rt, asked, errors);
    }
    if let Some(path) = index_of(args) {
        return index_file(rt, path, errors);
    }
    if let Some(asked) = inspection_of(args) {
        return inspect_file(rt, asked, errors);
    }
    if let Some(asked) = event_of(args) {
        return event_file(rt, asked, errors);
    }
    if let Some(asked) = filter_of(rt.alloc(), args)? {
        return filter_file(rt, asked, errors);
    }
    if let Some((roots, files)) = merge_of(rt.alloc(), args)? {
        return merge_files(rt, &roots, files, errors);
    }
    if let Some(words) = commit_words_of(args) {
        return commit_file(rt, words, errors);
    }
    if let Some(asked) = split_of(rt.alloc(), args)? {
        return split_file(rt, &asked, errors);
    }
    let (words, file) = split_words(args);
    match file {
        None | Some("-") => run_over(rt, words, rt.reader(), errors),
        Some(path) => run_file(rt, words, path, errors),
    }
}

fn main(rt: HostRuntime) -> ExitCode {
    let mut errors = rt.stderr().lock();
    let status = match arguments(&rt) {
        Ok(words) => match run_words(&rt, &words, &mut errors) {
            Ok(status) => status,
            Err(_) => give_up(&mut errors, OUT_OF_MEMORY, 2),
        },
        Err(e) if e.kind() == ErrorKind::OutOfMemory => give_up(&mut errors, OUT_OF_MEMORY, 2),
        Err(_) => give_up(&mut errors, USAGE, 2),
    };
    ExitCode::from(status)
}
