//! The program `dagstore`: blocks in a durable file.
#![tactic(auto)]

mod counted;
mod serving;

use crate::counted::Counted;
use crate::serving::run_serve;
use ipld_tree::Cid;
use program_dagstore::{
    Asking, Beginning, Command, Fault, HELP, NO_STORE, NOT_READ, NOT_WRITTEN, OUT_OF_MEMORY,
    Progress, USAGE, VERSION, Words, answer_add_roots, answer_at, answer_cat, answer_check,
    answer_collect, answer_count, answer_drop_roots, answer_export, answer_get, answer_has,
    answer_list, answer_ls, answer_put, answer_remove, answer_roots, answer_tree, check_put, end,
    import_blocks, tell_refusal, words_of,
};
use program_parts::no_cid_line;
use program_shared::{ToolError, arguments, give_up, write_all};
use std::fs;
use std::io::{BufReader, BufWriter, ErrorKind, IsTerminal, Read, Write};
use std::process::ExitCode;
use store_on_disk::{BlockStore, FileFrom, FileStore, Wary};

type Store = BlockStore<FileStore<FileFrom<Wary>>>;

/// Progress is reported after this many bytes, and after `BLOCKS` blocks.
const BYTES: u64 = 10_000_000;

const BLOCKS: u64 = 10_000;

/// Stores the blocks of the CAR file that the source has, all or none, and reports progress.
fn import_from<R: Read + Drop, W: Write>(
    rt: &HostRuntime,
    store: &mut Store,
    source: R,
    errors: &mut W,
) -> u8 {
    let Ok(source) = BufReader::new(rt.alloc(), source) else {
        return give_up(errors, OUT_OF_MEMORY, 2);
    };
    let is_told = rt.stderr().is_terminal();
    let progress = Progress::new(rt.alloc(), rt.stderr(), is_told, "bytes are read", BYTES);
    let counted = Counted::new(source, progress);
    import_blocks(rt.alloc(), store, counted, &mut rt.stdout().lock(), errors)
}

/// Stores the blocks of the CAR file at the path, or of the one on standard input.
fn run_import<W: Write>(rt: &HostRuntime, path: &str, from: Option<&str>, errors: &mut W) -> u8 {
    let Some(from) = from else {
        return match open(rt, path, errors) {
            Ok(mut store) => {
                let status = import_from(rt, &mut store, rt.reader(), errors);
                close(store, status)
            }
            Err(status) => status,
        };
    };
    // The source is opened first, so that no store is made if it does not exist.
    let Ok(source) = fs::File::open(rt, from) else {
        return give_up(errors, NOT_READ, 2);
    };
    match open(rt, path, errors) {
        Ok(mut store) => {
            let status = import_from(rt, &mut store, source, errors);
            close(store, status)
        }
        Err(status) => status,
    }
}

/// Stores the block under its name of this codec.
fn put_into<W: Write>(
    rt: &HostRuntime,
    store: &mut Store,
    codec: u64,
    block: &[u8],
    errors: &mut W,
) -> u8 {
    answer_put(
        rt.alloc(),
        store,
        codec,
        block,
        &mut rt.stdout().lock(),
        errors,
    )
}

/// Stores the block on standard input, under its name of this codec. A block that is refused makes
/// no file.
fn run_put<W: Write>(rt: &HostRuntime, path: &str, codec: u64, errors: &mut W) -> u8 {
    let mut block = Vec::new(rt.alloc());
    if rt.reader().read_to_end(&mut block).is_err() {
        return give_up(errors, NOT_READ, 2);
    }
    if let Err(refusal) = check_put(codec, &block) {
        return tell_refusal(&refusal, errors);
    }
    match open(rt, path, errors) {
        Ok(mut store) => {
            let status = put_into(rt, &mut store, codec, &block, errors);
            close(store, status)
        }
        Err(status) => status,
    }
}

/// Writes the roots, one a line.
fn run_roots<W: Write>(rt: &HostRuntime, store: &mut Store, errors: &mut W) -> u8 {
    answer_roots(rt.alloc(), store, &mut rt.stdout().lock(), errors)
}

/// Removes the names from the roots, and writes how many. Status 1 if one is not a root.
fn run_drop_roots<W: Write>(
    rt: &HostRuntime,
    store: &mut Store,
    names: &[Cid],
    errors: &mut W,
) -> u8 {
    answer_drop_roots(rt.alloc(), store, names, &mut rt.stdout().lock(), errors)
}

/// Removes the blocks under the names, and writes how many. Status 1 if one is not listed.
fn run_remove<W: Write>(rt: &HostRuntime, store: &mut Store, names: &[Cid], errors: &mut W) -> u8 {
    answer_remove(rt.alloc(), store, names, &mut rt.stdout().lock(), errors)
}

/// Keeps only what links lead to from these roots or, if none is given, from the stored ones, and
/// writes how many names were removed.
fn run_collect<W: Write>(
    rt: &HostRuntime,
    store: &mut Store,
    roots: Vec<Cid>,
    errors: &mut W,
) -> u8 {
    answer_collect(rt.alloc(), store, roots, &mut rt.stdout().lock(), errors)
}

/// Writes to standard output the CAR file of all blocks, with these roots or, if none is given, the
/// stored ones.
fn run_export<W: Write>(
    rt: &HostRuntime,
    store: &mut Store,
    roots: Vec<Cid>,
    errors: &mut W,
) -> u8 {
    let Ok(mut output) = BufWriter::new(rt.alloc(), rt.stdout().lock()) else {
        return give_up(errors, OUT_OF_MEMORY, 2);
    };
    let status = answer_export(store, roots, &mut output, errors);
    flushed(output, status, errors)
}

/// Writes to standard output the CAR file of the blocks that links lead to from the root, and to
/// standard error the links that lead to no block.
fn run_tree<W: Write>(rt: &HostRuntime, store: &mut Store, root: &Cid, errors: &mut W) -> u8 {
    let Ok(mut output) = BufWriter::new(rt.alloc(), rt.stdout().lock()) else {
        return give_up(errors, OUT_OF_MEMORY, 2);
    };
    let status = answer_tree(rt.alloc(), store, root, &mut output, errors);
    flushed(output, status, errors)
}

/// Writes the block under the name to standard output.
fn run_get<W: Write>(rt: &HostRuntime, store: &mut Store, name: &Cid, errors: &mut W) -> u8 {
    answer_get(rt.alloc(), store, name, &mut rt.stdout().lock(), errors)
}

/// Writes to standard output what the path leads to from the root, or reports why it leads to
/// nothing.
fn run_at<W: Write>(
    rt: &HostRuntime,
    store: &mut Store,
    asking: &Asking,
    path: &str,
    errors: &mut W,
) -> u8 {
    let Ok(mut output) = BufWriter::new(rt.alloc(), rt.stdout().lock()) else {
        return give_up(errors, OUT_OF_MEMORY, 2);
    };
    let status = answer_at(
        rt.alloc(),
        store,
        asking.is_raw,
        &asking.root,
        path,
        &mut output,
        errors,
    );
    flushed(output, status, errors)
}

/// Runs `at` over an existing file: writes what the path leads to from the root, or reports why it
/// leads to nothing.
fn run_at_file<W: Write>(
    rt: &HostRuntime,
    file: &str,
    asking: &Asking,
    path: &str,
    errors: &mut W,
) -> u8 {
    match open_old(rt, file, errors) {
        Ok(mut store) => run_at(rt, &mut store, asking, path, errors),
        Err(status) => status,
    }
}

/// Writes to standard output the bytes of the IPFS file to which the path leads, or reports why
/// there is none.
fn run_cat<W: Write>(
    rt: &HostRuntime,
    store: &mut Store,
    root: &Cid,
    path: &str,
    errors: &mut W,
) -> u8 {
    let Ok(mut output) = BufWriter::new(rt.alloc(), rt.stdout().lock()) else {
        return give_up(errors, OUT_OF_MEMORY, 2);
    };
    let status = answer_cat(rt.alloc(), store, root, path, &mut output, errors);
    flushed(output, status, errors)
}

/// Runs `cat` over an existing file: writes the bytes of the IPFS file to which the path leads, or
/// reports why there is none.
fn run_cat_file<W: Write>(
    rt: &HostRuntime,
    file: &str,
    at: &Beginning,
    path: &str,
    errors: &mut W,
) -> u8 {
    match open_old(rt, file, errors) {
        Ok(mut store) => run_cat(rt, &mut store, &at.root, path, errors),
        Err(status) => status,
    }
}

/// Lists on standard output what is under the path of names, or reports why there is nothing.
fn run_ls<W: Write>(
    rt: &HostRuntime,
    store: &mut Store,
    root: &Cid,
    path: &str,
    errors: &mut W,
) -> u8 {
    answer_ls(
        rt.alloc(),
        store,
        root,
        path,
        &mut rt.stdout().lock(),
        errors,
    )
}

/// Runs `ls` over an existing file: lists what is under the path of names, or reports why there is
/// nothing.
fn run_ls_file<W: Write>(
    rt: &HostRuntime,
    file: &str,
    at: &Beginning,
    path: &str,
    errors: &mut W,
) -> u8 {
    match open_old(rt, file, errors) {
        Ok(mut store) => run_ls(rt, &mut store, &at.root, path, errors),
        Err(status) => status,
    }
}

/// Writes how many names there are.
fn run_count<W: Write>(rt: &HostRuntime, store: &mut Store, errors: &mut W) -> u8 {
    answer_count(rt.alloc(), store, &mut rt.stdout().lock(), errors)
}

/// Returns the status, once all output is flushed.
fn flushed<O: Write + Drop, W: Write>(mut output: O, status: u8, errors: &mut W) -> u8 {
    match output.flush() {
        Err(_) if status != 2 => give_up(errors, NOT_WRITTEN, 2),
        _ => status,
    }
}

/// Writes the verdict on each block, and reports progress.
fn run_check<W: Write>(rt: &HostRuntime, store: &mut Store, errors: &mut W) -> u8 {
    let Ok(mut output) = BufWriter::new(rt.alloc(), rt.stdout().lock()) else {
        return give_up(errors, OUT_OF_MEMORY, 2);
    };
    let is_told = rt.stderr().is_terminal();
    let mut progress = Progress::new(
        rt.alloc(),
        rt.stderr(),
        is_told,
        "blocks are judged",
        BLOCKS,
    );
    let status = answer_check(rt.alloc(), store, &mut output, errors, &mut progress);
    flushed(output, status, errors)
}

/// Writes a line for each block.
fn run_list<W: Write>(rt: &HostRuntime, store: &mut Store, errors: &mut W) -> u8 {
    let Ok(mut output) = BufWriter::new(rt.alloc(), rt.stdout().lock()) else {
        return give_up(errors, OUT_OF_MEMORY, 2);
    };
    let status = answer_list(rt.alloc(), store, &mut output, errors);
    flushed(output, status, errors)
}

/// Opens the store, or makes it. Returns the status if it cannot.
#[tactic(auto, using(store_on_disk::proofs::Trusting::nothing_left))]
fn open<W: Write>(rt: &HostRuntime, path: &str, errors: &mut W) -> Result<Store, u8> {
    match BlockStore::open(rt, path, Wary) {
        Ok(store) => Ok(store),
        Err(refusal) => Err(tell_refusal(&refusal, errors)),
    }
}

/// Opens the store in an existing file. Returns the status if there is none, or it cannot be
/// opened.
fn open_old<W: Write>(rt: &HostRuntime, path: &str, errors: &mut W) -> Result<Store, u8> {
    if matches!(fs::exists(rt, path), Ok(false)) {
        return Err(give_up(errors, NO_STORE, 1));
    }
    open(rt, path, errors)
}

/// Opens an existing store for `check`: each page is checked.
fn open_whole<W: Write>(rt: &HostRuntime, path: &str, errors: &mut W) -> Result<Store, u8> {
    if matches!(fs::exists(rt, path), Ok(false)) {
        return Err(give_up(errors, NO_STORE, 1));
    }
    match BlockStore::open_whole(rt, path, Wary) {
        Ok(store) => Ok(store),
        Err(refusal) => Err(tell_refusal(&refusal, errors)),
    }
}

/// Moves the log into the file, so that no later call reads it. If that fails, the log stays, and
/// has all that was reported as stored.
fn close(store: Store, status: u8) -> u8 {
    let _ = store.into_file();
    status
}

/// Runs the command on an existing file.
fn run<W: Write>(rt: &HostRuntime, path: &str, command: Command, errors: &mut W) -> u8 {
    let opened = match command {
        Command::Check => open_whole(rt, path, errors),
        Command::Serve => open(rt, path, errors),
        _ => open_old(rt, path, errors),
    };
    match opened {
        Ok(mut store) => {
            let status = run_over(rt, &mut store, command, errors);
            close(store, status)
        }
        Err(status) => status,
    }
}

fn run_over<W: Write>(rt: &HostRuntime, store: &mut Store, command: Command, errors: &mut W) -> u8 {
    match command {
        Command::Export(roots) => run_export(rt, store, roots, errors),
        Command::Get(name) => run_get(rt, store, &name, errors),
        Command::Has(name) => answer_has(store, &name, errors),
        Command::Remove(names) => run_remove(rt, store, &names, errors),
        Command::Collect(roots) => run_collect(rt, store, roots, errors),
        Command::AddRoots(names) => answer_add_roots(store, &names, errors),
        Command::DropRoots(names) => run_drop_roots(rt, store, &names, errors),
        Command::Roots => run_roots(rt, store, errors),
        Command::Tree(root) => run_tree(rt, store, &root, errors),
        Command::Check => run_check(rt, store, errors),
        Command::List => run_list(rt, store, errors),
        Command::Count => run_count(rt, store, errors),
        Command::Serve => run_serve(rt, store, errors),
    }
}

/// Writes the text that was asked for.
fn run_text<W: Write>(rt: &HostRuntime, text: &str, errors: &mut W) -> u8 {
    match write_all(&mut rt.stdout().lock(), text.as_bytes()) {
        Ok(()) => 0,
        Err(_) => end(Err(Fault::Tool(ToolError::Output)), errors),
    }
}

/// Returns true if the word asks for a text, so that it names no file.
fn is_of_help(word: &str) -> bool {
    word == "--help" || word == "--version"
}

/// Runs the command that the arguments name, and returns the exit status.
fn run_words<W: Write>(rt: &HostRuntime, words: &[String], errors: &mut W) -> u8 {
    if words.len() > 1 && is_of_help(words[0].as_str()) {
        return give_up(errors, USAGE, 2);
    }
    match words_of(rt.alloc(), words) {
        Ok(Words::Import(path, from)) => run_import(rt, path, from, errors),
        Ok(Words::Put(path, codec)) => run_put(rt, path, codec, errors),
        Ok(Words::At(file, asking, path)) => run_at_file(rt, file, &asking, path, errors),
        Ok(Words::Cat(file, at, path)) => run_cat_file(rt, file, &at, path, errors),
        Ok(Words::Ls(file, at, path)) => run_ls_file(rt, file, &at, path, errors),
        Ok(Words::Do(path, command)) => run(rt, path, command, errors),
        Ok(Words::Help) => run_text(rt, HELP, errors),
        Ok(Words::Version) => run_text(rt, VERSION, errors),
        Ok(Words::NoCid(cause)) => give_up(errors, no_cid_line(&cause), 2),
        Ok(Words::Unknown) => give_up(errors, USAGE, 2),
        Err(_) => give_up(errors, OUT_OF_MEMORY, 2),
    }
}

fn main(rt: HostRuntime) -> ExitCode {
    let mut errors = rt.stderr().lock();
    let status = match arguments(&rt) {
        Ok(words) => run_words(&rt, &words, &mut errors),
        Err(e) if e.kind() == ErrorKind::OutOfMemory => give_up(&mut errors, OUT_OF_MEMORY, 2),
        Err(_) => give_up(&mut errors, USAGE, 2),
    };
    ExitCode::from(status)
}
