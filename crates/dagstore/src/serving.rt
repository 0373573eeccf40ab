//! `serve`: requests on standard input, and the replies on standard output.

use program_dagstore::{NOT_READ, OUT_OF_MEMORY, tell_tool};
use program_serve::{
    Pause, answer_bad, answer_export, answer_import, answer_requests, refuse_file,
};
use program_shared::{ToolError, give_up};
use std::fs::File;
use std::io::{BufReader, BufWriter, Write};
use std::{fs, io};
use store_on_disk::{BlockStore, FileFrom, FileStore, Wary};

type Store = BlockStore<FileStore<FileFrom<Wary>>>;

/// The message for a file that is not made.
const NOT_MADE: &[u8] = b"dagstore: the file is there, or cannot be made\n";

/// Stores the blocks of the CAR file at the path, all or none.
fn serve_import(rt: &HostRuntime, store: &mut Store, path: &str) -> Result<(), ToolError> {
    let mut output = rt.stdout().lock();
    let Ok(file) = File::open(rt, path) else {
        return refuse_file(rt.alloc(), NOT_READ.as_bytes(), &mut output);
    };
    match BufReader::new(rt.alloc(), file) {
        Ok(source) => answer_import(rt.alloc(), store, source, &mut output),
        Err(_) => Err(ToolError::OutOfMemory),
    }
}

/// Makes the file, where no file may be. It is no standard stream, not even one that was closed.
fn new_file(rt: &HostRuntime, path: &str) -> io::Result<File> {
    let made = File::create_new(rt, path)?;
    let file = made.try_clone();
    if file.is_err() {
        let _ = fs::remove_file(rt, path);
    }
    file
}

/// Writes a CAR file of all blocks at the path, where no file may be. One that is not complete is
/// removed.
fn serve_export(rt: &HostRuntime, store: &mut Store, path: &str) -> Result<(), ToolError> {
    let mut output = rt.stdout().lock();
    let Ok(file) = new_file(rt, path) else {
        return refuse_file(rt.alloc(), NOT_MADE, &mut output);
    };
    let Ok(mut file) = BufWriter::new(rt.alloc(), file) else {
        let _ = fs::remove_file(rt, path);
        return Err(ToolError::OutOfMemory);
    };
    match answer_export(rt.alloc(), store, &mut file, &mut output) {
        Ok(true) => Ok(()),
        Ok(false) => {
            let _ = fs::remove_file(rt, path);
            Ok(())
        }
        Err(error) => {
            let _ = fs::remove_file(rt, path);
            Err(error)
        }
    }
}

/// Handles why the answers paused. Returns the status if no more requests are read.
fn go_on(rt: &HostRuntime, store: &mut Store, pause: Pause) -> Result<Option<u8>, ToolError> {
    match pause {
        Pause::End => Ok(Some(0)),
        Pause::Cut | Pause::Bad => Ok(Some(answer_bad(&mut rt.stdout().lock()))),
        Pause::Import(path) => {
            serve_import(rt, store, path.as_str())?;
            Ok(None)
        }
        Pause::Export(path) => {
            serve_export(rt, store, path.as_str())?;
            Ok(None)
        }
    }
}

/// Answers the requests until there are no more. What is not committed by then is undone.
pub fn run_serve<W: Write>(rt: &HostRuntime, store: &mut Store, errors: &mut W) -> u8 {
    let Ok(mut requests) = BufReader::new(rt.alloc(), rt.reader()) else {
        return give_up(errors, OUT_OF_MEMORY, 2);
    };
    for _count in 0..u64::MAX {
        let stopped = answer_requests(rt.alloc(), store, &mut requests, &mut rt.stdout().lock());
        let done = match stopped {
            Ok(pause) => go_on(rt, store, pause),
            Err(error) => Err(error),
        };
        match done {
            Ok(None) => {}
            Ok(Some(status)) => return status,
            Err(error) => return tell_tool(&error, errors),
        }
    }
    2
}
