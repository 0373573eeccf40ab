//! `at` over a file with an index, which is made here: each row has the same answer as over a file
//! without one.

use crate::tests::dagcar::owned_words;
use crate::tests::found::Row;
use crate::tests::paths::{FILE, ROWS};
use program_dagcar_files::{path_words_of, run_asked, run_index};
use std::alloc::Global;
use std::test::Fail;
use tests_shared::agree;

/// The message if the index does not lead to a block on the way.
const NO_ENTRY: &[u8] = b"dagcar: the index has no right entry of a block on the way\n";

/// Returns the file with an index of its sections.
fn indexed(alloc: Global) -> Result<Vec<u8>, Fail> {
    let (mut output, mut errors) = (Vec::new(alloc), Vec::new(alloc));
    let status = run_index(alloc, &FILE, &mut output, &mut errors);
    agree((status, errors.as_slice()), (0, b"".as_slice()))?;
    Ok(output)
}

/// Fails if the arguments of the row give anything else for the file, or any other additional
/// message.
fn answers(alloc: Global, file: &[u8], row: &Row, more: &[u8]) -> Result<(), Fail> {
    let (word, name, status, wanted, line) = *row;
    let args = owned_words(alloc, &[word, name])?;
    let Some(asked) = path_words_of(&args) else {
        return agree((name, status), (name, 2));
    };
    let mut told = line.to_vec(alloc)?;
    told.extend_from_slice(more)?;
    let (mut output, mut errors) = (Vec::new(alloc), Vec::new(alloc));
    let (root, text) = (asked.root, asked.text);
    let ended = run_asked(
        alloc,
        asked.asked,
        &root,
        text,
        &file,
        &mut output,
        &mut errors,
    );
    agree(
        (name, ended, output.as_slice(), errors.as_slice()),
        (name, status, wanted, told.as_slice()),
    )
}

#[test]
fn paths_lead_over_the_blocks_of_an_index(rt: HostRuntime) -> Result<(), Fail> {
    let alloc = rt.alloc();
    let file = indexed(alloc)?;
    for row in ROWS {
        answers(alloc, &file, row, b"")?;
    }
    Ok(())
}

/// The index is cut off, so it leads to no block. The file is read instead, and a message mentions
/// the index if the path leads to an item.
#[test]
fn paths_lead_past_an_index(rt: HostRuntime) -> Result<(), Fail> {
    let alloc = rt.alloc();
    let file = indexed(alloc)?;
    let Some(cut) = file.get(..51 + FILE.len()) else {
        return Err(Fail::new("no index"));
    };
    for row in ROWS {
        let more = if row.2 == 0 { NO_ENTRY } else { b"".as_slice() };
        answers(alloc, cut, row, more)?;
    }
    Ok(())
}
