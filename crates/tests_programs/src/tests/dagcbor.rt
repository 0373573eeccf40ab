//! The lines, arguments and faults of `dagcbor`.

use crate::tests::dagcar::owned_words;
use program_dagcbor::{run_check, run_command, run_links};
use std::alloc::Global;
use std::io::ErrorKind;
use std::test::Fail;
use tests_shared::{FaultySource, StingySink, agree};

const LINES: &[u8] = b"1817\nzz\n\nF6\n63616263\r\nF5\n420102";

const ANSWERS: &[u8] =
    b"refused NonMinimal\nrefused hex\nrefused Eof\nok null\nok string\nok bool\nok bytes\n";

/// Fails if the lines, read in pieces of `size` bytes, are answered otherwise.
fn is_answered(alloc: Global, size: usize) -> Result<(), Fail> {
    let mut stingy = StingySink::new(alloc, 1000, None);
    let mut input = FaultySource::new(LINES, size, 0, ErrorKind::Other);
    run_check(alloc, &mut input, &mut stingy)?;
    agree((size, stingy.held()), (size, ANSWERS))
}

/// Fails if `check` answers the lines otherwise.
fn checks(alloc: Global, lines: &[u8], answers: &[u8]) -> Result<(), Fail> {
    let mut output = Vec::new(alloc);
    let mut input = lines;
    run_check(alloc, &mut input, &mut output)?;
    agree(output.as_slice(), answers)
}

#[test]
fn answers_each_line(rt: HostRuntime) -> Result<(), Fail> {
    checks(rt.alloc(), LINES, ANSWERS)?;
    // The pieces cut the lines at each of their bytes.
    for size in 1..LINES.len() {
        is_answered(rt.alloc(), size)?;
    }
    Ok(())
}

#[test]
fn every_kind_has_its_name(rt: HostRuntime) -> Result<(), Fail> {
    checks(
        rt.alloc(),
        b"83010203\n1817\nzz\n\na10102\na0\nd82a4500015500\nd82a450001550000\nf600\n",
        b"ok list\nrefused NonMinimal\nrefused hex\nrefused Eof\nrefused Mismatch\nok map\nrefused Eof\nok link\nrefused TrailingData\n",
    )
}

#[test]
fn links_of_each_line(rt: HostRuntime) -> Result<(), Fail> {
    let mut lines =
        b"d82a490001ce019b010263c8\n80\na26162d82a450001550000626161d82a450001710000\nf600\n81\nzz\n".as_slice();
    let answers = b"01ce019b010263c8\nnone\n01550000 01710000\nnone\nrefused Eof\nrefused hex\n";
    let mut output = Vec::new(rt.alloc());
    run_links(rt.alloc(), &mut lines, &mut output)?;
    agree(output.as_slice(), answers.as_slice())
}

const USED: &[u8] = b"usage: dagcbor check|links\n";

/// Arguments, the status of a run of them over a line, and its output and error messages.
const WORDS: &[(&[&str], u8, &[u8], &[u8])] = &[
    (&["check"], 0, b"ok integer\n", b""),
    (&["links"], 0, b"none\n", b""),
    (&[], 2, b"", USED),
    (&["check", "check"], 2, b"", USED),
    (&["list"], 2, b"", USED),
    (&["Check"], 2, b"", USED),
];

#[test]
fn words_pick_the_command(rt: HostRuntime) -> Result<(), Fail> {
    let alloc = rt.alloc();
    for (words, status, written, told) in WORDS {
        let mut input = b"1818\n".as_slice();
        let (mut output, mut errors) = (Vec::new(alloc), Vec::new(alloc));
        let args = owned_words(alloc, words)?;
        let ended = run_command(alloc, &args, &mut input, &mut output, &mut errors);
        agree(
            (ended, output.as_slice(), errors.as_slice()),
            (*status, *written, *told),
        )?;
    }
    Ok(())
}

/// A fault in writing the error message is not reported.
#[test]
fn a_fault_in_telling_is_not_told(rt: HostRuntime) -> Result<(), Fail> {
    let alloc = rt.alloc();
    let mut deaf = StingySink::new(alloc, 0, Some(ErrorKind::Other));
    let mut output = Vec::new(alloc);
    let args = owned_words(alloc, &[])?;
    let ended = run_command(alloc, &args, &mut &LINES[..], &mut output, &mut deaf);
    agree(ended, 2)
}
