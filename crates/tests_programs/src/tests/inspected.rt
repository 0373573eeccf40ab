//! `inspect`: the contents of files, in numbers. The expected lines are made by another program.

use crate::tests::dagcar::{GOOD, MIXED, owned_words};
use program_dagcar::run_inspect;
use program_inspect::{Form, Index, inspection_of};
use std::alloc::Global;
use std::test::Fail;
use tests_shared::{agree, joined};

const GOOD_LINES: &[u8] =
    b"version 1\nindex no\nroots 1\nroot bafyreic6rlmkazpohhul74xyu654gs4k37idb2uz6r7vurebasdi766kga there\nsections 3\nrepeated 0\nbytes 49\nleast 3\ngreatest 42\ncodec raw 1 3\ncodec dag-cbor 2 46\nhash 0x12 3 49\nmissing 0\n";

const GOOD_JSON: &[u8] =
    b"{\"version\":1,\"index\":\"no\",\"roots\":[{\"cid\":\"bafyreic6rlmkazpohhul74xyu654gs4k37idb2uz6r7vurebasdi766kga\",\"there\":true}],\"sections\":3,\"repeated\":0,\"bytes\":49,\"least\":3,\"greatest\":42,\"codecs\":[{\"codec\":\"raw\",\"sections\":1,\"bytes\":3},{\"codec\":\"dag-cbor\",\"sections\":2,\"bytes\":46}],\"hashes\":[{\"hash\":\"0x12\",\"sections\":3,\"bytes\":49}],\"missing\":0}\n";

const MIXED_LINES: &[u8] =
    b"version 1\nindex no\nroots 1\nroot bafyreif3oxt7myu3uldnqjfs34ziq4w4lxhqgshgwuho22hby6qa4wym4e there\nsections 5\nrepeated 0\nbytes 139\nleast 1\ngreatest 124\ncodec raw 2 4\ncodec dag-cbor 3 135\nhash 0x12 4 138\nhash 0x13 1 1\nmissing 1\n";

const MIXED_JSON: &[u8] =
    b"{\"version\":1,\"index\":\"no\",\"roots\":[{\"cid\":\"bafyreif3oxt7myu3uldnqjfs34ziq4w4lxhqgshgwuho22hby6qa4wym4e\",\"there\":true}],\"sections\":5,\"repeated\":0,\"bytes\":139,\"least\":1,\"greatest\":124,\"codecs\":[{\"codec\":\"raw\",\"sections\":2,\"bytes\":4},{\"codec\":\"dag-cbor\",\"sections\":3,\"bytes\":135}],\"hashes\":[{\"hash\":\"0x12\",\"sections\":4,\"bytes\":138},{\"hash\":\"0x13\",\"sections\":1,\"bytes\":1}],\"missing\":1}\n";

/// The header of version 2 before the first file, which says that an index begins at byte 77.
const VERSION_2: &[u8] =
    b"\x0a\xa1\x67\x76\x65\x72\x73\x69\x6f\x6e\x02\x00\x01\x02\x03\x04\x05\x06\x07\x08\x09\x0a\x0b\x0c\x0d\x0e\x0f\x38\x00\x00\x00\x00\x00\x00\x00\xdb\x00\x00\x00\x00\x00\x00\x00\x4d\x00\x00\x00\x00\x00\x00\x00\x00\x00\x00\x00\x00";

/// The output for that file after the word for the index.
const VERSION_2_REST: &[u8] =
    b"\nroots 1\nroot bafyreic6rlmkazpohhul74xyu654gs4k37idb2uz6r7vurebasdi766kga there\nsections 3\nrepeated 0\nbytes 49\nleast 3\ngreatest 42\ncodec raw 1 3\ncodec dag-cbor 2 46\nhash 0x12 3 49\nmissing 0\n";

/// Fails if a file gives another status, output or error message.
fn inspects(
    alloc: Global,
    form: Form,
    index: Index,
    file: &[u8],
    status: u8,
    written: &[u8],
    told: &[u8],
) -> Result<(), Fail> {
    let mut input = file;
    let (mut output, mut errors) = (Vec::new(alloc), Vec::new(alloc));
    let ended = run_inspect(alloc, form, index, &mut input, &mut output, &mut errors);
    agree(
        (output.as_slice(), ended, errors.as_slice()),
        (written, status, told),
    )
}

#[test]
fn files_are_inspected(rt: HostRuntime) -> Result<(), Fail> {
    let alloc = rt.alloc();
    let none = Index::Right;
    inspects(alloc, Form::Lines, none, GOOD, 0, GOOD_LINES, b"")?;
    inspects(alloc, Form::Json, none, GOOD, 0, GOOD_JSON, b"")?;
    inspects(alloc, Form::Lines, none, MIXED, 0, MIXED_LINES, b"")?;
    inspects(alloc, Form::Json, none, MIXED, 0, MIXED_JSON, b"")
}

#[test]
fn versions_are_told_apart(rt: HostRuntime) -> Result<(), Fail> {
    let alloc = rt.alloc();
    let file = joined(alloc, &[VERSION_2, GOOD])?;
    let right = joined(alloc, &[b"version 2\nindex right", VERSION_2_REST])?;
    let wrong = joined(alloc, &[b"version 2\nindex wrong", VERSION_2_REST])?;
    let there = joined(alloc, &[b"version 2\nindex yes", VERSION_2_REST])?;
    inspects(alloc, Form::Lines, Index::There, &file, 0, &there, b"")?;
    inspects(alloc, Form::Lines, Index::Right, &file, 0, &right, b"")?;
    inspects(alloc, Form::Lines, Index::Wrong, &file, 0, &wrong, b"")
}

#[test]
fn nothing_is_written_of_what_is_no_file(rt: HostRuntime) -> Result<(), Fail> {
    let alloc = rt.alloc();
    let cut = &GOOD[..GOOD.len() - 1];
    inspects(
        alloc,
        Form::Lines,
        Index::There,
        cut,
        1,
        b"",
        b"refused Truncated\n",
    )?;
    inspects(
        alloc,
        Form::Json,
        Index::There,
        b"",
        1,
        b"",
        b"refused Truncated\n",
    )
}

/// Fails if the arguments ask for anything else.
fn asks(alloc: Global, words: &[&str], wanted: Option<(Form, Option<&str>)>) -> Result<(), Fail> {
    let args = owned_words(alloc, words)?;
    match (inspection_of(&args), wanted) {
        (Some(asked), Some((form, file))) => agree((asked.form, asked.file), (form, file)),
        (asked, wanted) => agree(asked.is_some(), wanted.is_some()),
    }
}

#[test]
fn words_ask_for_a_form_and_a_file(rt: HostRuntime) -> Result<(), Fail> {
    let alloc = rt.alloc();
    asks(alloc, &["inspect"], Some((Form::Lines, None)))?;
    asks(
        alloc,
        &["inspect", "a.car"],
        Some((Form::Lines, Some("a.car"))),
    )?;
    asks(alloc, &["inspect", "--json"], Some((Form::Json, None)))?;
    asks(
        alloc,
        &["inspect", "--json", "-"],
        Some((Form::Json, Some("-"))),
    )?;
    asks(alloc, &["inspect", "a.car", "--json"], None)?;
    asks(alloc, &["check"], None)
}
