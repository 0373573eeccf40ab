//! `filter` and `merge`: CAR files of sections of other files. The expected bytes are made by
//! another program.

use crate::tests::dagcar::owned_words;
use dagcbor_heads::IoReader;
use program_dagcar_files::{run_filter, run_listed, run_merged};
use program_parts::input_over;
use program_sections::{By, Filter, Kept, filter_of, merge_of};
use std::alloc::Global;
use std::test::Fail;
use tests_shared::agree;

/// A list of links, the list of 1, 2 and 3, `raw`, a section whose bytes do not match its CID, and
/// the second section again.
pub(crate) const FILE: &[u8] =
    b":\xa2eroots\x81\xd8*X%\x00\x01q\x12 \xf6MZH\x98\x0fw\x1c\xd1$\x9a|\x1bl\xd1H(\x0c}\x7f\x08\x87\xf0m\xb1*\xf9e\x0e\xb4\xee\xb8gversion\x01w\x01q\x12 \xf6MZH\x98\x0fw\x1c\xd1$\x9a|\x1bl\xd1H(\x0c}\x7f\x08\x87\xf0m\xb1*\xf9e\x0e\xb4\xee\xb8\x82\xd8*X%\x00\x01q\x12 J\xbc1\x13|\xe78\xd9\xac\xeb\x8a\x1d\x1dQ\xf1\\\xadB\xc2\xb0\x8d\xcb~\xd1y\xf77\xa1\x94\xb3U\xe7\xd8*X%\x00\x01U\x12 \xd7C\x9b\xee$w;\xcb\xfa-\n\x97\x94~\xe3b'\xb1\x0d\x10\"\xb1\xa5XG\xe9(\x96[\xb6\xbf\xde(\x01q\x12 J\xbc1\x13|\xe78\xd9\xac\xeb\x8a\x1d\x1dQ\xf1\\\xadB\xc2\xb0\x8d\xcb~\xd1y\xf77\xa1\x94\xb3U\xe7\x83\x01\x02\x03'\x01U\x12 \xd7C\x9b\xee$w;\xcb\xfa-\n\x97\x94~\xe3b'\xb1\x0d\x10\"\xb1\xa5XG\xe9(\x96[\xb6\xbf\xderaw/\x01U\x12 '\x04/Nn\xca}\x0b*~\xe4\x02m\xf2\xec\xfaQ\xd33\x9em\x12*\xa0\x99\x11\x8e\xcd\x85c\xba\xd9wrong bytes(\x01q\x12 J\xbc1\x13|\xe78\xd9\xac\xeb\x8a\x1d\x1dQ\xf1\\\xadB\xc2\xb0\x8d\xcb~\xd1y\xf77\xa1\x94\xb3U\xe7\x83\x01\x02\x03";

/// Its sections of DAG-CBOR.
const CBOR: &[u8] =
    b":\xa2eroots\x81\xd8*X%\x00\x01q\x12 \xf6MZH\x98\x0fw\x1c\xd1$\x9a|\x1bl\xd1H(\x0c}\x7f\x08\x87\xf0m\xb1*\xf9e\x0e\xb4\xee\xb8gversion\x01w\x01q\x12 \xf6MZH\x98\x0fw\x1c\xd1$\x9a|\x1bl\xd1H(\x0c}\x7f\x08\x87\xf0m\xb1*\xf9e\x0e\xb4\xee\xb8\x82\xd8*X%\x00\x01q\x12 J\xbc1\x13|\xe78\xd9\xac\xeb\x8a\x1d\x1dQ\xf1\\\xadB\xc2\xb0\x8d\xcb~\xd1y\xf77\xa1\x94\xb3U\xe7\xd8*X%\x00\x01U\x12 \xd7C\x9b\xee$w;\xcb\xfa-\n\x97\x94~\xe3b'\xb1\x0d\x10\"\xb1\xa5XG\xe9(\x96[\xb6\xbf\xde(\x01q\x12 J\xbc1\x13|\xe78\xd9\xac\xeb\x8a\x1d\x1dQ\xf1\\\xadB\xc2\xb0\x8d\xcb~\xd1y\xf77\xa1\x94\xb3U\xe7\x83\x01\x02\x03(\x01q\x12 J\xbc1\x13|\xe78\xd9\xac\xeb\x8a\x1d\x1dQ\xf1\\\xadB\xc2\xb0\x8d\xcb~\xd1y\xf77\xa1\x94\xb3U\xe7\x83\x01\x02\x03";

/// Its sections of raw bytes.
const RAW_ONLY: &[u8] =
    b"\x11\xa2eroots\x80gversion\x01'\x01U\x12 \xd7C\x9b\xee$w;\xcb\xfa-\n\x97\x94~\xe3b'\xb1\x0d\x10\"\xb1\xa5XG\xe9(\x96[\xb6\xbf\xderaw/\x01U\x12 '\x04/Nn\xca}\x0b*~\xe4\x02m\xf2\xec\xfaQ\xd33\x9em\x12*\xa0\x99\x11\x8e\xcd\x85c\xba\xd9wrong bytes";

/// The same, with given roots.
pub(crate) const RAW_ROOTED: &[u8] =
    b"c\xa2eroots\x82\xd8*X%\x00\x01U\x12 \xd7C\x9b\xee$w;\xcb\xfa-\n\x97\x94~\xe3b'\xb1\x0d\x10\"\xb1\xa5XG\xe9(\x96[\xb6\xbf\xde\xd8*X%\x00\x01q\x12 J\xbc1\x13|\xe78\xd9\xac\xeb\x8a\x1d\x1dQ\xf1\\\xadB\xc2\xb0\x8d\xcb~\xd1y\xf77\xa1\x94\xb3U\xe7gversion\x01'\x01U\x12 \xd7C\x9b\xee$w;\xcb\xfa-\n\x97\x94~\xe3b'\xb1\x0d\x10\"\xb1\xa5XG\xe9(\x96[\xb6\xbf\xderaw/\x01U\x12 '\x04/Nn\xca}\x0b*~\xe4\x02m\xf2\xec\xfaQ\xd33\x9em\x12*\xa0\x99\x11\x8e\xcd\x85c\xba\xd9wrong bytes";

/// No sections.
const NONE: &[u8] = b"\x11\xa2eroots\x80gversion\x01";

/// Its sections of one CID.
const NAMED: &[u8] =
    b"\x11\xa2eroots\x80gversion\x01(\x01q\x12 J\xbc1\x13|\xe78\xd9\xac\xeb\x8a\x1d\x1dQ\xf1\\\xadB\xc2\xb0\x8d\xcb~\xd1y\xf77\xa1\x94\xb3U\xe7\x83\x01\x02\x03(\x01q\x12 J\xbc1\x13|\xe78\xd9\xac\xeb\x8a\x1d\x1dQ\xf1\\\xadB\xc2\xb0\x8d\xcb~\xd1y\xf77\xa1\x94\xb3U\xe7\x83\x01\x02\x03";

/// Its sections of DAG-CBOR before the last section.
const CBOR_FRONT: &[u8] =
    b":\xa2eroots\x81\xd8*X%\x00\x01q\x12 \xf6MZH\x98\x0fw\x1c\xd1$\x9a|\x1bl\xd1H(\x0c}\x7f\x08\x87\xf0m\xb1*\xf9e\x0e\xb4\xee\xb8gversion\x01w\x01q\x12 \xf6MZH\x98\x0fw\x1c\xd1$\x9a|\x1bl\xd1H(\x0c}\x7f\x08\x87\xf0m\xb1*\xf9e\x0e\xb4\xee\xb8\x82\xd8*X%\x00\x01q\x12 J\xbc1\x13|\xe78\xd9\xac\xeb\x8a\x1d\x1dQ\xf1\\\xadB\xc2\xb0\x8d\xcb~\xd1y\xf77\xa1\x94\xb3U\xe7\xd8*X%\x00\x01U\x12 \xd7C\x9b\xee$w;\xcb\xfa-\n\x97\x94~\xe3b'\xb1\x0d\x10\"\xb1\xa5XG\xe9(\x96[\xb6\xbf\xde(\x01q\x12 J\xbc1\x13|\xe78\xd9\xac\xeb\x8a\x1d\x1dQ\xf1\\\xadB\xc2\xb0\x8d\xcb~\xd1y\xf77\xa1\x94\xb3U\xe7\x83\x01\x02\x03";

/// A CID, one that no section has, before a carriage return, and the first again.
const LIST: &[u8] =
    b"bafyreickxqyrg7hhhdm2z24kduovd4k4vvbmfmenzn7nc6pxg6qzjm2v44\nbafybeibxrtswvhiunvixjse5dqbvhv7y4ise5cn3qojvuwy33t26os2op4\x0d\nbafyreickxqyrg7hhhdm2z24kduovd4k4vvbmfmenzn7nc6pxg6qzjm2v44";

/// A CID, and a line that is not one.
const BAD: &[u8] = b"bafyreickxqyrg7hhhdm2z24kduovd4k4vvbmfmenzn7nc6pxg6qzjm2v44\nhello\n";

/// A CID.
const HELD: &[u8] = b"bafyreickxqyrg7hhhdm2z24kduovd4k4vvbmfmenzn7nc6pxg6qzjm2v44\n";

/// A CID, and an empty line.
const GAP: &[u8] = b"bafyreickxqyrg7hhhdm2z24kduovd4k4vvbmfmenzn7nc6pxg6qzjm2v44\n\n";

const MISSING: &[u8] =
    b"missing bafybeibxrtswvhiunvixjse5dqbvhv7y4ise5cn3qojvuwy33t26os2op4 dag-pb\n";

/// The CID of `raw`, as text.
pub(crate) const OF_RAW: &str = "bafkreigxion64jdxhpf7uliks6kh5y3ce6yq2ebcwgsvqr7jfclfxnv73y";

/// The CID of the list of 1, 2 and 3, as text.
pub(crate) const OF_LIST: &str = "bafyreickxqyrg7hhhdm2z24kduovd4k4vvbmfmenzn7nc6pxg6qzjm2v44";

/// Fails if the arguments give anything else for the list and the file.
fn filters(
    alloc: Global,
    words: &[&str],
    list: &[u8],
    file: &[u8],
    wanted: (u8, &[u8], &[u8]),
) -> Result<(), Fail> {
    let args = owned_words(alloc, words)?;
    let Some(asked) = filter_of(alloc, &args)? else {
        return Err(Fail::new("the words ask for nothing"));
    };
    let (mut list, mut input) = (list, file);
    let (mut output, mut errors) = (Vec::new(alloc), Vec::new(alloc));
    let roots = asked.roots;
    let status = match asked.by {
        By::Codec(codec) => {
            let kept = Kept::Codec(codec);
            let filter = Filter { roots, kept };
            run_filter(alloc, &filter, &mut input, &mut output, &mut errors)
        }
        By::Names(_) => run_listed(
            alloc,
            roots,
            &mut list,
            &mut input,
            &mut output,
            &mut errors,
        ),
    };
    agree((status, output.as_slice(), errors.as_slice()), wanted)
}

#[test]
fn sections_of_a_codec_are_kept(rt: HostRuntime) -> Result<(), Fail> {
    let alloc = rt.alloc();
    let by_name = ["filter", "--codec", "dag-cbor"];
    filters(alloc, &by_name, b"", FILE, (0, CBOR, b""))?;
    filters(
        alloc,
        &["filter", "--codec", "0x71", "FILE"],
        b"",
        FILE,
        (0, CBOR, b""),
    )?;
    filters(
        alloc,
        &["filter", "--codec", "raw"],
        b"",
        FILE,
        (0, RAW_ONLY, b""),
    )?;
    filters(
        alloc,
        &["filter", "--codec", "dag-pb"],
        b"",
        FILE,
        (0, NONE, b""),
    )
}

#[test]
fn roots_are_given(rt: HostRuntime) -> Result<(), Fail> {
    let words = [
        "filter", "--root", OF_RAW, "--root", OF_LIST, "--codec", "raw",
    ];
    filters(rt.alloc(), &words, b"", FILE, (0, RAW_ROOTED, b""))
}

#[test]
fn sections_of_names_are_kept(rt: HostRuntime) -> Result<(), Fail> {
    let alloc = rt.alloc();
    let words = ["filter", "--names", "LIST", "FILE"];
    filters(alloc, &words, HELD, FILE, (0, NAMED, b""))?;
    filters(alloc, &words, LIST, FILE, (1, NAMED, MISSING))?;
    filters(alloc, &words, b"", FILE, (0, NONE, b""))?;
    filters(
        alloc,
        &words,
        BAD,
        FILE,
        (1, b"", b"line 2: no CID: UnknownBase\n"),
    )?;
    filters(
        alloc,
        &words,
        GAP,
        FILE,
        (1, b"", b"line 2: no CID: UnknownBase\n"),
    )
}

#[test]
fn what_stands_before_a_fault_is_written(rt: HostRuntime) -> Result<(), Fail> {
    let alloc = rt.alloc();
    let words = ["filter", "--codec", "dag-cbor"];
    let cut = &FILE[..FILE.len() - 1];
    filters(
        alloc,
        &words,
        b"",
        cut,
        (1, CBOR_FRONT, b"refused Truncated\n"),
    )?;
    filters(alloc, &words, b"", b"", (1, b"", b"refused Truncated\n"))
}

/// Fails if the arguments ask for a filter.
fn asks_nothing(alloc: Global, words: &[&str]) -> Result<(), Fail> {
    let args = owned_words(alloc, words)?;
    agree(filter_of(alloc, &args)?.is_none(), true)
}

#[test]
fn other_words_ask_for_no_filter(rt: HostRuntime) -> Result<(), Fail> {
    let alloc = rt.alloc();
    asks_nothing(alloc, &[])?;
    asks_nothing(alloc, &["filter"])?;
    asks_nothing(alloc, &["filter", "--codec"])?;
    asks_nothing(alloc, &["filter", "--codec", "cbor"])?;
    asks_nothing(alloc, &["filter", "--codec", "71"])?;
    asks_nothing(alloc, &["filter", "--codec", "0x"])?;
    asks_nothing(alloc, &["filter", "--codec", "0x10000000000000000"])?;
    asks_nothing(alloc, &["filter", "--root", "raw", "--codec", "raw"])?;
    asks_nothing(alloc, &["filter", "--codec", "raw", "FILE", "FILE"])?;
    asks_nothing(alloc, &["filters", "--codec", "raw"])
}

/// A file whose first section has bytes that do not match its CID.
const WRONG_FIRST: &[u8] =
    b":\xa2eroots\x81\xd8*X%\x00\x01q\x12 J\xbc1\x13|\xe78\xd9\xac\xeb\x8a\x1d\x1dQ\xf1\\\xadB\xc2\xb0\x8d\xcb~\xd1y\xf77\xa1\x94\xb3U\xe7gversion\x01(\x01U\x12 \xd7C\x9b\xee$w;\xcb\xfa-\x0a\x97\x94~\xe3b'\xb1\x0d\x10\"\xb1\xa5XG\xe9(\x96[\xb6\xbf\xdenope(\x01q\x12 J\xbc1\x13|\xe78\xd9\xac\xeb\x8a\x1d\x1dQ\xf1\\\xadB\xc2\xb0\x8d\xcb~\xd1y\xf77\xa1\x94\xb3U\xe7\x83\x01\x02\x03";

/// A file with the right bytes of that CID, a section of the first file, and other bytes under the
/// CID of that section.
const RIGHT_LATER: &[u8] =
    b"c\xa2eroots\x82\xd8*X%\x00\x01U\x12 \xd7C\x9b\xee$w;\xcb\xfa-\x0a\x97\x94~\xe3b'\xb1\x0d\x10\"\xb1\xa5XG\xe9(\x96[\xb6\xbf\xde\xd8*X%\x00\x01q\x12 J\xbc1\x13|\xe78\xd9\xac\xeb\x8a\x1d\x1dQ\xf1\\\xadB\xc2\xb0\x8d\xcb~\xd1y\xf77\xa1\x94\xb3U\xe7gversion\x01'\x01U\x12 \xd7C\x9b\xee$w;\xcb\xfa-\x0a\x97\x94~\xe3b'\xb1\x0d\x10\"\xb1\xa5XG\xe9(\x96[\xb6\xbf\xderaw(\x01q\x12 J\xbc1\x13|\xe78\xd9\xac\xeb\x8a\x1d\x1dQ\xf1\\\xadB\xc2\xb0\x8d\xcb~\xd1y\xf77\xa1\x94\xb3U\xe7\x83\x01\x02\x03)\x01q\x12 J\xbc1\x13|\xe78\xd9\xac\xeb\x8a\x1d\x1dQ\xf1\\\xadB\xc2\xb0\x8d\xcb~\xd1y\xf77\xa1\x94\xb3U\xe7other";

/// The file of the sections of both.
const MERGED: &[u8] =
    b"c\xa2eroots\x82\xd8*X%\x00\x01q\x12 J\xbc1\x13|\xe78\xd9\xac\xeb\x8a\x1d\x1dQ\xf1\\\xadB\xc2\xb0\x8d\xcb~\xd1y\xf77\xa1\x94\xb3U\xe7\xd8*X%\x00\x01U\x12 \xd7C\x9b\xee$w;\xcb\xfa-\x0a\x97\x94~\xe3b'\xb1\x0d\x10\"\xb1\xa5XG\xe9(\x96[\xb6\xbf\xdegversion\x01(\x01U\x12 \xd7C\x9b\xee$w;\xcb\xfa-\x0a\x97\x94~\xe3b'\xb1\x0d\x10\"\xb1\xa5XG\xe9(\x96[\xb6\xbf\xdenope(\x01q\x12 J\xbc1\x13|\xe78\xd9\xac\xeb\x8a\x1d\x1dQ\xf1\\\xadB\xc2\xb0\x8d\xcb~\xd1y\xf77\xa1\x94\xb3U\xe7\x83\x01\x02\x03'\x01U\x12 \xd7C\x9b\xee$w;\xcb\xfa-\x0a\x97\x94~\xe3b'\xb1\x0d\x10\"\xb1\xa5XG\xe9(\x96[\xb6\xbf\xderaw";

/// The same with given roots, one of which is given twice.
const MERGED_ROOTED: &[u8] =
    b"c\xa2eroots\x82\xd8*X%\x00\x01U\x12 \xd7C\x9b\xee$w;\xcb\xfa-\x0a\x97\x94~\xe3b'\xb1\x0d\x10\"\xb1\xa5XG\xe9(\x96[\xb6\xbf\xde\xd8*X%\x00\x01U\x12 \xd7C\x9b\xee$w;\xcb\xfa-\x0a\x97\x94~\xe3b'\xb1\x0d\x10\"\xb1\xa5XG\xe9(\x96[\xb6\xbf\xdegversion\x01(\x01U\x12 \xd7C\x9b\xee$w;\xcb\xfa-\x0a\x97\x94~\xe3b'\xb1\x0d\x10\"\xb1\xa5XG\xe9(\x96[\xb6\xbf\xdenope(\x01q\x12 J\xbc1\x13|\xe78\xd9\xac\xeb\x8a\x1d\x1dQ\xf1\\\xadB\xc2\xb0\x8d\xcb~\xd1y\xf77\xa1\x94\xb3U\xe7\x83\x01\x02\x03'\x01U\x12 \xd7C\x9b\xee$w;\xcb\xfa-\x0a\x97\x94~\xe3b'\xb1\x0d\x10\"\xb1\xa5XG\xe9(\x96[\xb6\xbf\xderaw";

/// The output if no section of the second file is whole.
const MERGED_FRONT: &[u8] =
    b"c\xa2eroots\x82\xd8*X%\x00\x01q\x12 J\xbc1\x13|\xe78\xd9\xac\xeb\x8a\x1d\x1dQ\xf1\\\xadB\xc2\xb0\x8d\xcb~\xd1y\xf77\xa1\x94\xb3U\xe7\xd8*X%\x00\x01U\x12 \xd7C\x9b\xee$w;\xcb\xfa-\x0a\x97\x94~\xe3b'\xb1\x0d\x10\"\xb1\xa5XG\xe9(\x96[\xb6\xbf\xdegversion\x01(\x01U\x12 \xd7C\x9b\xee$w;\xcb\xfa-\x0a\x97\x94~\xe3b'\xb1\x0d\x10\"\xb1\xa5XG\xe9(\x96[\xb6\xbf\xdenope(\x01q\x12 J\xbc1\x13|\xe78\xd9\xac\xeb\x8a\x1d\x1dQ\xf1\\\xadB\xc2\xb0\x8d\xcb~\xd1y\xf77\xa1\x94\xb3U\xe7\x83\x01\x02\x03";

/// Fails if a merge of these files gives anything else.
fn merges(
    alloc: Global,
    words: &[&str],
    files: &[&[u8]],
    wanted: (u8, &[u8], &[u8]),
) -> Result<(), Fail> {
    let args = owned_words(alloc, words)?;
    let Some((roots, _files)) = merge_of(alloc, &args)? else {
        return Err(Fail::new("the words ask for nothing"));
    };
    let mut inputs = Vec::new(alloc);
    for file in files {
        inputs.push(input_over(IoReader::new(*file)))?;
    }
    let (mut output, mut errors) = (Vec::new(alloc), Vec::new(alloc));
    let status = run_merged(alloc, &roots, inputs, &mut output, &mut errors);
    agree((status, output.as_slice(), errors.as_slice()), wanted)
}

#[test]
fn a_right_block_is_not_lost_to_a_wrong_one(rt: HostRuntime) -> Result<(), Fail> {
    let alloc = rt.alloc();
    let words = ["merge", "FIRST", "SECOND"];
    merges(alloc, &words, &[WRONG_FIRST, RIGHT_LATER], (0, MERGED, b""))?;
    let rooted = [
        "merge", "--root", OF_RAW, "--root", OF_RAW, "FIRST", "SECOND",
    ];
    merges(
        alloc,
        &rooted,
        &[WRONG_FIRST, RIGHT_LATER],
        (0, MERGED_ROOTED, b""),
    )
}

#[test]
fn a_merge_tells_which_file_is_none(rt: HostRuntime) -> Result<(), Fail> {
    let alloc = rt.alloc();
    let words = ["merge", "FIRST", "SECOND"];
    let cut = &RIGHT_LATER[..103];
    merges(
        alloc,
        &words,
        &[WRONG_FIRST, cut],
        (1, MERGED_FRONT, b"file 2: refused Truncated\n"),
    )?;
    merges(
        alloc,
        &words,
        &[b"", WRONG_FIRST],
        (1, b"", b"file 1: refused Truncated\n"),
    )
}

#[test]
fn other_words_ask_for_no_merge(rt: HostRuntime) -> Result<(), Fail> {
    let alloc = rt.alloc();
    agree(
        merge_of(alloc, &owned_words(alloc, &["merge", "FILE"])?)?.is_none(),
        true,
    )?;
    agree(
        merge_of(
            alloc,
            &owned_words(alloc, &["merge", "--root", "raw", "FILE", "FILE"])?,
        )?
        .is_none(),
        true,
    )
}
