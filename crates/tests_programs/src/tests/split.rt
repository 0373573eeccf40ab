//! `split`: files of the parts of a file. Another program found where its sections end, and which
//! of them a part has: the header is 59 bytes, and the sections end at 179, 220, 260, 308 and 349.

ghost use Rattle.std.specs.Prelude.{None};

use crate::tests::dagcar::owned_words;
use crate::tests::sections::{FILE, OF_LIST, OF_RAW, RAW_ROOTED};
use program_dagcar_files::run_split;
use program_sections::{NewFiles, NotBegun, split_of};
use program_shared::ToolError;
use std::alloc::Global;
use std::test::Fail;
use tests_shared::agree;

/// The length of the file's header, in bytes.
const HEADER: usize = 59;

/// The length of the header of `RAW_ROOTED`, in bytes.
const ROOTED: usize = 100;

/// The names and bytes of complete files, in order.
#[derive(Drop)]
struct MemoryFiles<'a> {
    alloc: Global,
    /// The name of a file that exists already.
    taken: &'a str,
    whole: Vec<u8>,
}

impl NewFiles for MemoryFiles<'_> {
    type File = Vec<u8>;

    ghost whole = { λ _. None };

    ghost has = { λ _ _. None };

    fn begin(&mut self, name: &str) -> Result<Vec<u8>, NotBegun> {
        if name == self.taken {
            return Err(NotBegun::Exists);
        }
        Ok(Vec::new(self.alloc))
    }

    fn finish(&mut self, name: &str, file: &mut Vec<u8>) -> Result<(), ToolError> {
        self.whole.extend_from_slice(name.as_bytes())?;
        self.whole.extend_from_slice(file)?;
        Ok(())
    }
}

/// Returns the files of these names, each with the header and the bytes between two offsets.
fn files_of(alloc: Global, header: &[u8], parts: &[(&str, usize, usize)]) -> Result<Vec<u8>, Fail> {
    let mut files = Vec::new(alloc);
    for (name, from, to) in parts {
        files.extend_from_slice(name.as_bytes())?;
        files.extend_from_slice(header)?;
        files.extend_from_slice(FILE.get(*from..*to).ok_or("no such bytes")?)?;
    }
    Ok(files)
}

/// Fails if a split of the bytes gives anything else, where a file of this name exists.
fn splits(
    alloc: Global,
    words: &[&str],
    file: &[u8],
    taken: &str,
    wanted: (u8, &[u8], &[u8]),
) -> Result<(), Fail> {
    let args = owned_words(alloc, words)?;
    let Some(asked) = split_of(alloc, &args)? else {
        return Err(Fail::new("the words ask for nothing"));
    };
    let mut input = file;
    let mut errors = Vec::new(alloc);
    let mut files = MemoryFiles {
        alloc,
        taken,
        whole: Vec::new(alloc),
    };
    let status = run_split(alloc, &asked, &mut input, &mut files, &mut errors);
    agree((status, files.whole.as_slice(), errors.as_slice()), wanted)
}

/// Fails if a split of the file into parts of this size gives other parts.
fn splits_so(alloc: Global, size: &str, parts: &[(&str, usize, usize)]) -> Result<(), Fail> {
    let words = ["split", "--size", size, "FILE", "p"];
    let wanted = files_of(alloc, &FILE[..HEADER], parts)?;
    splits(alloc, &words, FILE, "", (0, &wanted, b""))
}

#[test]
fn parts_have_as_many_sections_as_fit(rt: HostRuntime) -> Result<(), Fail> {
    let alloc = rt.alloc();
    let each = [
        ("p-0.car", 59, 179),
        ("p-1.car", 179, 220),
        ("p-2.car", 220, 260),
        ("p-3.car", 260, 308),
        ("p-4.car", 308, 349),
    ];
    splits_so(alloc, "1", &each)?;
    let three = [
        ("p-0.car", 59, 179),
        ("p-1.car", 179, 308),
        ("p-2.car", 308, 349),
    ];
    splits_so(alloc, "219", &three)?;
    splits_so(alloc, "220", &[("p-0.car", 59, 220), ("p-1.car", 220, 349)])?;
    splits_so(alloc, "18446744073709551615", &[("p-0.car", 59, 349)])
}

#[test]
fn a_part_of_no_sections_is_made(rt: HostRuntime) -> Result<(), Fail> {
    let alloc = rt.alloc();
    let words = ["split", "--size", "1", "FILE", "p"];
    let wanted = files_of(alloc, &FILE[..HEADER], &[("p-0.car", 0, 0)])?;
    splits(alloc, &words, &FILE[..HEADER], "", (0, &wanted, b""))
}

#[test]
fn roots_of_parts_are_given(rt: HostRuntime) -> Result<(), Fail> {
    let alloc = rt.alloc();
    let words = [
        "split", "--root", OF_RAW, "--root", OF_LIST, "--size", "229", "FILE", "p",
    ];
    let parts = [
        ("p-0.car", 59, 179),
        ("p-1.car", 179, 308),
        ("p-2.car", 308, 349),
    ];
    let wanted = files_of(alloc, &RAW_ROOTED[..ROOTED], &parts)?;
    splits(alloc, &words, FILE, "", (0, &wanted, b""))
}

#[test]
fn parts_before_a_fault_are_made(rt: HostRuntime) -> Result<(), Fail> {
    let alloc = rt.alloc();
    let words = ["split", "--size", "220", "FILE", "p"];
    let parts = [("p-0.car", 59, 220), ("p-1.car", 220, 308)];
    let wanted = files_of(alloc, &FILE[..HEADER], &parts)?;
    splits(
        alloc,
        &words,
        &FILE[..348],
        "",
        (1, &wanted, b"refused Truncated\n"),
    )?;
    splits(
        alloc,
        &words,
        &FILE[..58],
        "",
        (1, b"", b"refused Truncated\n"),
    )
}

#[test]
fn no_file_is_written_over(rt: HostRuntime) -> Result<(), Fail> {
    let alloc = rt.alloc();
    let words = ["split", "--size", "220", "FILE", "p"];
    let wanted = files_of(alloc, &FILE[..HEADER], &[("p-0.car", 59, 220)])?;
    splits(
        alloc,
        &words,
        FILE,
        "p-1.car",
        (2, &wanted, b"dagcar: there is a file p-1.car\n"),
    )?;
    splits(
        alloc,
        &words,
        FILE,
        "p-0.car",
        (2, b"", b"dagcar: there is a file p-0.car\n"),
    )
}

/// Fails if the arguments ask for a split.
fn asks_nothing(alloc: Global, words: &[&str]) -> Result<(), Fail> {
    agree(
        split_of(alloc, &owned_words(alloc, words)?)?.is_none(),
        true,
    )
}

#[test]
fn other_words_ask_for_no_split(rt: HostRuntime) -> Result<(), Fail> {
    let alloc = rt.alloc();
    asks_nothing(alloc, &["split", "--size", "0", "FILE", "p"])?;
    asks_nothing(alloc, &["split", "--size", "1MB", "FILE", "p"])?;
    asks_nothing(
        alloc,
        &["split", "--size", "18446744073709551616", "FILE", "p"],
    )?;
    asks_nothing(alloc, &["split", "--size", "1", "FILE"])?;
    asks_nothing(alloc, &["split", "FILE", "p", "--size", "1"])?;
    asks_nothing(
        alloc,
        &["split", "--root", "raw", "--size", "1", "FILE", "p"],
    )
}
