//! `commit`, `record-proof` and `records --json`: the fields of a repository's commit, the file
//! that proves a record, and the data of all records. Another program found the nodes on the way to
//! a key.

use crate::tests::dagcar::owned_words;
use crate::tests::records::{
    COMMIT, HEADER, LAST_MISSING, LAST_WORD, NO_ROOT, NO_ROOT_TOLD, NODES, RAW_RECORD, RECORD_TOLD,
    RECORDS, TURNED_ROOTS, TWO_ROOTS, file_of,
};
use program_dagcar_files::{run_commit, run_record_proof, run_records_json};
use program_records::{CommitAsked, commit_words_of};
use std::alloc::Global;
use std::test::Fail;
use tests_shared::{agree, joined};

/// The output of `commit`.
const SAID: &[u8] =
    b"commit bafyreib55bymvenkcvnnrc2nukj7esprfjw5lmgykaodqtl7nerzdfoy3m\ndid did:plc:abc\nrev 3jzfcijpj2z2a\ndata bafyreiddco3ofkthgxkialw4g5zmiq4i72pb2mir7ked7nh5fu3b6nx4zi\nprev none\n";

/// Fails if the arguments give anything else for the file.
fn says(
    alloc: Global,
    words: &[&str],
    file: &[u8],
    wanted: (u8, &[u8], &[u8]),
) -> Result<(), Fail> {
    let args = owned_words(alloc, words)?;
    let Some(words) = commit_words_of(&args) else {
        return Err(Fail::new("the words ask for nothing"));
    };
    let (mut output, mut errors) = (Vec::new(alloc), Vec::new(alloc));
    let mut input = file;
    let status = match words.asked {
        CommitAsked::Commit => run_commit(alloc, &mut input, &mut output, &mut errors),
        CommitAsked::Proof(key) => {
            run_record_proof(alloc, key, &mut input, &mut output, &mut errors)
        }
        CommitAsked::Records => run_records_json(alloc, &mut input, &mut output, &mut errors),
    };
    agree((status, output.as_slice(), errors.as_slice()), wanted)
}

#[test]
fn a_commit_says_who_signs_what(rt: HostRuntime) -> Result<(), Fail> {
    let alloc = rt.alloc();
    let alone = joined(alloc, &[HEADER, COMMIT])?;
    says(alloc, &["commit"], &alone, (0, SAID, b""))?;
    let file = file_of(alloc, TWO_ROOTS, NODES, RECORDS)?;
    says(alloc, &["commit", "FILE"], &file, (0, SAID, b""))?;
    let file = file_of(alloc, TURNED_ROOTS, NODES, RECORDS)?;
    says(alloc, &["commit"], &file, (1, b"", RECORD_TOLD))?;
    says(alloc, &["commit"], NO_ROOT, (1, b"", NO_ROOT_TOLD))
}

/// Keys, the indices of the nodes on the way to each from the root down, and the index of its
/// record, if it has one.
const WAYS: &[(&str, &[usize], Option<usize>)] = &[
    ("com.example.note/0", &[4], Some(0)),
    ("com.example.note/1", &[4, 3, 0], Some(1)),
    ("com.example.note/2", &[4, 3, 0], None),
    ("com.example.note/3", &[4, 3], Some(2)),
    ("com.example.note/4", &[4, 3, 1], Some(3)),
    ("com.example.note/5", &[4, 3], Some(4)),
];

/// Returns the section of this index.
fn part(sections: &[&'static [u8]], number: usize) -> Result<&'static [u8], Fail> {
    match sections.get(number) {
        Some(section) => Ok(*section),
        None => Err(Fail::new("no such section")),
    }
}

#[test]
fn a_record_is_proved_by_the_blocks_on_its_way(rt: HostRuntime) -> Result<(), Fail> {
    let alloc = rt.alloc();
    let file = file_of(alloc, HEADER, NODES, RECORDS)?;
    for &(key, way, record) in WAYS {
        let mut wanted = joined(alloc, &[HEADER, COMMIT])?;
        for &node in way {
            wanted.extend_from_slice(part(NODES, node)?)?;
        }
        if let Some(record) = record {
            wanted.extend_from_slice(part(RECORDS, record)?)?;
        }
        let words = ["record-proof", key];
        says(alloc, &words, &file, (0, wanted.as_slice(), b""))?;
        // The proof, as input, gives the same proof.
        says(alloc, &words, &wanted, (0, wanted.as_slice(), b""))?;
    }
    let words = ["record-proof", LAST_WORD, "FILE"];
    says(alloc, &words, &file, (1, b"", LAST_MISSING))
}

/// The data of the records that the file has.
const DATA: &[u8] =
    b"{\"cid\":{\"/\":\"bafyreiarfwso7unahyhknmngrqc6m57tw2ruw6kdf7dtcpipnciplz5gda\"},\"key\":\"com.example.note/0\",\"value\":{\"text\":\"one\"}}\n{\"cid\":{\"/\":\"bafyreihhtxw2cafw6bs4zl7th2nc3v2glggnl63bdv22svvqcbri6jpnkm\"},\"key\":\"com.example.note/1\",\"value\":{\"text\":\"two\"}}\n{\"cid\":{\"/\":\"bafyreihznkb5f4w7xrun3i6qun2qm2lngkab5req5nwbr2k7fs2bo4hreq\"},\"key\":\"com.example.note/3\",\"value\":{\"text\":\"three\"}}\n{\"cid\":{\"/\":\"bafyreifya3avxxu7fguhsehsjv2qsiytl2xjwsaw2m5xnhbezuetj7kp74\"},\"key\":\"com.example.note/4\",\"value\":{\"text\":\"four\"}}\n{\"cid\":{\"/\":\"bafyreifeem2chwoc4h2nzvi27wzhj37h6udiqyncu33wfkzgojfrijndvq\"},\"key\":\"com.example.note/5\",\"value\":{\"text\":\"five\"}}\n";

/// The error message for the last record, which the file lacks.
const LAST_TOLD: &[u8] =
    b"com.example.note/a%20b%0A%25%7F%C3%A9: missing bafyreibnaz72nhjedu24vimmgm3cvydho4qpwxod7ikmlqwhu4rz6a4yfu dag-cbor\n";

/// The error message for a record that is not DAG-CBOR.
const RAW_TOLD: &[u8] =
    b"com.example.note/raw: bafkreicl6ujc6ncfktctxxroxognfn7d2fqavvrryoc2lv6m4i6hpbkfti is raw, not dag-cbor\n";

#[test]
fn all_records_are_written_as_json(rt: HostRuntime) -> Result<(), Fail> {
    let alloc = rt.alloc();
    let words = ["records", "--json"];
    let file = file_of(alloc, HEADER, NODES, RECORDS)?;
    says(alloc, &words, &file, (1, DATA, LAST_TOLD))?;
    let named = ["records", "--json", "FILE"];
    says(alloc, &named, &file, (1, DATA, LAST_TOLD))?;
    says(alloc, &words, RAW_RECORD, (1, b"", RAW_TOLD))?;
    let file = file_of(alloc, TURNED_ROOTS, NODES, RECORDS)?;
    says(alloc, &words, &file, (1, b"", RECORD_TOLD))?;
    says(alloc, &words, NO_ROOT, (1, b"", NO_ROOT_TOLD))
}

#[test]
fn other_words_ask_for_no_commit(rt: HostRuntime) -> Result<(), Fail> {
    let alloc = rt.alloc();
    for words in [
        &["commits"][..],
        &["record-proof"][..],
        &["commit", "FILE", "FILE"][..],
        &["record-proof", "KEY", "FILE", "FILE"][..],
        &["records"][..],
        &["records", "FILE"][..],
        &["records", "--jsons"][..],
        &["records", "--json", "FILE", "FILE"][..],
    ] {
        agree(commit_words_of(&owned_words(alloc, words)?).is_none(), true)?;
    }
    Ok(())
}
