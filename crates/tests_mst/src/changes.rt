//! Changes of one record, and all differences, with rows that a program in another language made.

use crate::tests::{Kept, agree, entry, is_named, numbered_all};
use atproto_mst::{
    Change, MstEntry, MstError, diff, diff_entries, mst_root, put_entry, read_mst, remove_entry,
    write_changes, write_mst,
};
use ipld_links::name_of_block;
use ipld_tree::Cid;
use std::alloc::{AllocError, Global};
use std::collections::BTreeMap;
use std::test::Fail;

/// For the records 0, 3, 6, to 27: the number of a key, the number of its new record or `None`, the
/// record that it had, and the root of the tree then.
const STEPS: &[(u32, Option<u32>, Option<u32>, &[u8])] = &[
    (
        0,
        None,
        Some(0),
        b"bafyreigsddrpyakmh6fr5ei3suu5br5r3xqlgzqq5iqha4untxomykwyqe",
    ),
    (
        27,
        None,
        Some(27),
        b"bafyreigw6pga53d4a56c5psz6j3yyo2mrcggysjg3peqidn5jhzcgyiody",
    ),
    (
        1,
        Some(1),
        None,
        b"bafyreig7u2sripzyafuxz47sumv6ktxb6zzq6edufysckp6p2fu4i63qwy",
    ),
    (
        40,
        Some(40),
        None,
        b"bafyreiabbe6yt73vme3ow6uusmibax7xgsxegr7iwq2orfc6kez6rrpioq",
    ),
    (
        14,
        Some(14),
        None,
        b"bafyreif6dgyqwvnfr3jtxwr7okdsndxbblbzw5gtfqvkr5dgdkvlpitwdu",
    ),
    (
        14,
        Some(15),
        Some(14),
        b"bafyreibjhikccms6tdx3f6xc4vand4pztxqebmf4hbgpkbecvkiyuvw3km",
    ),
    (
        1,
        Some(2),
        Some(1),
        b"bafyreigzxvqmuvm3p73mblvpbejylmblfvo45il7bba3ry3jc672w6eaga",
    ),
    (
        40,
        Some(41),
        Some(40),
        b"bafyreiflts5whtaprmzyw4l2yerebo6nib33c3m3gkcw2ktp5u3fuy3vwe",
    ),
    (
        5,
        None,
        None,
        b"bafyreiflts5whtaprmzyw4l2yerebo6nib33c3m3gkcw2ktp5u3fuy3vwe",
    ),
    (
        15,
        None,
        Some(15),
        b"bafyreibdjzkhcouuxuisl6krbjyaib3zvqtt7mivexyingynzeuselsi5i",
    ),
    (
        99,
        None,
        None,
        b"bafyreibdjzkhcouuxuisl6krbjyaib3zvqtt7mivexyingynzeuselsi5i",
    ),
];

/// Numbers of keys, and of their records.
const OLD: &[(u32, u32)] = &[
    (1, 1),
    (3, 3),
    (7, 7),
    (10, 10),
    (11, 11),
    (15, 15),
    (16, 16),
    (22, 22),
    (27, 27),
    (29, 29),
    (32, 32),
    (33, 33),
    (36, 36),
    (39, 39),
];

/// The keys and records of entries that differ from `OLD` in some.
const NEW: &[(u32, u32)] = &[
    (3, 103),
    (4, 4),
    (7, 7),
    (8, 8),
    (11, 11),
    (15, 15),
    (16, 116),
    (17, 17),
    (22, 22),
    (24, 24),
    (26, 26),
    (27, 127),
    (28, 28),
    (29, 129),
    (32, 32),
    (36, 36),
];

/// The differences: the number of a key, of its record in the first list, and in the second.
const CHANGES: &[(u32, Option<u32>, Option<u32>)] = &[
    (1, Some(1), None),
    (3, Some(3), Some(103)),
    (4, None, Some(4)),
    (8, None, Some(8)),
    (10, Some(10), None),
    (16, Some(16), Some(116)),
    (17, None, Some(17)),
    (24, None, Some(24)),
    (26, None, Some(26)),
    (27, Some(27), Some(127)),
    (28, None, Some(28)),
    (29, Some(29), Some(129)),
    (33, Some(33), None),
    (39, Some(39), None),
];

const OLD_ROOT: &[u8] = b"bafyreibclx4qhxowyor7zcqxlekik5mt74ufzlthctc6s4rmthwqae2vpi";

const NEW_ROOT: &[u8] = b"bafyreihqvev4flgcdj25y4ppb4qltcyowatuaouwt5hhghievecmlpnpsy";

/// For 200 records with the step 11: the number of a key, the number of its new record or `None`,
/// how many nodes are new, and the root then.
const FRESH: &[(u32, Option<u32>, usize, &[u8])] = &[
    (
        3,
        Some(3),
        4,
        b"bafyreiavlwzlomrkotktneyqot6c3alm7laarkk5vaszffpfuchbsjb2mm",
    ),
    (
        110,
        None,
        5,
        b"bafyreibglowlgvjseyjbksabcp7kw4isorcz6mlzpu3vz2zqoy4aoa67r4",
    ),
    (
        2189,
        Some(5),
        1,
        b"bafyreiemdpsmxooij76mecl7mi2ieuiyzvblth7xpo4prj2xvckalmy2uu",
    ),
];

fn key_of(alloc: Global, number: u32) -> Result<Vec<u8>, AllocError> {
    let text = format!(in alloc; "com.example.record/{number:06}")?;
    text.as_bytes().to_vec(alloc)
}

fn record_of(alloc: Global, number: u32) -> Result<Cid, AllocError> {
    let key = key_of(alloc, number)?;
    Ok(name_of_block(&key))
}

/// Returns the record of this number, if there is one.
fn record_if_any(alloc: Global, number: Option<u32>) -> Result<Option<Cid>, AllocError> {
    match number {
        Some(number) => Ok(Some(record_of(alloc, number)?)),
        None => Ok(None),
    }
}

fn entries_of(alloc: Global, rows: &[(u32, u32)]) -> Result<Vec<MstEntry>, AllocError> {
    let mut all = Vec::new(alloc);
    for row in rows {
        let key = key_of(alloc, row.0)?;
        all.push(entry(alloc, &key, record_of(alloc, row.1)?)?)?;
    }
    Ok(all)
}

/// Sets the record of the key, or removes the key, and returns the record that it had.
pub(crate) fn change_one(
    alloc: Global,
    all: &mut Vec<MstEntry>,
    key: u32,
    value: Option<u32>,
) -> Result<Option<Cid>, Fail> {
    let key = key_of(alloc, key)?;
    match value {
        Some(value) => {
            let before = put_entry(alloc, all, &key, record_of(alloc, value)?)?;
            Ok(before)
        }
        None => Ok(remove_entry(all, &key)),
    }
}

#[test]
fn one_record_is_changed(rt: HostRuntime) -> Result<(), Fail> {
    let alloc = rt.alloc();
    let mut all = numbered_all(alloc, 10, 3)?;
    for row in STEPS {
        let before = change_one(alloc, &mut all, row.0, row.1)?;
        agree(before, record_if_any(alloc, row.2)?)?;
        let root = mst_root(alloc, &all)?;
        agree(is_named(&root, row.3), true)?;
    }
    Ok(())
}

#[test]
fn a_record_of_none_is_put(rt: HostRuntime) -> Result<(), Fail> {
    let alloc = rt.alloc();
    let mut all = Vec::new(alloc);
    agree(remove_entry(&mut all, b"a"), None)?;
    let value = record_of(alloc, 1)?;
    match put_entry(alloc, &mut all, b"", value) {
        Err(MstError::KeyLength) => {}
        _ => return Err(Fail::from("a length was not told")),
    }
    agree(all.len(), 0)?;
    agree(put_entry(alloc, &mut all, b"a", value)?, None)?;
    agree(remove_entry(&mut all, b"a"), Some(value))?;
    agree(all.len(), 0)
}

pub(crate) fn are_told(
    alloc: Global,
    found: &[Change],
    rows: &[(u32, Option<u32>, Option<u32>)],
) -> Result<(), Fail> {
    agree(found.len(), rows.len())?;
    for (change, row) in found.iter().zip(rows.iter()) {
        let key = key_of(alloc, row.0)?;
        agree(change.key.as_slice(), key.as_slice())?;
        agree(change.old, record_if_any(alloc, row.1)?)?;
        agree(change.new, record_if_any(alloc, row.2)?)?;
    }
    Ok(())
}

#[test]
fn all_that_differs_is_told(rt: HostRuntime) -> Result<(), Fail> {
    let alloc = rt.alloc();
    let old = entries_of(alloc, OLD)?;
    let new = entries_of(alloc, NEW)?;
    are_told(alloc, &diff_entries(alloc, &old, &new)?, CHANGES)?;
    are_told(alloc, &diff_entries(alloc, &old, &old)?, &[])?;
    are_told(alloc, &diff_entries(alloc, &[], &[])?, &[])?;
    let all = diff_entries(alloc, &[], &new)?;
    agree(all.len(), NEW.len())?;
    let all = diff_entries(alloc, &old, &[])?;
    agree(all.len(), OLD.len())
}

#[test]
fn what_differs_between_trees_is_told(rt: HostRuntime) -> Result<(), Fail> {
    let alloc = rt.alloc();
    let mut kept = Kept {
        blocks: BTreeMap::new(alloc),
    };
    let old = write_mst(alloc, &entries_of(alloc, OLD)?, &mut kept)?;
    agree(is_named(&old, OLD_ROOT), true)?;
    let new = write_mst(alloc, &entries_of(alloc, NEW)?, &mut kept)?;
    agree(is_named(&new, NEW_ROOT), true)?;
    are_told(alloc, &diff(alloc, &kept.blocks, &old, &new)?, CHANGES)?;
    are_told(alloc, &diff(alloc, &kept.blocks, &new, &new)?, &[])?;
    let _ = kept.blocks.remove(&new);
    match diff(alloc, &kept.blocks, &old, &new) {
        Err(error) => agree(error, MstError::MissingNode(new)),
        Ok(_) => Err(Fail::from("a lost node was not told")),
    }
}

#[test]
fn new_nodes_are_handed_out(rt: HostRuntime) -> Result<(), Fail> {
    let alloc = rt.alloc();
    let mut all = numbered_all(alloc, 200, 11)?;
    let mut kept = Kept {
        blocks: BTreeMap::new(alloc),
    };
    write_mst(alloc, &all, &mut kept)?;
    for row in FRESH {
        change_one(alloc, &mut all, row.0, row.1)?;
        let none = Kept {
            blocks: BTreeMap::new(alloc),
        };
        let (fresh, root) = write_changes(alloc, &kept.blocks, &all, none);
        let root = root?;
        agree(is_named(&root, row.3), true)?;
        agree(fresh.blocks.len(), row.2)?;
        for (name, block) in fresh.blocks {
            kept.blocks.insert(name, block)?;
        }
        agree(read_mst(alloc, &kept.blocks, &root)?.len(), all.len())?;
    }
    Ok(())
}
