//! Links, read and written.

use std::test::Fail;
use tests_shared::{LINK, THREE_LINKS, agree, joined};
use tests_shared_reads::{beginnings_are_cut, is_written_again};

/// The parts of a block with links, and its length.
const BLOCKS: &[(&[&[u8]], usize)] = &[
    (&[LINK], 41),
    (
        &[b"\xa2\x63\x63\x69\x64", LINK, b"\x64\x64\x61\x74\x61\xf5"],
        52,
    ),
    (THREE_LINKS, 146),
];

#[test]
fn links_are_read_and_written(rt: HostRuntime) -> Result<(), Fail> {
    for (parts, length) in BLOCKS {
        let bytes = joined(rt.alloc(), parts)?;
        agree(bytes.len(), *length)?;
        beginnings_are_cut(rt.alloc(), &bytes)?;
        is_written_again(rt.alloc(), &bytes)?;
    }
    Ok(())
}
