//! A commit and a node of the AT Protocol: a null, links, byte strings.

use crate::tests::blocks::{
    COMMIT, COMMIT_LATER, COMMIT_MORE, COMMIT_NEXT, COMMIT_NO_PREV, COMMIT_TEXT_DATA,
    COMMIT_UNSIGNED, NODE, NODE_NO_LEFT,
};
use crate::tests::written_again::each_is_written_again;
use serde_ipld_dagcbor::{from_slice, to_vec};
use std::test::Fail;
use tests_shared::agree;
use tests_shared_reads::each_answers;
use types_repository::{Commit, Node, UnsignedCommit};

#[test]
fn blocks_are_written_again(rt: HostRuntime) -> Result<(), Fail> {
    each_is_written_again::<Commit>(rt.alloc(), &[COMMIT, COMMIT_NEXT])?;
    each_is_written_again::<Node>(rt.alloc(), &[NODE])
}

/// The bytes over which a commit is signed.
#[test]
fn a_commit_without_its_signature(rt: HostRuntime) -> Result<(), Fail> {
    let alloc = rt.alloc();
    let commit: Commit = from_slice(alloc, COMMIT)?;
    let unsigned = UnsignedCommit {
        did: commit.did,
        version: commit.version,
        data: commit.data,
        rev: commit.rev,
        prev: commit.prev,
    };
    agree(to_vec(alloc, &unsigned)?.as_slice(), COMMIT_UNSIGNED)
}

#[test]
fn nodes_are_refused(rt: HostRuntime) -> Result<(), Fail> {
    each_answers::<Node>(
        rt.alloc(),
        &[(NODE_NO_LEFT, r#"Err(Msg("missing field"))"#)],
    )
}

#[test]
fn commits_are_refused(rt: HostRuntime) -> Result<(), Fail> {
    each_answers::<Commit>(
        rt.alloc(),
        &[
            (COMMIT_NO_PREV, r#"Err(Msg("missing field"))"#),
            (
                COMMIT_TEXT_DATA,
                r#"Err(Mismatch { name: "CBOR tag head", found: 100 })"#,
            ),
            (COMMIT_LATER, r#"Err(CastOverflow { name: "u8" })"#),
            (COMMIT_MORE, r#"Err(Msg("unknown field"))"#),
        ],
    )
}
