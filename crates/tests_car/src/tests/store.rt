//! Blocks that a store keeps by CID, reads, and refuses.

use crate::tests::sections::NUMBERS;
use dagcbor_blocks::{Blocks, name_of};
use serde_ipld_dagcbor::{Cid, Deserialize, Ipld, Serialize, from_slice};
use std::alloc::{AllocError, Global};
use std::fmt::Debug;
use std::test::Fail;
use tests_shared::{LINK, agree, is_told};

fn numbers(alloc: Global) -> Result<Vec<u8>, AllocError> {
    Ok(vec![in alloc; 1u8, 2, 3]?)
}

/// Returns the list of a link to `numbers`, and two to "foo".
fn parent(alloc: Global, name: Cid, foo: Cid) -> Result<Ipld, AllocError> {
    Ok(Ipld::List(vec![in alloc; Ipld::Link(name), Ipld::Link(foo), Ipld::Link(foo)]?))
}

#[test]
fn a_name_is_that_of_the_spelling(rt: HostRuntime) -> Result<(), Fail> {
    let alloc = rt.alloc();
    let name = name_of(alloc, &numbers(alloc)?)?;
    agree(name.to_bytes(alloc)?.as_slice(), NUMBERS)
}

/// Fails if the store lacks anything but these.
pub(crate) fn lacks(blocks: &Blocks, missing: &[Cid]) -> Result<(), Fail> {
    agree(blocks.missing()?.as_slice(), missing)
}

/// Puts the value, and returns its CID.
pub(crate) fn put<T: Serialize>(blocks: &mut Blocks, value: &T) -> Result<Cid, Fail> {
    Ok(blocks.put(value)?)
}

/// Fails if the numbers get another CID, or if the store then lacks anything but this.
fn keeps_numbers(alloc: Global, blocks: &mut Blocks, name: Cid, foo: Cid) -> Result<(), Fail> {
    agree(put(blocks, &numbers(alloc)?)?, name)?;
    lacks(blocks, &[foo])
}

/// Fails if another value is stored under the CID.
fn holds(blocks: &Blocks, name: &Cid, value: Ipld) -> Result<(), Fail> {
    agree(blocks.get::<Ipld>(name)? == Some(value), true)
}

#[test]
fn blocks_are_kept(rt: HostRuntime) -> Result<(), Fail> {
    let alloc = rt.alloc();
    let name = name_of(alloc, &numbers(alloc)?)?;
    let foo: Cid = from_slice(alloc, LINK)?;
    let mut blocks = Blocks::new(alloc);
    lacks(&blocks, &[])?;
    let top = put(&mut blocks, &parent(alloc, name, foo)?)?;
    lacks(&blocks, &[foo, name])?;
    for _ in 0..2 {
        keeps_numbers(alloc, &mut blocks, name, foo)?;
        holds(&blocks, &top, parent(alloc, name, foo)?)?;
    }
    Ok(())
}

/// Fails if the block under the CID is read as anything else, as text.
pub(crate) fn gives<'de, T: Deserialize<'de> + Debug>(
    alloc: Global,
    blocks: &'de Blocks,
    name: &Cid,
    told: &str,
) -> Result<(), Fail> {
    is_told(alloc, &blocks.get::<T>(name), told)
}

#[test]
fn blocks_are_read(rt: HostRuntime) -> Result<(), Fail> {
    let alloc = rt.alloc();
    let mut blocks = Blocks::new(alloc);
    let name = blocks.put(&numbers(alloc)?)?;
    let text = blocks.put(&"a")?;
    let Some(back) = blocks.get::<Vec<u8>>(&name)? else {
        return Err(Fail::new("no block"));
    };
    assert_eq!(rt; back.as_slice(), [1, 2, 3].as_slice());
    gives::<&str>(alloc, &blocks, &text, r#"Ok(Some("a"))"#)
}

#[test]
fn other_types_are_refused(rt: HostRuntime) -> Result<(), Fail> {
    let alloc = rt.alloc();
    let mut blocks = Blocks::new(alloc);
    let name = put(&mut blocks, &numbers(alloc)?)?;
    let refused = r#"Err(Decode(Mismatch { name: "string", found: 131 }))"#;
    gives::<String>(alloc, &blocks, &name, refused)?;
    gives::<Ipld>(alloc, &blocks, &from_slice(alloc, LINK)?, "Ok(None)")
}

/// Returns this many lists, one within the other.
fn nested_lists(alloc: Global, times: u64) -> Result<Ipld, AllocError> {
    let mut list = Ipld::List(Vec::new(alloc));
    for _ in 0..times {
        list = Ipld::List(vec![in alloc; list]?);
    }
    Ok(list)
}

/// Fails if a value that is nested too deep is put, or is stored then.
fn refuses_depth(alloc: Global, blocks: &mut Blocks) -> Result<(), Fail> {
    let deep = nested_lists(alloc, 128)?;
    let refused = r#"Err(Decode(DepthOverflow { name: "any" }))"#;
    is_told(alloc, &blocks.put(&deep), refused)?;
    gives::<Ipld>(alloc, blocks, &name_of(alloc, &deep)?, "Ok(None)")
}

/// Fails if a number that cannot be encoded is put, or is refused in other words.
fn refuses_number(alloc: Global, blocks: &mut Blocks) -> Result<(), Fail> {
    match blocks.put(&18_446_744_073_709_551_616u128) {
        Ok(_) => Err(Fail::new("a number without a spelling")),
        Err(error) => agree(
            format!(in alloc; "{error}")?.as_str(),
            r#"encode error: Msg("Unsigned integer must be within [0, u64::MAX] range")"#,
        ),
    }
}

#[test]
fn refusals_change_nothing(rt: HostRuntime) -> Result<(), Fail> {
    let alloc = rt.alloc();
    let mut blocks = Blocks::new(alloc);
    let name = put(&mut blocks, &numbers(alloc)?)?;
    refuses_depth(alloc, &mut blocks)?;
    refuses_number(alloc, &mut blocks)?;
    gives::<Vec<u8>>(alloc, &blocks, &name, "Ok(Some([1, 2, 3]))")
}
