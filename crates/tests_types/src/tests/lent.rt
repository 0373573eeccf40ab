//! What a slice lends, and what is read from it without memory: callers of `from_slice` whose
//! contracts follow from its own.

ghost use Rattle.std.specs.Prelude.{false, IfOk, IfErr};
ghost use Rattle.std.specs.Cow.{IsBorrowedStr};
ghost use Rattle.serde_ipld_dagcbor.specs.Whole.{LacksMemoryIf};

use serde_ipld_dagcbor::{ByteSlice, DecodeError, Deserialize, Deserializer, IoReader, from_slice};
use std::alloc::Global;
use std::borrow::CowStr;
use std::convert::Infallible;
use std::test::Fail;
use tests_shared::{Source, agree, is_told};
use tests_shared_reads::{Pieces, tells};

/// Reads a number, a truth value and a lent text. It takes no memory.
fn entry(alloc: Global, bytes: &[u8]) -> Result<(u64, bool, &str), DecodeError<Infallible>>
    ensures { IfErr result (LacksMemoryIf false) }
{
    from_slice(alloc, bytes)
}

/// Reads a text, which is lent.
fn text(alloc: Global, bytes: &[u8]) -> Result<CowStr<'_>, DecodeError<Infallible>>
    ensures { IfOk result IsBorrowedStr }
{
    from_slice(alloc, bytes)
}

#[test]
fn a_slice_lends_its_texts(rt: HostRuntime) -> Result<(), Fail> {
    let alloc = rt.alloc();
    let block = b"\x83\x01\xf5\x61a";
    is_told(alloc, &entry(alloc, block), r#"Ok((1, true, "a"))"#)?;
    tells::<&str>(alloc, b"\x61a", r#"Ok("a")"#)?;
    tells::<ByteSlice>(alloc, b"\x41a", "Ok(ByteSlice([97]))")?;
    match text(alloc, b"\x61a")? {
        CowStr::Borrowed(lent) => agree(lent, "a"),
        CowStr::Owned(_) => Err(Fail::new("not lent")),
    }
}

#[test]
fn nothing_is_lent_by_a_reader(rt: HostRuntime) -> Result<(), Fail> {
    let alloc = rt.alloc();
    let refused = r#"Err(RequireBorrowed { name: "string" })"#;
    for size in [1, 3, 64] {
        let mut de = Deserializer::from_reader(Pieces::new(b"\x62\xc3\xa9\x61a", size));
        is_told(alloc, &de.deserialize_string(alloc), r#"Ok("é")"#)?;
        is_told(alloc, &<&str>::deserialize(alloc, &mut de), refused)?;
    }
    let mut de = Deserializer::from_reader(IoReader::new(Source::new(b"\x61a", 1)));
    is_told(alloc, &<&str>::deserialize(alloc, &mut de), refused)
}

#[test]
fn a_wish_for_a_loan_leaves_the_rest(rt: HostRuntime) -> Result<(), Fail> {
    let alloc = rt.alloc();
    let mut de = Deserializer::from_reader(Pieces::new(b"\x61a\x61b\x41c\x61d", 1));
    let refused = r#"Err(RequireBorrowed { name: "string" })"#;
    is_told(alloc, &<&str>::deserialize(alloc, &mut de), refused)?;
    is_told(alloc, &de.deserialize_string(alloc), r#"Ok("b")"#)?;
    let refused = r#"Err(RequireBorrowed { name: "bytes" })"#;
    is_told(alloc, &ByteSlice::deserialize(alloc, &mut de), refused)?;
    is_told(alloc, &de.deserialize_string(alloc), r#"Ok("d")"#)?;
    is_told(alloc, &de.end(), "Ok(())")
}
