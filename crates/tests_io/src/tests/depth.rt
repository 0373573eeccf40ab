//! Reads with the caller's budget of steps.

ghost use Rattle.std.specs.Prelude.{◌≤◌};

use serde_ipld_dagcbor::{
    Deserialize, Deserializer, IoReader, Ipld, SliceReader, from_slice_with_depth,
};
use std::alloc::Global;
use std::fmt::Debug;
use std::test::Fail;
use tests_shared::{Source, agree, is_told};

/// Fails if a read within no step, or within one, gives any other answer, as text.
fn tells_within<'de, T: Deserialize<'de> + Debug>(
    alloc: Global,
    bytes: &'de [u8],
    one_step: bool,
    wanted: &str,
) -> Result<(), Fail> {
    let steps = if one_step { 1 } else { 0 };
    is_told(
        alloc,
        &from_slice_with_depth::<T>(alloc, bytes, steps),
        wanted,
    )?;
    let source = IoReader::with_depth(Source::new(bytes, 1), steps);
    let mut de = Deserializer::from_reader(source);
    is_told(alloc, &T::deserialize(alloc, &mut de), wanted)
}

const TOO_DEEP: &str = r#"Err(DepthOverflow { name: "any" })"#;

/// Items, whether they are read within one step or none, and the answer of an untyped read.
const WITHIN: &[(&[u8], bool, &str)] = &[
    (b"\x01", false, TOO_DEEP),
    (b"", false, TOO_DEEP),
    (b"\xf6", true, "Ok(Null)"),
    (b"\x80", true, r#"Err(DepthOverflow { name: "array" })"#),
];

#[test]
fn no_step_and_one(rt: HostRuntime) -> Result<(), Fail> {
    let alloc = rt.alloc();
    for (bytes, one_step, wanted) in WITHIN {
        tells_within::<Ipld>(alloc, bytes, *one_step, wanted)?;
    }
    tells_within::<u8>(alloc, b"\x01", false, "Ok(1)")?;
    tells_within::<Vec<u8>>(alloc, b"\x80", true, "Ok([])")?;
    let reader = SliceReader::with_depth(b"\x80\xf6", 1);
    let mut stream = Deserializer::from_slice_reader(reader).into_iter::<Ipld>(alloc);
    let items = (stream.next(), stream.next());
    let told = r#"(Some(Err(DepthOverflow { name: "array" })), None)"#;
    is_told(alloc, &items, told)
}

/// Returns the text of the refusal, if any, of this many nested lists around an empty one.
fn refusal_of(alloc: Global, lists: usize, steps: usize) -> Result<String, Fail>
    requires { steps ≤ 1024 }
{
    let mut bytes = Vec::new(alloc);
    bytes.resize(lists, 0x81)?;
    bytes.push(0x80)?;
    let refused = from_slice_with_depth::<Ipld>(alloc, &bytes, steps).err();
    Ok(format!(in alloc; "{refused:?}")?)
}

#[test]
fn a_thousand_steps(rt: HostRuntime) -> Result<(), Fail> {
    let alloc = rt.alloc();
    let too_deep = r#"Some(DepthOverflow { name: "any" })"#;
    let rows = [
        (511, 1024, "None"),
        (512, 1024, too_deep),
        (127, 256, "None"),
        (128, 256, too_deep),
    ];
    for (lists, steps, wanted) in rows {
        let text = refusal_of(alloc, lists, steps.min(1024))?;
        agree(text.as_str(), wanted)?;
    }
    Ok(())
}
