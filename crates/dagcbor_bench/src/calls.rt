//! The calls that are measured, by name.

ghost use Rattle.std.specs.Prelude.{◌≡◌, ◌≤◌, Bool, true, false};
ghost use Rattle.serde_ipld_dagcbor.specs.Tree.{Tree};
ghost use Rattle.dagcbor_decode.specs.Blocks.{IsBlock};

use crate::bag::Bag;
use crate::declared::Declared;
use crate::derived::Derived;
use crate::record::Record;
use ipld_paths::find_slice;
use serde_ipld_dagcbor::{
    Bytes, Deserialize, DeserializeOwned, IgnoredAny, Ipld, Serialize, check_slice, from_reader,
    from_slice, iter_from_reader, links_from_slice, to_vec,
};
use std::alloc::Global;
use std::collections::{BTreeMap, HashMap};

/// The path looked up in a list of records.
const PATH: &str = "5000/year_of_birth";

/// Returns how many of `times` calls answer true.
fn repeated<F: Fn() -> bool>(times: u64, call: F) -> u64
    requires { F.IsAlwaysCallable call }
    ensures most { result ≤ times }
    ensures all { ((b : Bool) → F.post call b → b ≡ true) → result ≡ times }
    ensures none { ((b : Bool) → F.post call b → b ≡ false) → result ≡ 0 }
{
    let mut count = 0u64;
    for _ in 0..times {
        if call() {
            count += 1;
        }
    }
    count
}

/// Returns whether the bytes are a block.
fn is_block(block: &[u8]) -> bool
    ensures block { (t : Tree) → IsBlock block.now t → result ≡ true }
    ensures other { ((t : Tree) → ¬ IsBlock block.now t) → result ≡ false }
{
    check_slice(block).is_ok()
}

/// Judges the block `times` times. Returns how often it succeeds, like the functions below.
fn judges(block: &[u8], times: u64) -> u64
    ensures block { (t : Tree) → IsBlock block.now t → result ≡ times }
    ensures other { ((t : Tree) → ¬ IsBlock block.now t) → result ≡ 0 }
{
    repeated(times, || is_block(block))
}

/// Reads a value of the type from the block, `times` times.
fn reads<'de, T: Deserialize<'de> + Drop>(alloc: Global, block: &'de [u8], times: u64) -> u64 {
    let mut count = 0u64;
    for _ in 0..times {
        count = count.saturating_add(u64::from(from_slice::<T>(alloc, block).is_ok()));
    }
    count
}

/// Reads a value of the type from a reader of the block, `times` times.
fn reads_source<'de, T: DeserializeOwned<'de> + Drop>(
    alloc: Global,
    block: &[u8],
    times: u64,
) -> u64 {
    let mut count = 0u64;
    for _ in 0..times {
        count = count.saturating_add(u64::from(from_reader::<T, _>(alloc, block).is_ok()));
    }
    count
}

/// Reads the record by its derive, `times` times.
fn reads_derived(alloc: Global, block: &[u8], times: u64) -> u64 {
    let mut count = 0u64;
    for _ in 0..times {
        count = count.saturating_add(u64::from(types_serde::from_slice::<Derived>(
            alloc, block,
        ).is_ok()));
    }
    count
}

/// Writes the value, `times` times.
fn writes<T: Serialize>(alloc: Global, value: &T, times: u64) -> u64 {
    repeated(times, || to_vec(alloc, value).is_ok())
}

/// Writes the value that the block holds, `times` times.
fn writes_again<'de, T: Deserialize<'de> + Serialize + Drop>(
    alloc: Global,
    block: &'de [u8],
    times: u64,
) -> u64 {
    match from_slice::<T>(alloc, block) {
        Ok(value) => writes(alloc, &value, times),
        Err(_) => 0,
    }
}

/// Writes the record that the block holds by its derive, `times` times.
fn writes_derived(alloc: Global, block: &[u8], times: u64) -> u64 {
    let Ok(value) = types_serde::from_slice::<Derived>(alloc, block) else {
        return 0;
    };
    let mut count = 0u64;
    for _ in 0..times {
        count = count.saturating_add(u64::from(types_serde::to_vec(alloc, &value).is_ok()));
    }
    count
}

/// Writes the numbers that the block holds as a list whose length is only known at its end.
fn writes_bag(alloc: Global, block: &[u8], times: u64) -> u64 {
    match from_slice::<Vec<u64>>(alloc, block) {
        Ok(items) => writes(alloc, &Bag { items }, times),
        Err(_) => 0,
    }
}

/// Returns whether each item of the stream is a text.
fn is_texts(alloc: Global, block: &[u8]) -> bool {
    for text in iter_from_reader::<String, _>(alloc, block) {
        if text.is_err() {
            return false;
        }
    }
    true
}

/// Returns how many of `times` calls with this name succeed. `None` if there is no such call.
pub fn successes(alloc: Global, name: &str, block: &[u8], times: u64) -> Option<u64> {
    Some(match name {
        "check_slice" => judges(block, times),
        "find_slice" => repeated(times, || matches!(find_slice(block, PATH), Ok(Some(_)))),
        "links_from_slice" => repeated(times, || links_from_slice(alloc, block).is_ok()),
        "from_slice::<IgnoredAny>" => reads::<IgnoredAny>(alloc, block, times),
        "from_slice::<Ipld>" => reads::<Ipld>(alloc, block, times),
        "from_slice::<Record>" => reads::<Record>(alloc, block, times),
        "from_slice::<Vec<u64>>" => reads::<Vec<u64>>(alloc, block, times),
        "from_slice::<BTreeMap>" => reads::<BTreeMap<String, u8>>(alloc, block, times),
        "from_slice::<HashMap>" => reads::<HashMap<String, u8>>(alloc, block, times),
        "from_slice::<Bytes>" => reads::<Bytes>(alloc, block, times),
        "from_reader::<IgnoredAny>" => reads_source::<IgnoredAny>(alloc, block, times),
        "from_reader::<Ipld>" => reads_source::<Ipld>(alloc, block, times),
        "from_reader::<Record>" => reads_source::<Record>(alloc, block, times),
        "from_reader::<Vec<u64>>" => reads_source::<Vec<u64>>(alloc, block, times),
        "from_reader::<BTreeMap>" => reads_source::<BTreeMap<String, u8>>(alloc, block, times),
        "from_reader::<Bytes>" => reads_source::<Bytes>(alloc, block, times),
        "iter_from_reader::<String>" => repeated(times, || is_texts(alloc, block)),
        "to_vec::<Ipld>" => writes_again::<Ipld>(alloc, block, times),
        "to_vec::<Record>" => writes_again::<Record>(alloc, block, times),
        "to_vec::<Declared>" => writes_again::<Declared>(alloc, block, times),
        "to_vec::<Vec<u64>>" => writes_again::<Vec<u64>>(alloc, block, times),
        "to_vec::<Bag<u64>>" => writes_bag(alloc, block, times),
        "to_vec::<BTreeMap>" => writes_again::<BTreeMap<String, u8>>(alloc, block, times),
        "to_vec::<HashMap>" => writes_again::<HashMap<String, u8>>(alloc, block, times),
        "to_vec::<Bytes>" => writes_again::<Bytes>(alloc, block, times),
        "types_serde::from_slice::<Derived>" => reads_derived(alloc, block, times),
        "types_serde::to_vec::<Derived>" => writes_derived(alloc, block, times),
        _ => return None,
    })
}
