//! A `Cid` as a field: `#[serde(with = "types_serde::as_link")]`.

ghost use Rattle.std.specs.Prelude.{OnOk};
ghost use Rattle.ipld_tree.specs.Cid.{cid_bytes};
ghost use Rattle.types_serde.specs.Links.{WritesLink};

use crate::link::LINK;
use crate::sink::{LINK_CASE, LINK_NAME};
use arrayvec::ArrayVec;
use ipld_tree::Cid;
use serde::{Deserializer, Format, Serializer};
use std::alloc::Global;

/// Writes the CID as a link.
pub fn serialize<S: Serializer>(cid: &Cid, out: &mut S) -> Result<(), S::Error>
    ensures { OnOk result (WritesLink (cid_bytes cid.now) (S.written out.old) (S.written out.new)) }
{
    let mut bytes = ArrayVec::new();
    cid.write_bytes(&mut bytes);
    out.begin_map(Some(1))?;
    out.key_cased(LINK_NAME, LINK_CASE)?;
    out.bytes(&bytes)?;
    out.end_map()
}

/// Reads a link: the binary form of the CID in its one entry.
pub fn deserialize<F: Format>(
    alloc: Global,
    from: &mut Deserializer<'_, '_, F>,
) -> Result<Cid, F::Error> {
    from.begin_map()?;
    let Some(0) = from.next_key(&[LINK])? else {
        return Err(from.missing(LINK_NAME));
    };
    let cid = fetch_cid(alloc, from)?;
    match from.next_key(&[LINK])? {
        None => Ok(cid),
        Some(_) => Err(from.unknown_key()),
    }
}

/// Reads the CID from its binary form, in place in the input if possible, and otherwise in memory.
#[inline(always)]
fn fetch_cid<F: Format>(
    alloc: Global,
    from: &mut Deserializer<'_, '_, F>,
) -> Result<Cid, F::Error> {
    let mark = from.mark();
    if let Ok(bytes) = from.borrowed_bytes() {
        from.release(mark);
        return Cid::try_from(bytes).map_err(|_| from.invalid());
    }
    from.rewind(mark);
    from.release(mark);
    let bytes = from.byte_buf(alloc)?;
    Cid::try_from(bytes.as_slice()).map_err(|_| from.invalid())
}
