//! An enum whose variant is named by a field. It is only read.

ghost use Rattle.std.specs.Prelude.{ℕ, List};
ghost use Rattle.serde_ipld_dagcbor.specs.Cid.{cid_bytes};
ghost use Rattle.tests_types.specs.Tagged.{tagged_shape};
ghost use Rattle.tests_types.specs.declared.tests.by_hand.tagged.CidInInternallyTaggedEnum.TheVariants as tagged;

use serde_ipld_dagcbor::{
    Cid, DecodeError, Deserialize, Deserializer, Read, ReadResult, Required, Shown, read_struct,
};
use std::alloc::Global;

#[derive(Debug, Drop)]
pub(crate) enum CidInInternallyTaggedEnum {
    MyCid { cid: Cid },
}

impl Shown for CidInInternallyTaggedEnum {
    ghost View = { List ℕ };

    ghost meaning = { λ e. elim e [ tagged.MyCid c ↦ cid_bytes c ] };

    ghost shape = { tagged_shape };
}

impl<'de> Deserialize<'de> for CidInInternallyTaggedEnum {
    fn deserialize<R: Read>(alloc: Global, de: &mut Deserializer<'de, R>) -> ReadResult<Self, R> {
        let fields: (Required<String>, (Required<Cid>, ())) = read_struct(
            alloc,
            "CidInInternallyTaggedEnum",
            &["type", "cid"],
            de,
        )?;
        let (Required(tag), (Required(cid), ())) = fields;
        match tag.as_str() {
            "MyCid" => Ok(CidInInternallyTaggedEnum::MyCid { cid }),
            _ => Err(DecodeError::custom("No matching enum variant found")),
        }
    }
}
