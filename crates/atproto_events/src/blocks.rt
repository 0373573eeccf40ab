//! The blocks of an event, borrowed from its frame.

ghost use Rattle.atproto_events.specs.Blocks.{EventBlocksView, event_blocks_shape};

use serde_ipld_dagcbor::{
    ByteSlice, Deserialize, Deserializer, Read, ReadResult, Required, Shown, read_struct,
};
use std::alloc::Global;

/// The field `blocks` of an event: a CAR file, borrowed.
#[derive(Clone, Copy, Debug, Drop)]
pub struct EventBlocks<'a> {
    pub blocks: ByteSlice<'a>,
}

impl Shown for EventBlocks<'_> {
    ghost View = { EventBlocksView };

    ghost meaning = { λ v. (v.blocks.0.now, tt) };

    ghost shape = { event_blocks_shape };
}

impl<'de> Deserialize<'de> for EventBlocks<'de> {
    fn deserialize<R: Read>(alloc: Global, de: &mut Deserializer<'de, R>) -> ReadResult<Self, R> {
        let names = &["blocks"];
        let row = read_struct(alloc, "EventBlocks", names, de)?;
        let (Required(blocks), ()) = row;
        Ok(EventBlocks { blocks })
    }
}
