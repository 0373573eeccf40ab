//! Lists and maps, item by item.

pub(crate) mod bounded;
pub(crate) mod buffer;
pub(crate) mod collect_map;
pub(crate) mod collect_seq;
pub(crate) mod gathered;
pub(crate) mod keyed;
