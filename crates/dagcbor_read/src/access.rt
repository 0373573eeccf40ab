//! Reading lists, maps and enums, item by item or whole.

pub(crate) mod accessor;
pub(crate) mod enum_accessor;
pub(crate) mod fields;
pub(crate) mod group;
pub(crate) mod row;
pub(crate) mod structs;
pub(crate) mod variants;
