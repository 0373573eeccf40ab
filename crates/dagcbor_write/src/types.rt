//! What types of the library are written as.

pub(crate) mod data;
pub(crate) mod holders;
pub(crate) mod leaves;
pub(crate) mod lists;
pub(crate) mod maps;
pub(crate) mod texts;
