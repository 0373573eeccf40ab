//! How types of the library are read.

pub(crate) mod data;
pub(crate) mod holders;
pub(crate) mod leaves;
pub(crate) mod lists;
pub(crate) mod maps;
