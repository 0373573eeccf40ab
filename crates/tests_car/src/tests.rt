//! CAR files, and the store that keeps them.

mod files;
mod held;
mod mixed;
mod pair;
mod sections;
mod store;
mod trees;
mod writing;
