//! Tables of values and bytes, and calls that no type makes.

mod calls;
mod cids;
mod maps;
mod writes;
