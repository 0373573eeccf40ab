//! Tables of bytes and results, public calls, and types by hand.

mod accessors;
mod by_hand;
mod codec;
mod lent;
mod links;
mod reads;
mod refusals;
mod trees;
