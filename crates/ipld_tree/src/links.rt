//! The links in bytes.

ghost use Rattle.std.specs.Prelude.{ℕ, List};
ghost use Rattle.ipld_tree.specs.Codecs.{FindsLinks, BytesHaveOneList};

use crate::cid_iter::CidIter;
use std::alloc::Global;

/// A format whose bytes have links.
pub trait Links {
    type LinksError;

    /// The bytes begin with data of the format, whose links are these, in order, in binary form.
    ghost has_links: { List ℕ → List (List ℕ) → Type 0 };

    /// The error says nothing about the bytes: out of memory.
    ghost is_excuse: { Self.LinksError → Type 0 };

    /// Returns the links of the data with which the bytes begin.
    fn links(alloc: Global, bytes: &[u8]) -> Result<CidIter, Self::LinksError>
        ensures answers { FindsLinks has_links is_excuse bytes.now result };

    /// Bytes have at most one list of links.
    ghost unique: { BytesHaveOneList has_links };
}
