//! A section that was read: lent by a slice, or in its own memory.

ghost use Rattle.std.specs.Prelude.{◌≡◌, MatchResult};
ghost use Rattle.std.specs.Cow.{cow_slice_items};
ghost use Rattle.files_car.specs.Splits.{BeginsWithCid, BeginsNoCid};

use crate::section::{Section, measure_cid};
use ipld_tree::{Cid, CidError};
use std::borrow::CowSlice;
use std::marker::Model;

/// A section that was read: lent by a slice, or in its own memory. Contracts see the name, and the
/// bytes of the block.
#[derive(Drop)]
pub struct ReadSection<'de> {
    cid: Cid,
    /// The name, and the block after it.
    body: CowSlice<'de, u8>,
    /// Where the block begins.
    start: usize,
}

impl<'de> Model for ReadSection<'de> {
    ghost use Rattle.std.specs.Prelude.{◌≤◌, length, drop};
    ghost use Rattle.std.specs.Cow.{cow_slice_items};
    ghost use Rattle.files_car.specs.Car.{Section};

    ghost Value = { Section };

    ghost view = { λ s. (s.cid, drop s.start (cow_slice_items s.body)) };

    ghost invariant = { λ s. s.start ≤ length (cow_slice_items s.body) };
}

impl<'de> ReadSection<'de> {
    /// Returns the section with this body: a CID, and the block after it.
    pub(crate) fn new(body: CowSlice<'de, u8>) -> Result<ReadSection<'de>, CidError>
        ensures { MatchResult result
            (λ s. BeginsWithCid (cow_slice_items body.entry) s.0 s.1)
            (λ e. BeginsNoCid e (cow_slice_items body.entry)) }
    {
        let (cid, start) = measure_cid(&body)?;
        Ok(ReadSection { cid, body, start })
    }

    /// Returns the name. The block may have another.
    pub fn cid(&self) -> Cid
        ensures { result ≡ self.now.0 }
    {
        self.cid
    }

    /// Returns the block.
    pub fn block(&self) -> &[u8]
        ensures { result.now ≡ self.now.1 }
    {
        &self.body[self.start..]
    }

    /// Returns the name and the block.
    pub fn section(&self) -> Section<'_>
        ensures cid { result.cid ≡ self.now.0 }
        ensures block { result.block.now ≡ self.now.1 }
    {
        Section {
            cid: self.cid,
            block: self.block(),
        }
    }
}
