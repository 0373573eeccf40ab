//! Reading a CAR file into a store.

ghost use Rattle.std.specs.Prelude.{◌≡◌, ◌⊎◌, List, length, IfOk, IfErr, OnErr};
ghost use Rattle.dagcbor_heads.specs.Inputs.{input_reading};
ghost use Rattle.dagcbor_items.specs.Walks.{forms};
ghost use Rattle.files_car.specs.Car.{Section as CarSection};
ghost use Rattle.sqlite_trees.specs.View.{IsClean};
ghost use Rattle.store_rows.specs.Ends.{Quiet};
ghost use Rattle.store_on_disk.specs.Stored.{IsUndone, IsKeptBy};
ghost use Rattle.store_on_disk.specs.Cars.{IsFileRead, IsFilled, ReadRefused, MayLeave, AddsCar, TakesBlock};
ghost use Rattle.store_on_disk.specs.Leaving.{StillLeavesStore};
ghost use Rattle.store_on_disk.specs.Roots.{GainsRoots, MayKeepRoots};

use crate::car_error::ReadCarError;
use crate::error::StoreRefusal;
use crate::store::BlockStore;
use dagcbor_heads::{Input, Read};
use files_car::{Section, SectionSink, each_section, pull_header};
use ipld_tree::Cid;
use sqlite_trees::store::Store;

impl<S: Store> SectionSink for BlockStore<S> {
    type Stop = StoreRefusal;

    ghost takes = { λ s old result new. TakesBlock S.Store s old result new };

    /// Adds the block of the section, as `add_block` does.
    fn take(&mut self, section: &Section<'_>) -> Result<(), StoreRefusal> {
        self.add_block(&section.cid, section.block)
    }
}

impl<S: Store> BlockStore<S> {
    /// Reads the CAR file (version 1 or 2) that the input has left, stores each block under its
    /// CID, adds the roots as `add_roots` does, and commits that, with all that waited for a
    /// commit. Returns the roots of the file, and how many sections it has. The input is a slice,
    /// or a reader, such as `Input::Reader(IoReader::new(source))` for a source of std. One section
    /// is in memory at a time.
    ///
    /// Each block must be one that `put_block` accepts, of whatever codec. If one is not, or the
    /// bytes are not a CAR file, nothing of the file is kept. Nor is a file with roots if the store
    /// is of the earlier version: that is refused right after the header.
    pub fn read_car<'de, R: Read>(
        &mut self,
        input: &mut Input<'de, R>,
    ) -> Result<(Vec<Cid>, u64), ReadCarError<R::Error>>
        ensures ok { IfOk result (λ p. (sections : List CarSection) × (p.1 ≡ length sections)
            × IsFileRead (forms p.0.items) sections (input_reading R.reading input.old)
            (input_reading R.reading input.new)
            × (IsClean (S.Store.view self.new)
            → IsFilled (S.Store.view self.old) (S.Store.view self.new) sections)) }
        ensures roots { IfOk result (λ p. IsClean (S.Store.view self.new)
            → GainsRoots (S.Store.view self.old).trees (S.Store.view self.new).trees p.0.items) }
        ensures table { IfOk result (λ p. MayKeepRoots (S.Store.view self.old) p.0.items) }
        ensures refused { IfErr result (λ e. ReadRefused S.Store (input_reading R.reading input.old)
            self.old e (input_reading R.reading input.new) self.new) }
        ensures undone { OnErr result (IsClean (S.Store.view self.new)
            → IsUndone (S.Store.view self.old) (S.Store.view self.new)) }
        ensures crash { (db : _) → S.Store.recovers self.new db → S.Store.recovers self.old db
            ⊎ (IsClean (S.Store.view self.new) → MayLeave (input_reading R.reading input.old)
            (input_reading R.reading input.new) (S.Store.view self.old).trees db) }
        ensures leaves { StillLeavesStore S.Store self.old self.new }
        ensures kept { IsKeptBy S.Store self.old self.new }
    {
        match self.add_car(input) {
            Ok(read) => match self.commit() {
                Ok(()) => Ok(read),
                Err(refusal) => Err(ReadCarError::of_refusal(refusal)),
            },
            Err(error) => {
                self.rollback();
                Err(error)
            }
        }
    }

    /// Adds the blocks and the roots of the file. It commits nothing and undoes nothing.
    fn add_car<'de, R: Read>(
        &mut self,
        input: &mut Input<'de, R>,
    ) -> Result<(Vec<Cid>, u64), ReadCarError<R::Error>>
        ensures adds { AddsCar S.Store (input_reading R.reading input.old) self.old result
            (input_reading R.reading input.new) self.new }
        ensures quiet { Quiet S.Store self.old self.new }
    {
        let (roots, mut left) = match pull_header(self.alloc, input) {
            Ok(begun) => begun,
            Err(error) => return Err(ReadCarError::of_header(error)),
        };
        match self.add_roots(&roots) {
            Ok(()) => {}
            Err(refusal) => return Err(ReadCarError::of_refusal(refusal)),
        }
        match each_section(self.alloc, input, &mut left, self) {
            Ok(count) => Ok((roots, count)),
            Err(error) => Err(ReadCarError::of_run(error)),
        }
    }
}
