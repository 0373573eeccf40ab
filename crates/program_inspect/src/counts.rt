//! What is counted of blocks.

ghost use Rattle.std.specs.Prelude.{◌≡◌, ◌==◌, ◌++◌, ◌∷◌, [], min, if◌then◌else◌, OnOk, List};
ghost use Rattle.program_inspect.specs.Counts.{Measure, AreCounts};

use crate::names::Names;
use crate::rows::{Row, Rows};
use ipld_tree::Cid;
use std::alloc::{AllocError, Global};

/// What is counted of blocks: their number and total length, in all, by codec and by hash; the
/// lengths of the shortest and the longest; and their CIDs.
#[derive(Drop)]
pub struct Counts {
    pub all: Row,
    pub least: u64,
    pub greatest: u64,
    pub codecs: Rows,
    pub hashes: Rows,
    pub names: Names,
}

/// Returns the least of `count` numbers, of which the least is `least`, and one more.
fn least_with(count: u64, least: u64, number: u64) -> u64
    ensures { result ≡ (if count == 0 then number else min least number) }
{
    if count == 0 {
        return number;
    }
    least.min(number)
}

impl Counts {
    /// Returns the counts of no blocks.
    pub fn new(alloc: Global) -> Counts
        ensures { AreCounts result [] }
    {
        Counts {
            all: Row::new(),
            least: 0,
            greatest: 0,
            codecs: Rows::new(alloc),
            hashes: Rows::new(alloc),
            names: Names::new(alloc),
        }
    }

    /// Counts a block of this CID and length. After an error nothing is known of the counts.
    pub fn count(&mut self, cid: &Cid, bytes: u64) -> Result<(), AllocError>
        ensures { OnOk result ((ms : List Measure) → AreCounts self.old ms
            → AreCounts self.new (ms ++ (cid.now, bytes) ∷ [])) }
    {
        self.least = least_with(self.all.count, self.least, bytes);
        self.greatest = self.greatest.max(bytes);
        self.all = self.all.with(bytes)?;
        self.codecs.count(cid.codec(), bytes)?;
        self.hashes.count(cid.hash_code(), bytes)?;
        self.names.add(*cid)
    }
}
