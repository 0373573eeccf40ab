//! The laws of what a store leaves, as the contracts of functions that do nothing.

ghost use Rattle.store_on_disk.specs.Leaving.{WhatIsLeftIsTaken, WhatIsHeldIsTaken, WhatAnOpenLeavesIsTaken};

use sqlite_disk::Disk;

/// If the clauses `leaves` hold, `BlockStore::open` may take the files that a store leaves, whether
/// a crash cuts the store off at any moment, or the process ends.
pub fn what_is_left_is_taken<D: Disk>()
    ensures crash { WhatIsLeftIsTaken D.Disk }
    ensures end { WhatIsHeldIsTaken D.Disk }
{}

/// An open that fails, or is cut off, of files that a store left, leaves files that an open may
/// take.
pub fn what_an_open_leaves_is_taken<D: Disk>()
    ensures { WhatAnOpenLeavesIsTaken D.Disk }
{}
