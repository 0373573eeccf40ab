//! Laws, each the contract of a function that does nothing.

ghost use Rattle.abi_calls.specs.Told.{TapeTellsBlock};
ghost use Rattle.abi_calls.specs.WalkRuns.{WalksAreExact, ToldAreUnique, CutsAgree};
ghost use Rattle.abi_calls.specs.WalkRuns.{MoreBytesAgree, FilesAreTold, LastNeedsNoMore};

/// The tape of a block encodes the block.
#[tactic(auto, using(crate::proofs::Telling::tape_tells_block))]
pub fn tape_tells_block()
    ensures { TapeTellsBlock }
{}

/// However a CAR file is cut into pieces, and however often a call is made, the calls report what
/// is in it.
#[tactic(auto, using(crate::proofs::WalkRuns::walks_are_exact))]
pub fn walks_are_exact()
    ensures { WalksAreExact }
{}

/// What the calls report of a file is determined by the file.
#[tactic(auto, using(crate::proofs::WalksAgree::told_are_unique))]
pub fn told_are_unique()
    ensures { ToldAreUnique }
{}

/// Two runs of calls over one file report the same, wherever each cuts it.
#[tactic(auto, using(crate::proofs::WalksAgree::cuts_agree))]
pub fn cuts_agree()
    ensures { CutsAgree }
{}

/// A call that needs no more bytes answers the same if more are at hand.
pub fn more_bytes_agree()
    ensures { MoreBytesAgree }
{}

/// For a CAR file the calls report its roots and sections, and no fault; and if they report the
/// end, the bytes are a CAR file.
#[tactic(auto, using(crate::proofs::WalkedFiles::files_are_told))]
pub fn files_are_told()
    ensures { FilesAreTold }
{}

/// If all bytes of the file are at hand, no more are needed.
#[tactic(auto, using(crate::proofs::WalkRuns::last_needs_no_more))]
pub fn last_needs_no_more()
    ensures { LastNeedsNoMore }
{}
