//! Laws of the definitions, each stated as the contract of a function that does nothing.

ghost use Rattle.atproto_mst.specs.Laws.{OneRoot, RootBinds, RecordsBind, WaysDecideRecords, WaysLead};
ghost use Rattle.atproto_mst.specs.Laws.{SetsOne, UnsetsOne, OneDiff};
ghost use Rattle.atproto_mst.specs.Stops.{OneReason};

/// Equal entries have equal roots.
pub fn one_root()
    ensures { OneRoot }
{}

/// A refused tree has one reason, out of memory aside: the first fault on the way.
#[tactic(auto, using(crate::proofs::Listings::one_reason))]
pub fn one_reason()
    ensures { OneReason }
{}

/// A root determines the entries of its tree.
pub fn root_binds()
    ensures { RootBinds }
{}

/// The nodes on the path to a key determine its record, or that it has none.
pub fn records_bind()
    ensures { RecordsBind }
{}

/// The nodes on the path to a key are enough: a store with only these nodes gives an answer, and
/// the same one.
pub fn ways_decide_records()
    ensures same { WaysDecideRecords }
    ensures answered { WaysLead }
{}

/// Setting or removing one key leaves every other key as it was.
pub fn one_changes()
    ensures set { SetsOne }
    ensures unset { UnsetsOne }
{}

/// Two lists of entries have one list of changes.
pub fn one_diff()
    ensures { OneDiff }
{}
