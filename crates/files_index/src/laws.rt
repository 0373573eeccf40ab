//! A law of indexes. It is the contract of a function that does nothing.

ghost use Rattle.files_index.specs.Leading.{IndexLeads};

/// In an index of sorted entries, a look-up finds the entries of one multihash in their order.
pub fn index_leads()
    ensures { IndexLeads }
{}
