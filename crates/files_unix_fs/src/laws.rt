//! Laws. Each is the contract of a function that does nothing.

ghost use Rattle.files_unix_fs.specs.Nodes.{ReadsNodes};
ghost use Rattle.files_unix_fs.specs.Reading.{HandsOutContents};

/// The data and the links read from a block of DAG-PB are those that `dag_pb` finds.
pub fn nodes_are_read()
    ensures { ReadsNodes }
{}

/// The bytes that a `FileReader` returns, until it wants no more blocks, are the file.
pub fn contents_are_handed_out()
    ensures { HandsOutContents }
{}
