//! What the program says about itself.

ghost use Rattle.std.specs.Prelude.{◌≡◌};
ghost use Rattle.program_dagcar.specs.Help.{help_text, version_text};

/// What `--help` writes.
const HELP: &str = "usage: dagcar check [--summary] [FILE]
       dagcar inspect [--json] [FILE]
       dagcar verify|list|name|one|show|make [FILE]
       dagcar get|tree CID [FILE]
       dagcar at [--raw] CID/PATH [FILE]
       dagcar prove CID/PATH [FILE]
       dagcar ls|cat CID/PATH [FILE]
       dagcar records [--json] [FILE]
       dagcar record KEY [FILE]
       dagcar record-proof KEY [FILE]
       dagcar commit [FILE]
       dagcar changes OLD NEW
       dagcar filter [--root CID].. --codec CODEC|--names LIST [FILE]
       dagcar merge [--root CID].. FILE FILE..
       dagcar split [--root CID].. --size BYTES FILE PREFIX
       dagcar index FILE
       dagcar check|list --index FILE
       dagcar event [FILE]

CAR files (version 1 or 2); FILE may be left out, or be -, for standard input:
  check    validate each block, and report links to missing blocks; --summary counts them;
           for a named FILE also validate its index, and with --index only that
  inspect  count what the file holds; --json writes the counts as JSON
  verify   validate each block
  list     list the roots, and the CID and length of each block; --index lists the index
  get      write the block with this CID
  tree     write a CAR file of the blocks that links lead to from this CID
  at       write the data at this path as DAG-JSON; --raw writes its bytes
  prove    write a CAR file of the blocks on this path, from which at gives the same answer
  ls       list the IPFS directory at this path of names
  cat      write the IPFS file at this path of names
  records  list the keys and CIDs of a repository's records (AT Protocol); --json writes
           each record's CID, key and data as a line of DAG-JSON
  record   write the record with this key as DAG-JSON
  record-proof  write a CAR file of the blocks that prove the record with this key, or that
           there is none
  commit   show the commit of a repository
  changes  list the keys whose records differ between two repositories, and their CIDs
  filter   write a CAR file of the blocks with this codec, or with the CIDs in a list
  merge    write one CAR file of the sections of several, each right block once
  split    write the blocks in order to PREFIX-0.car, PREFIX-1.car and so on, files of at
           most BYTES bytes, or of one block
  index    write the same file in version 2 with an index, by which get and at find blocks

Frames of the event stream of a repository host (AT Protocol), one after another:
  event    verify each commit from its frame alone, and list the changes that it makes

Blocks of DAG-CBOR:
  name     write the CID of the block
  one      validate the block, and write its kind
  show     write the data of the block as DAG-JSON
  make     the reverse of show: write the block of data in DAG-JSON

For example:
  dagcar check blocks.car
  dagcar prove CID/a/0 blocks.car > proof.car
  dagcar at CID/a/0 proof.car
  dagcar at --raw CID/a/0 proof.car | dagcar one
  dagcar records repo.car

The exit status is 0 if all is well, 1 if something is wrong, 2 if the command did not finish.
";

/// What `--version` writes.
const VERSION: &str = "dagcar 0.7.0\n";

/// Returns the text of `--help`.
pub fn help_text() -> &'static str
    ensures { result.now ≡ help_text }
{
    HELP
}

/// Returns the text of `--version`.
pub fn version_text() -> &'static str
    ensures { result.now ≡ version_text }
{
    VERSION
}
