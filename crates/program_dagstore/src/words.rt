//! The texts of the program about itself, and the messages for wrong arguments or a missing file.

/// The message for unknown arguments.
pub const USAGE: &str =
    "usage: dagstore FILE import|put|export|get|at|ls|cat|has|tree|remove|gc|roots|add-root|drop-root|check|list|count|serve, dagstore --help\n";

/// What `--help` writes.
pub const HELP: &str = "usage: dagstore FILE import [SOURCE]
       dagstore FILE put [dag-cbor|raw|0xCODEC]
       dagstore FILE export|gc [CID..]
       dagstore FILE get|has|tree CID
       dagstore FILE at [--raw] CID/PATH
       dagstore FILE ls|cat CID/PATH
       dagstore FILE remove|add-root|drop-root CID..
       dagstore FILE roots|check|list|count
       dagstore FILE serve

Write to the store FILE, which import and put create if it does not exist:
  import   add the blocks of a CAR file (version 1 or 2), all or none; SOURCE may be left out,
           or be -, for standard input
  put      add the block on standard input, and write its CID

Read from it:
  export   write a CAR file (version 1) of all blocks, with these roots; without CIDs, with the
           stored roots
  get      write the block with this CID
  at       write the data at this path as DAG-JSON; --raw writes its bytes
  ls       list the IPFS directory at this path of names
  cat      write the IPFS file at this path of names
  has      write nothing; the exit status is 0 if the CID is listed, else 1
  tree     write a CAR file of the blocks that links lead to from this CID
  check    validate each block, and report links to missing blocks
  list     list the CID and length of each block
  count    write how many CIDs are listed
  roots    list the stored roots, in order

Change it:
  remove     remove the blocks with these CIDs
  gc         remove all blocks to which no link leads from these CIDs; without CIDs, from the
             stored roots
  add-root   store these CIDs as roots, after the others
  drop-root  these CIDs are roots no longer; their blocks stay

For another program:
  serve      answer requests on standard input, one after another, until it ends; create FILE
             if it does not exist

For example:
  dagstore blocks.db import blocks.car
  dagstore blocks.db at CID/a/0

The exit status is 0 if all is well, 1 if something is wrong, 2 if the command did not finish.
";

/// What `--version` writes.
pub const VERSION: &str = "dagstore 0.7.0\n";

/// The message for out of memory.
pub const OUT_OF_MEMORY: &str = "dagstore: out of memory\n";

/// The message if the input cannot be read.
pub const NOT_READ: &str = "dagstore: the input failed\n";

/// The message if buffered output cannot be written.
pub const NOT_WRITTEN: &str = "dagstore: standard output takes no more\n";

/// The message if the file does not exist.
pub const NO_STORE: &str = "dagstore: there is no such file; `import` and `put` make one\n";
