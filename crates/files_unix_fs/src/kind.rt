//! Kinds of data.

ghost use Rattle.std.specs.Prelude.{◌≡◌};
ghost use Rattle.files_unix_fs.specs.UnixFs.{kind_of};

/// The kind of data that a message describes.
#[derive(Copy, Clone, Debug, PartialEq, Eq)]
pub enum Kind {
    /// The bytes of a part of a file, as old writers name it.
    Raw,
    Directory,
    File,
    Metadata,
    Symlink,
    /// A part of a directory in shards: one spread over a hash array mapped trie.
    HamtShard,
}

/// Returns the kind with this number. `None` if the standard has none.
pub(crate) fn kind_from(number: u64) -> Option<Kind>
    ensures { result ≡ kind_of number }
{
    match number {
        0 => Some(Kind::Raw),
        1 => Some(Kind::Directory),
        2 => Some(Kind::File),
        3 => Some(Kind::Metadata),
        4 => Some(Kind::Symlink),
        5 => Some(Kind::HamtShard),
        _ => None,
    }
}
