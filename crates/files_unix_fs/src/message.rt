//! Reads the message of a file or a directory.

ghost use Rattle.std.specs.Prelude.{◌≡◌, ◌<◌, length, MatchResult, IfOk};
ghost use Rattle.files_unix_fs.specs.UnixFs.{nothing_said, with_number, with_bytes, with_other, with_field, said_next, said_of, unix_fs_of};
ghost use Rattle.files_unix_fs.specs.Held.{held_said, held_field, held_parts};

use crate::error::{UnixFsCause, UnixFsError};
use crate::field::{Field, Value, split_field};
use crate::kind::{Kind, kind_from};

/// The tags of the fields. A tag is eight times the field's number, plus its wire type.
const KIND: u64 = 0x08;

const CONTENT: u64 = 0x12;

const FILE_SIZE: u64 = 0x18;

pub(crate) const BLOCK_SIZE: u64 = 0x20;

const PACKED_SIZES: u64 = 0x22;

const HASH_TYPE: u64 = 0x28;

const FANOUT: u64 = 0x30;

/// The first tag of the later fields, which are skipped, and the first tag out of range.
const OTHER_FIELDS: u64 = 0x38;

const NO_FIELDS: u64 = 0x1_0000_0000;

/// The message of a node, about a file, a part of one, or a directory.
#[derive(Clone, Copy, Debug)]
pub struct UnixFs<'a> {
    pub kind: Kind,
    /// The bytes of the file that are in the node itself, or the path that a symbolic link leads
    /// to.
    pub content: Option<&'a [u8]>,
    /// The number of bytes of the file below this node, as its author gave it.
    pub file_size: Option<u64>,
    /// The bytes that hold the block sizes, one for each link. Read them with `next_size`.
    pub sizes: &'a [u8],
    /// The hash function of a directory in shards, by its multihash code.
    pub hash_type: Option<u64>,
    /// The most links that a shard can have.
    pub fanout: Option<u64>,
}

/// The values of the fields read so far.
#[derive(Clone, Copy)]
pub(crate) struct Said<'a> {
    pub kind: Option<Kind>,
    pub content: Option<&'a [u8]>,
    pub file_size: Option<u64>,
    pub hash_type: Option<u64>,
    pub fanout: Option<u64>,
}

/// Reads a message. If a field comes twice, the later one counts, as in protocol buffers. The mode,
/// the time, and fields that the standard does not know are skipped.
#[tactic(auto, unfolding(crate::specs::UnixFs::unix_fs_of))]
pub fn read_unix_fs(message: &[u8]) -> Result<UnixFs<'_>, UnixFsError>
    ensures { MatchResult result
        (λ u. unix_fs_of message.now ≡ Ok (held_parts u))
        (λ e. unix_fs_of message.now ≡ Err e) }
{
    let said = read_fields(message)?;
    match said.kind {
        Some(kind) => Ok(UnixFs {
            kind,
            content: said.content,
            file_size: said.file_size,
            sizes: message,
            hash_type: said.hash_type,
            fanout: said.fanout,
        }),
        None => Err(UnixFsError {
            cause: UnixFsCause::NoKind,
            place: message.len(),
        }),
    }
}

/// Returns the values of all fields of the message.
#[tactic(auto, using(crate::proofs::Steps::none_read, crate::proofs::Steps::one_read, crate::proofs::Steps::all_read, crate::proofs::Steps::not_read))]
fn read_fields(message: &[u8]) -> Result<Said<'_>, UnixFsError>
    ensures { MatchResult result
        (λ said. said_of message.now ≡ Ok (held_said said))
        (λ e. said_of message.now ≡ Err e) }
{
    let mut said = Said {
        kind: None,
        content: None,
        file_size: None,
        hash_type: None,
        fanout: None,
    };
    let mut rest = message;
    while !rest.is_empty() {
        match read_field(said, rest) {
            Ok((next, following)) => {
                said = next;
                rest = following;
            }
            Err(cause) => {
                return Err(UnixFsError {
                    cause,
                    place: message.len() - rest.len(),
                });
            }
        }
    }
    Ok(said)
}

/// Adds the field at the front to the values, and returns the bytes after it.
#[tactic(auto, unfolding(crate::specs::UnixFs::said_next))]
fn read_field<'a>(said: Said<'a>, bytes: &'a [u8]) -> Result<(Said<'a>, &'a [u8]), UnixFsCause>
    ensures field { MatchResult result
        (λ p. said_next (held_said said.entry) bytes.now ≡ Ok (held_said p.0, p.1.now))
        (λ e. said_next (held_said said.entry) bytes.now ≡ Err e) }
    ensures shorter { IfOk result (λ p. length p.1.now < length bytes.now) }
{
    let (field, rest) = split_field(bytes)?;
    let next = match field.value {
        Value::Number(number) => said.with_number(field.tag, number)?,
        Value::Bytes(inner) => said.with_bytes(field.tag, inner)?,
    };
    Ok((next, rest))
}

impl<'a> Said<'a> {
    /// Adds a field that is a number.
    #[tactic(auto, unfolding(crate::specs::UnixFs::with_number))]
    fn with_number(self, tag: u64, number: u64) -> Result<Said<'a>, UnixFsCause>
        ensures { MatchResult result
            (λ said. with_number tag number (held_said self.entry) ≡ Ok (held_said said))
            (λ e. with_number tag number (held_said self.entry) ≡ Err e) }
    {
        match tag {
            KIND => match kind_from(number) {
                Some(kind) => Ok(Said {
                    kind: Some(kind),
                    ..self
                }),
                None => Err(UnixFsCause::UnknownKind(number)),
            },
            FILE_SIZE => Ok(Said {
                file_size: Some(number),
                ..self
            }),
            BLOCK_SIZE => Ok(self),
            HASH_TYPE => Ok(Said {
                hash_type: Some(number),
                ..self
            }),
            FANOUT => Ok(Said {
                fanout: Some(number),
                ..self
            }),
            _ => self.with_other(tag),
        }
    }

    /// Adds a field that is bytes.
    #[tactic(auto, unfolding(crate::specs::UnixFs::with_bytes))]
    fn with_bytes(self, tag: u64, inner: &'a [u8]) -> Result<Said<'a>, UnixFsCause>
        ensures { MatchResult result
            (λ said. with_bytes tag inner.now (held_said self.entry) ≡ Ok (held_said said))
            (λ e. with_bytes tag inner.now (held_said self.entry) ≡ Err e) }
    {
        match tag {
            CONTENT => Ok(Said {
                content: Some(inner),
                ..self
            }),
            PACKED_SIZES => Err(UnixFsCause::PackedSizes),
            _ => self.with_other(tag),
        }
    }

    /// Skips a field with this tag, if it is allowed.
    fn with_other(self, tag: u64) -> Result<Said<'a>, UnixFsCause>
        ensures { MatchResult result
            (λ said. with_other tag (held_said self.entry) ≡ Ok (held_said said))
            (λ e. with_other tag (held_said self.entry) ≡ Err e) }
    {
        if OTHER_FIELDS <= tag && tag < NO_FIELDS {
            Ok(self)
        } else {
            Err(UnixFsCause::UnexpectedField(tag))
        }
    }
}
