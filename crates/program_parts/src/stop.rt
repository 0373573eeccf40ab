//! One block of a file that is being read.

ghost use Rattle.std.specs.Prelude.{◌≡◌, List, map, option_map, IfOk, MatchResult};
ghost use Rattle.ipld_links.specs.Reaching.{Stored, AreBytesOf};
ghost use Rattle.files_unix_fs.specs.Reading.{Asked, asked};
ghost use Rattle.program_parts.specs.Content.{IsNextName, IsReadOn, IsStopAt};
ghost use Rattle.program_parts.specs.Stops.{is_cause, is_of_file, cause_name, file_error_name, stop_line};

use crate::line::{line_of, missing_line};
use crate::verdict::{is_well, verdict_line};
use files_unix_fs::{FileError, FileReader, UnixFsCause};
use ipld_links::{Verdict, verify};
use ipld_paths::bytes_under;
use ipld_tree::Cid;
use std::alloc::{AllocError, Global};
use text_cid::cid_text;

/// Why reading a file stops at the block wanted, or why the kind of a block is not known.
#[derive(Debug, Drop)]
pub enum Stop {
    /// No block is stored under the CID.
    Missing,
    /// The bytes under the CID do not match it, or are not a block of its codec.
    NoBlock(Verdict),
    /// The block is not a part of the file; or, in a listing, not an entity of UnixFS.
    NoPart(FileError),
}

/// Takes the bytes of the CID that is wanted next, if they match it.
fn take_named<'b>(
    alloc: Global,
    reader: &mut FileReader,
    name: &Cid,
    bytes: &'b [u8],
) -> Result<&'b [u8], Stop>
    ensures { (stored : Stored) (below : List Asked) (w : Asked)
        → IsNextName (map asked reader.old.wanted.items) below w name.now
        → AreBytesOf stored name.now bytes.now
        → MatchResult result
        (λ out. IsReadOn stored (map asked reader.old.wanted.items) out.now
        (map asked reader.new.wanted.items))
        (IsStopAt stored name.now w) }
{
    let verdict = verify(name, bytes);
    if is_well(&verdict) {
        match reader.take(alloc, bytes) {
            Ok(piece) => Ok(piece),
            Err(error) => Err(Stop::NoPart(error)),
        }
    } else {
        Err(Stop::NoBlock(verdict))
    }
}

/// Takes the block that is wanted next, given the bytes stored under its CID. Returns the bytes of
/// the file in it.
pub fn take_stored<'b>(
    alloc: Global,
    reader: &mut FileReader,
    name: &'b Cid,
    stored: Option<&'b [u8]>,
) -> Result<&'b [u8], Stop>
    ensures { (all : Stored) (below : List Asked) (w : Asked)
        → all name.now ≡ option_map (λ b. b.now) stored.entry
        → IsNextName (map asked reader.old.wanted.items) below w name.now
        → MatchResult result
        (λ out. IsReadOn all (map asked reader.old.wanted.items) out.now
        (map asked reader.new.wanted.items))
        (IsStopAt all name.now w) }
{
    match bytes_under(name, stored) {
        Some(bytes) => take_named(alloc, reader, name, bytes),
        None => Err(Stop::Missing),
    }
}

/// Returns whether the file is the reason, not out of memory.
pub fn is_of_file(stop: &Stop) -> bool
    ensures { result ≡ is_of_file stop.now }
{
    match stop {
        Stop::Missing => true,
        Stop::NoBlock(_) => true,
        Stop::NoPart(error) => is_cause(error),
    }
}

/// Returns whether the refusal is not out of memory.
fn is_cause(error: &FileError) -> bool
    ensures { result ≡ is_cause error.now }
{
    match error {
        FileError::OutOfMemory => false,
        FileError::NothingWanted
        | FileError::TooDeep
        | FileError::OtherCodec(_)
        | FileError::NotANode(_)
        | FileError::NoData
        | FileError::NoMessage(_)
        | FileError::NotAFile(_)
        | FileError::EmptyPart
        | FileError::WrongSize
        | FileError::WrongLinks => true,
    }
}

/// Returns the name of the refusal's variant, or of its cause if the data is not a UnixFS message.
fn file_error_name(error: &FileError) -> &'static str
    ensures { result.now ≡ file_error_name error.now }
{
    match error {
        FileError::NothingWanted => "NothingWanted",
        FileError::TooDeep => "TooDeep",
        FileError::OtherCodec(_) => "OtherCodec",
        FileError::NotANode(_) => "NotANode",
        FileError::NoData => "NoData",
        FileError::NoMessage(fault) => cause_name(&fault.cause),
        FileError::NotAFile(_) => "NotAFile",
        FileError::EmptyPart => "EmptyPart",
        FileError::WrongLinks => "WrongLinks",
        FileError::WrongSize => "WrongSize",
        FileError::OutOfMemory => "OutOfMemory",
    }
}

/// Returns the name of the cause.
pub(crate) fn cause_name(cause: &UnixFsCause) -> &'static str
    ensures { result.now ≡ cause_name cause.now }
{
    match cause {
        UnixFsCause::Truncated => "Truncated",
        UnixFsCause::InvalidVarint => "InvalidVarint",
        UnixFsCause::UnexpectedField(_) => "UnexpectedField",
        UnixFsCause::PackedSizes => "PackedSizes",
        UnixFsCause::UnknownKind(_) => "UnknownKind",
        UnixFsCause::NoKind => "NoKind",
    }
}

/// Returns the line that says why reading stops at the block of this CID.
pub fn stop_line(alloc: Global, name: &Cid, stop: &Stop) -> Result<Vec<u8>, AllocError>
    ensures { IfOk result (λ v. v.items ≡ stop_line name.now stop.now) }
{
    match stop {
        Stop::Missing => missing_line(alloc, name),
        Stop::NoBlock(verdict) => {
            let (line, _well) = verdict_line(alloc, name, verdict)?;
            Ok(line)
        }
        Stop::NoPart(error) => {
            line_of(
                alloc,
                &cid_text(name),
                b" refused ",
                file_error_name(error).as_bytes(),
            )
        }
    }
}
