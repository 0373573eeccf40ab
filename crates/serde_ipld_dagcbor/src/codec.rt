//! DAG-CBOR as a codec.

ghost use Rattle.std.specs.Prelude.{Some, IfErr, IfSome, false, ◌||◌};
ghost use Rattle.dagcbor_core.specs.Steps.{default_steps};
ghost use Rattle.ipld_tree.specs.Codecs.{Decodes, Encodes, EncodesAsVec, FindsLinks};
ghost use Rattle.ipld_tree.specs.Tree.{Tree};
ghost use Rattle.ipld_tree.specs.Spelling.{IsSpelling};
ghost use Rattle.dagcbor_decode.specs.Blocks.{AreFirstLinks};
ghost use Rattle.dagcbor_read.specs.Whole.{IsForAfter, LacksMemoryIf};
ghost use Rattle.serde_ipld_dagcbor.specs.Codec.{IsReadAs, IsExcuse, DecodeRefused, EncodeRefused};
ghost use Rattle.serde_ipld_dagcbor.specs.Codec.{EncodeToVecRefused, LinksNotFound};
ghost use Rattle.serde_ipld_dagcbor.specs.Codec.{DecodeFromSliceRefused, IsDecodeIo, AreAlike};
ghost use Rattle.serde_ipld_dagcbor.specs.Codec.{spellings_are_unique, trees_have_one_spelling};
ghost use Rattle.serde_ipld_dagcbor.specs.Codec.{bytes_have_one_list};
ghost use Rattle.serde_ipld_dagcbor.specs.Codec.{EncodeLacksMemoryIf, EncodeTells};
ghost use Rattle.serde_ipld_dagcbor.specs.Codec.{HandsDecodedOn, HandsSliceDecodedOn};

use crate::DAG_CBOR_CODE;
use crate::error::CodecError;
use dagcbor_core::DecodeError;
use dagcbor_decode::links_from_slice;
use dagcbor_read::{DeserializeOwned, from_reader, from_slice_owned};
use dagcbor_write::{Serialize, to_vec, to_writer};
use ipld_tree::{CidIter, Codec, Links};
use std::alloc::Global;
use std::convert::Infallible;
use std::io;
use std::io::{BufRead, Write};

/// Turns the refusal of a slice into that of a source.
fn of_no_device(error: DecodeError<Infallible>) -> DecodeError<io::Error>
    ensures { AreAlike error result }
{
    match error {
        DecodeError::Msg(name) => DecodeError::Msg(name),
        DecodeError::Read(never) => match never {},
        DecodeError::Eof { name, expect } => DecodeError::Eof { name, expect },
        DecodeError::Mismatch { name, found } => DecodeError::Mismatch { name, found },
        DecodeError::Unsupported { name, found } => DecodeError::Unsupported { name, found },
        DecodeError::RequireLength { name, found } => DecodeError::RequireLength { name, found },
        DecodeError::RequireBorrowed { name } => DecodeError::RequireBorrowed { name },
        DecodeError::RequireUtf8 { name } => DecodeError::RequireUtf8 { name },
        DecodeError::LengthOverflow { name, found } => DecodeError::LengthOverflow { name, found },
        DecodeError::CastOverflow { name } => DecodeError::CastOverflow { name },
        DecodeError::ArithmeticOverflow { name, ty } => {
            DecodeError::ArithmeticOverflow { name, ty }
        }
        DecodeError::DepthOverflow { name } => DecodeError::DepthOverflow { name },
        DecodeError::LengthMismatch {
            name,
            expect,
            value,
        } => DecodeError::LengthMismatch {
            name,
            expect,
            value,
        },
        DecodeError::TrailingData => DecodeError::TrailingData,
        DecodeError::IndefiniteSize => DecodeError::IndefiniteSize,
        DecodeError::NonMinimal { name, found } => DecodeError::NonMinimal { name, found },
        DecodeError::UnorderedKey => DecodeError::UnorderedKey,
        DecodeError::OutOfMemory => DecodeError::OutOfMemory,
        DecodeError::Failed => DecodeError::Failed,
    }
}

/// The format DAG-CBOR, for the traits `Codec` and `Links`.
#[derive(Clone, Copy, Debug, PartialEq, Eq)]
pub struct DagCborCodec;

impl<'de, T: DeserializeOwned<'de> + Serialize> Codec<'de, T> for DagCborCodec {
    const CODE: u64 = DAG_CBOR_CODE;

    type Error = CodecError;

    ghost CODE = { 0x71 };

    ghost Data = { Tree };

    ghost View = { T.View };

    ghost is_encoding = { IsSpelling };

    ghost data_of = { T.tree };

    ghost meaning = { T.meaning };

    ghost is_read = { IsReadAs T.shape };

    ghost is_excuse = { IsExcuse };

    ghost unique = { spellings_are_unique };

    ghost canonical = { trees_have_one_spelling };

    fn decode<R: BufRead + Drop>(alloc: Global, reader: R) -> Result<T, CodecError>
        ensures answers { Decodes IsSpelling (IsReadAs T.shape) T.meaning IsExcuse
            (R.remaining reader) result }
        ensures exact { DecodeRefused T.shape (R.remaining reader) result }
        ensures following { IfErr result
            (IsDecodeIo (λ e. IfSome (R.remaining reader)
            (λ b. IsForAfter T.shape default_steps b e))) }
        ensures memory { IfErr result (IsDecodeIo (LacksMemoryIf (T.shape.memory false))) }
        ensures handed { HandsDecodedOn T.answers (R.remaining reader) result }
    {
        match from_reader(alloc, reader) {
            Ok(value) => Ok(value),
            Err(error) => Err(CodecError::DecodeIo(error)),
        }
    }

    fn decode_from_slice(alloc: Global, bytes: &[u8]) -> Result<T, CodecError>
        ensures answers { Decodes IsSpelling (IsReadAs T.shape) T.meaning IsExcuse
            (Some bytes.now) result }
        ensures exact { DecodeFromSliceRefused T.shape bytes.now result }
        ensures following { IfErr result (IsDecodeIo (IsForAfter T.shape default_steps bytes.now)) }
        ensures memory { IfErr result (IsDecodeIo (LacksMemoryIf (T.shape.memory false))) }
        ensures handed { HandsSliceDecodedOn T.answers bytes.now result }
    {
        match from_slice_owned(alloc, bytes) {
            Ok(back) => Ok(back),
            Err(error) => Err(CodecError::DecodeIo(of_no_device(error))),
        }
    }

    fn encode<W: Write>(alloc: Global, writer: &mut W, value: &T) -> Result<(), CodecError>
        ensures answers { Encodes IsSpelling IsExcuse (T.tree value.now)
            (W.contents writer.old) result (W.contents writer.new) }
        ensures exact { EncodeRefused (T.tree value.now) (W.contents writer.old) result
            (W.contents writer.new) }
        ensures memory { IfErr result (EncodeLacksMemoryIf (T.takes_memory || false)) }
        ensures told { IfErr result (EncodeTells (T.message value.now)) }
    {
        match to_writer(alloc, writer, value) {
            Ok(()) => Ok(()),
            Err(error) => Err(CodecError::EncodeIo(error)),
        }
    }

    fn encode_to_vec(alloc: Global, value: &T) -> Result<Vec<u8>, CodecError>
        ensures answers { EncodesAsVec IsSpelling IsExcuse (T.tree value.now) result }
        ensures exact { EncodeToVecRefused (T.tree value.now) result }
        ensures told { IfErr result (EncodeTells (T.message value.now)) }
    {
        match to_vec(alloc, value) {
            Ok(bytes) => Ok(bytes),
            Err(error) => Err(CodecError::Encode(error)),
        }
    }
}

impl Links for DagCborCodec {
    type LinksError = CodecError;

    ghost has_links = { AreFirstLinks };

    ghost is_excuse = { IsExcuse };

    ghost unique = { bytes_have_one_list };

    fn links(alloc: Global, bytes: &[u8]) -> Result<CidIter, CodecError>
        ensures answers { FindsLinks AreFirstLinks IsExcuse bytes.now result }
        ensures exact { LinksNotFound bytes.now result }
    {
        match links_from_slice(alloc, bytes) {
            Ok(links) => Ok(CidIter::new(links)),
            Err(error) => Err(CodecError::Decode(error)),
        }
    }
}
