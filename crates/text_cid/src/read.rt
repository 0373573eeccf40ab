//! Reading a CID from its text.

ghost use Rattle.text_cid.specs.Texts.{ReadsIn, ReadsCidIn, ReadsCidText, IsOfVersion};

use crate::base::Base;
use crate::base58::read_58;
use crate::error::CidTextError;
use crate::groups::{READ_ROOM, read_groups};
use crate::symbols::split_character;
use arrayvec::ArrayVec;
use ipld_tree::Cid;

/// The most characters of a CID, without a prefix.
const LONGEST_READ: usize = 172;

/// Returns the bytes that the text spells in the base.
fn read_in(base: Base, text: &[u8]) -> Result<ArrayVec<u8, READ_ROOM>, CidTextError>
    ensures { ReadsIn base text.now result }
{
    if text.len() > LONGEST_READ {
        return Err(CidTextError::TooLong);
    }
    match base {
        Base::Base16Lower => read_groups(4, b"0123456789abcdef", text),
        Base::Base32Lower => read_groups(5, b"abcdefghijklmnopqrstuvwxyz234567", text),
        Base::Base32Upper => read_groups(5, b"ABCDEFGHIJKLMNOPQRSTUVWXYZ234567", text),
        Base::Base58Btc => read_58(text),
    }
}

/// Returns the CID whose bytes the text spells in the base.
fn cid_in(base: Base, text: &[u8]) -> Result<Cid, CidTextError>
    ensures { ReadsCidIn base text.now result }
{
    match read_in(base, text) {
        Ok(bytes) => match Cid::try_from(bytes.as_slice()) {
            Ok(cid) => Ok(cid),
            Err(fault) => Err(CidTextError::InvalidCid(fault)),
        },
        Err(error) => Err(error),
    }
}

/// Returns the CID if it has this version.
fn of_version(version: u64, read: Result<Cid, CidTextError>) -> Result<Cid, CidTextError>
    ensures { IsOfVersion version read result }
{
    match read {
        Ok(cid) if cid.version() == version => Ok(cid),
        Ok(_) => Err(CidTextError::InvalidVersion),
        Err(error) => Err(error),
    }
}

/// Reads the text of a CID: version 0 in base58btc, or version 1 after the prefix of its base.
#[tactic(auto, using(crate::proofs::Texting::no_characters))]
pub fn cid_from_text(text: &[u8]) -> Result<Cid, CidTextError>
    ensures { ReadsCidText text.now result }
{
    let Some((first, rest)) = split_character(text) else {
        return Err(CidTextError::UnknownBase);
    };
    match first {
        b'f' => of_version(1, cid_in(Base::Base16Lower, rest)),
        b'b' => of_version(1, cid_in(Base::Base32Lower, rest)),
        b'B' => of_version(1, cid_in(Base::Base32Upper, rest)),
        b'z' => of_version(1, cid_in(Base::Base58Btc, rest)),
        b'Q' => of_version(0, cid_in(Base::Base58Btc, text)),
        _ => Err(CidTextError::UnknownBase),
    }
}
