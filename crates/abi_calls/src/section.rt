//! The verdict on a block under a name; and on the section at the front of a CAR file's bytes, with
//! the places of its parts.

ghost use Rattle.std.specs.Prelude.{◌≡◌, length};
ghost use Rattle.ipld_tree.specs.Cid.{cid_bytes};
ghost use Rattle.files_car.specs.Splits.{SplitsSection};
ghost use Rattle.abi_calls.specs.Codes.{verdict_code};
ghost use Rattle.abi_calls.specs.Sections.{section_places, IsSectionAnswer, IsVerifyAnswer};
ghost use Rattle.abi_calls.specs.Walks.{IsSectionCode};

use crate::code::{NO_CID, fault_code, kind_code, refusal_code};
use arrayvec::ArrayVec;
use files_car::{Section, split_section};
use ipld_links::{Verdict, verify};
use ipld_tree::Cid;

/// The number returned for a section that is not judged.
const SECTION: i32 = 13;

/// Returns the number of a verdict. Blocks of DAG-PB have that of blocks that are not read.
fn verdict_code(verdict: &Verdict) -> i32
    ensures { result ≡ verdict_code verdict.now }
{
    match verdict {
        Verdict::Block(kind) => kind_code(*kind),
        Verdict::NotRead => 9,
        Verdict::LinksNotRead => 9,
        Verdict::Node => 9,
        Verdict::NoNode(_) => 9,
        Verdict::Refused(refusal) => refusal_code(refusal),
        Verdict::OtherBytes => -22,
        Verdict::Unverified => -23,
    }
}

/// Returns the number of the verdict on the block under the name, or -26 if the name's bytes are
/// not a CID.
pub fn judge_named(name: &[u8], block: &[u8]) -> i32
    ensures { IsVerifyAnswer name.now block.now result }
{
    match Cid::try_from(name) {
        Ok(cid) => verdict_code(&verify(&cid, block)),
        Err(_) => NO_CID,
    }
}

/// Returns how many bytes the CID has.
fn cid_length(cid: &Cid) -> usize
    ensures { result ≡ length (cid_bytes cid.now) }
{
    let mut form = ArrayVec::new();
    cid.write_bytes(&mut form);
    form.len()
}

/// Returns where the parts are of the section that begins the bytes, if `rest` follows it.
pub(crate) fn places_of(bytes: &[u8], section: &Section<'_>, rest: &[u8]) -> [usize; 3]
    requires { SplitsSection bytes.now (section.now.cid, section.now.block.now) rest.now }
    ensures { result ≡ section_places (section.now.cid, section.now.block.now) }
{
    let end = bytes.len() - rest.len();
    let block = end - section.block.len();
    [block - cid_length(&section.cid), block, end]
}

/// Returns the number of the verdict on the section's block, or 13 if that is not to be judged.
pub(crate) fn section_code(section: &Section<'_>, is_unjudged: bool) -> i32
    ensures { IsSectionCode is_unjudged (section.now.cid, section.now.block.now) result }
{
    if is_unjudged {
        return SECTION;
    }
    verdict_code(&verify(&section.cid, section.block))
}

/// Returns the number of the verdict on the block of the section at the front, and writes the
/// places of its parts; or returns the number of why there is no section.
pub fn judge_section(bytes: &[u8], places: &mut [usize; 3]) -> i32
    ensures { IsSectionAnswer bytes.now places.old places.new result }
{
    match split_section(bytes) {
        Ok((section, rest)) => {
            *places = places_of(bytes, &section, rest);
            verdict_code(&verify(&section.cid, section.block))
        }
        Err(fault) => fault_code(&fault),
    }
}
