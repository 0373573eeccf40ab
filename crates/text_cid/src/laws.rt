//! Laws of the texts. Each is the contract of a function.

ghost use Rattle.std.specs.Prelude.{◌≡◌, Ok};
ghost use Rattle.text_cid.specs.Texts.{TextsTellCids, TextFaultsAreUnique};

use crate::error::CidTextError;
use crate::read::cid_from_text;
use crate::write::cid_text;
use ipld_tree::Cid;

/// No two CIDs share a text.
pub fn texts_tell_cids()
    ensures { TextsTellCids }
{}

/// A text has at most one fault, and the text of a CID has none. A text that `cid_from_text`
/// rejects has one.
pub fn text_faults()
    ensures { TextFaultsAreUnique }
{}

/// A CID that was written is read back.
#[tactic(auto, using(crate::proofs::Texting::read_back))]
pub fn texts_are_read_back(cid: &Cid) -> Result<Cid, CidTextError>
    ensures { result ≡ Ok cid.now }
{
    cid_from_text(&cid_text(cid))
}
