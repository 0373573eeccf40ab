//! Directories and their entries.

ghost use Rattle.std.specs.Prelude.{◌≡◌, List, MatchResult, IfOk};
ghost use Rattle.dag_pb.specs.Node.{NodeParts, IsNode};
ghost use Rattle.dag_pb.specs.Reads.{link_of};
ghost use Rattle.files_unix_fs.specs.Reading.{HasRow};
ghost use Rattle.files_unix_fs.specs.Directories.{link_named, has_name, IsDirectory, IsNoDirectory};

use crate::directory_error::DirectoryError;
use crate::kind::Kind;
use crate::node::{NodeError, read_message};
use dag_pb::{PbLink, next_link};
use ipld_tree::Cid;

/// Validates the block, under a CID of the codec dag-pb, as a directory. The links of a directory
/// are its entries: `dag_pb::next_link` walks over the block, and returns each with its name and
/// its CID.
pub fn check_directory(block: &[u8]) -> Result<(), DirectoryError>
    ensures directory { MatchResult result
        (λ _. IsDirectory block.now)
        (λ e. IsNoDirectory e block.now) }
    ensures row { IfOk result (λ _. HasRow block.now) }
{
    match read_message(block) {
        Ok(said) => match said.kind {
            Kind::Directory => Ok(()),
            Kind::HamtShard => Err(DirectoryError::InShards),
            kind => Err(DirectoryError::NotADirectory(kind)),
        },
        Err(NodeError::NotANode(fault)) => Err(DirectoryError::NotANode(fault)),
        Err(NodeError::NoData) => Err(DirectoryError::NoData),
        Err(NodeError::NoMessage(fault)) => Err(DirectoryError::NoMessage(fault)),
    }
}

/// Returns the CID of the entry with this name: the first, if several have it. `None` if no entry
/// has it.
pub fn find_entry(block: &[u8], name: &[u8]) -> Result<Option<Cid>, DirectoryError>
    ensures { MatchResult result
        (λ found. IsDirectory block.now
        × ((node : NodeParts) → IsNode block.now node → found ≡ link_named name.now node.links))
        (λ e. IsNoDirectory e block.now) }
{
    check_directory(block)?;
    Ok(first_named(block, name))
}

/// Returns the CID of the first link with this name. `None` if no link has it.
#[tactic(auto, using(crate::proofs::Entries::none_searched, crate::proofs::Entries::other_searched, crate::proofs::Entries::one_named, crate::proofs::Entries::none_named))]
fn first_named(block: &[u8], name: &[u8]) -> Option<Cid>
    requires { HasRow block.now }
    ensures { (node : NodeParts) → IsNode block.now node → result ≡ link_named name.now node.links }
{
    let mut links = block;
    while let Some((link, more)) = next_link(links) {
        if is_named(&link, name) {
            return Some(link.hash);
        }
        links = more;
    }
    None
}

/// Returns whether the link has this name. A link without a name counts as having the empty name.
fn is_named(link: &PbLink<'_>, name: &[u8]) -> bool
    ensures { result ≡ has_name name.now (link_of link.now) }
{
    match link.name {
        Some(own) => own == name,
        None => name.is_empty(),
    }
}
