//! Enters a list or a map, as an item of unknown kind.

ghost use Rattle.std.specs.Prelude.{IfErr};
ghost use Rattle.dagcbor_heads.specs.Looking.{LooksAfter};
ghost use Rattle.dagcbor_items.specs.Entering.{StartsWithParts, ReadsCount};
ghost use Rattle.dagcbor_items.specs.AnsweredVariants.{OfItem};

use dagcbor_heads::{Read, ReadResult, pull_head_argument, spend_step};

/// Spends a step, takes the head of a list or map, and returns how many items or entries it has.
#[tactic(auto, using(crate::proofs::PartRefusals::depth_item, crate::proofs::PartRefusals::named_item))]
pub(crate) fn enter<R: Read>(name: &str, reader: &mut R) -> ReadResult<u64, R>
    requires { StartsWithParts name.now (R.reading reader.old) }
    ensures count { ReadsCount (R.reading reader.old) result (R.reading reader.new) }
    ensures looked { LooksAfter 3 1 (R.reading reader.old) result (R.reading reader.new) }
    ensures variant { IfErr result OfItem }
{
    spend_step(name, reader)?;
    let count = pull_head_argument(name, reader)?;
    Ok(count)
}
