//! Tests whether announced sizes are those of the parts.

ghost use Rattle.std.specs.Prelude.{◌≡◌, ◌↔◌, ◌+◌, IsTrue, sum};
ghost use Rattle.files_unix_fs.specs.UnixFs.{sizes_of};
ghost use Rattle.files_unix_fs.specs.Files.{has_empty};
ghost use Rattle.files_unix_fs.specs.Entities.{fitting};
ghost use Rattle.files_unix_fs.specs.Reading.{IsTotal};

use crate::sizes::next_size;

/// Returns whether the size is the sum of the content's length and the block sizes, if it is
/// announced.
pub(crate) fn is_announced(size: Option<u64>, content: usize, sizes: &[u8]) -> bool
    ensures { IsTrue result ↔ IsTotal size (content + sum (sizes_of sizes.now)) }
{
    match size {
        Some(total) => is_total(total, content, sizes),
        None => true,
    }
}

/// Returns whether the total is the sum of the content's length and the block sizes.
fn is_total(total: u64, content: usize, sizes: &[u8]) -> bool
    ensures { IsTrue result ↔ (total ≡ content + sum (sizes_of sizes.now)) }
{
    match total_in(content, sizes) {
        Some(made) => made == total,
        None => false,
    }
}

/// Returns the sum of the content's length and the block sizes. `None` if it is 2^64 or more.
pub(crate) fn total_in(content: usize, sizes: &[u8]) -> Option<u64>
    ensures { result ≡ fitting (content + sum (sizes_of sizes.now)) }
{
    let mut total = content as u64;
    let mut rest = sizes;
    while let Some((size, following)) = next_size(rest) {
        let Some(more) = total.checked_add(size) else {
            return None;
        };
        total = more;
        rest = following;
    }
    Some(total)
}

/// Returns whether a block size is 0.
#[tactic(auto, using(crate::proofs::Empties::none_passed, crate::proofs::Empties::one_passed, crate::proofs::Empties::empty_found, crate::proofs::Empties::no_empty))]
pub(crate) fn has_empty_part(sizes: &[u8]) -> bool
    ensures { result ≡ has_empty (sizes_of sizes.now) }
{
    let mut rest = sizes;
    while let Some((size, following)) = next_size(rest) {
        if size == 0 {
            return true;
        }
        rest = following;
    }
    false
}
