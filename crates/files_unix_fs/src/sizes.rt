//! The block sizes of a message, one for each link of its node.

ghost use Rattle.std.specs.Prelude.{◌≡◌, ◌<◌, ◌∷◌, [], length, MatchOption, IfSome};
ghost use Rattle.files_unix_fs.specs.UnixFs.{size_in, sizes_of};
ghost use Rattle.files_unix_fs.specs.Held.{held_field};

use crate::field::{Field, Value, split_field};
use crate::message::BLOCK_SIZE;

/// Returns the first block size among the fields, and the fields after it. `None` if there are no
/// more. Begin with `UnixFs::sizes`.
#[tactic(auto, using(crate::proofs::Steps::all_fields, crate::proofs::Steps::no_more), unfolding(crate::specs::UnixFs::sizes_of))]
pub fn next_size(fields: &[u8]) -> Option<(u64, &[u8])>
    ensures size { MatchOption result (sizes_of fields.now ≡ [])
        (λ p. sizes_of fields.now ≡ p.0 ∷ sizes_of p.1.now) }
    ensures shorter { IfSome result (λ p. length p.1.now < length fields.now) }
{
    let mut rest = fields;
    while let Ok((field, following)) = split_field(rest) {
        if let Some(size) = size_of_field(&field) {
            return Some((size, following));
        }
        rest = following;
    }
    None
}

/// Returns the block size, if the field holds one.
fn size_of_field(field: &Field<'_>) -> Option<u64>
    ensures { MatchOption result (size_in (held_field field.now) ≡ [])
        (λ size. size_in (held_field field.now) ≡ size ∷ []) }
{
    match field.value {
        Value::Number(size) if field.tag == BLOCK_SIZE => Some(size),
        _ => None,
    }
}
