//! Laws of the definitions. Each is the contract of a function that does nothing.

ghost use Rattle.dagcbor_blocks.specs.Blocks.{held_blocks, FindsMembers};
ghost use Rattle.dagcbor_blocks.specs.Laws.{WrittenThenFilled};

use crate::store::Blocks;
use files_car::laws::files_are_unique;

/// A look-up finds a block under a name exactly if the two are among the stored blocks. So the
/// contracts of `put` and `get`, which speak of look-ups, and that of `missing`, which speaks of
/// members, say it of the same blocks.
pub fn lookup_finds_members(blocks: &Blocks)
    ensures { FindsMembers (held_blocks blocks.now) }
{
    // This call has no effect. Its contract tells the proof that no name comes twice.
    let _ = blocks.blocks.iter();
}

/// An empty store that reads what `write_car` wrote from another store has the same blocks.
pub fn written_then_read(blocks: &Blocks)
    ensures { WrittenThenFilled (held_blocks blocks.now) }
{
    // These calls have no effect. Their contracts tell the proof that no name comes twice, and that
    // the bytes are only one file.
    let _ = blocks.blocks.iter();
    files_are_unique();
}
