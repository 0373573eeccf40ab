//! Laws of the definitions. Each is the contract of a function that does nothing.

ghost use Rattle.ipld_paths.specs.Laws.{PathsBind, NothingIsLedTo, WaysDecideEnds, WaysDecideItems};

/// A root and a path determine the item that is found, and also that nothing is: over two stores
/// the answers are the same, or two different byte strings have the same SHA-256.
#[tactic(auto, using(crate::proofs::Binding::paths_bind))]
pub fn paths_bind()
    ensures { PathsBind }
{}

/// If a path ends where its next segment leads nowhere, `paths_bind` holds of that answer too.
pub fn nothing_is_led_to()
    ensures { NothingIsLedTo }
{}

/// The blocks on the way of a path determine where it ends and what it leads to. A store of these
/// blocks alone gives the same answers as the whole store, even if the path leads nowhere or a
/// block is missing.
pub fn ways_decide()
    ensures ends { WaysDecideEnds }
    ensures items { WaysDecideItems }
{}
