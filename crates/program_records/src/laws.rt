//! Laws of the definitions, each stated as the contract of a function that does nothing.

ghost use Rattle.program_records.specs.Laws.{KeysAreWords, KeyTextsDiffer, KeysAreNamed};

/// The text of a key is one word, so no key can end its line.
#[tactic(auto, using(crate::proofs::Wording::keys_are_words))]
pub fn keys_are_words()
    ensures { KeysAreWords }
{}

/// Different keys have different texts.
#[tactic(auto, using(crate::proofs::Wording::keys_differ))]
pub fn keys_differ()
    ensures { KeyTextsDiffer }
{}

/// The text of a key names that key.
#[tactic(auto, using(crate::proofs::Wording::keys_named))]
pub fn keys_are_named()
    ensures { KeysAreNamed }
{}
