//! Laws of the texts. Each is the contract of a function.

ghost use Rattle.text_dag_json.specs.Reading.{TextsAreReadBack, TextsTellData};

/// A text is that of at most one tree, and of no tree if it has a fault. Exactly one of its faults
/// is named as the cause.
#[tactic(auto, using(crate::proofs::Telling::text_once))]
pub fn texts_tell_data()
    ensures { TextsTellData }
{}

/// Data that was written is read back, if no map in it has the key `/` and a block of the data can
/// be read.
#[tactic(auto, using(crate::proofs::ReadBack::text_read))]
pub fn texts_are_read_back()
    ensures { TextsAreReadBack }
{}
