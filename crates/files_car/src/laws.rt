//! Laws of the definitions, and of sequences of calls. Each is the contract of a function that does
//! nothing.

ghost use Rattle.files_car.specs.Laws.{CarsAreUnique, FilesAreUnique, CarsAreFiles};
ghost use Rattle.files_car.specs.Runs.{RunsAreExact, CarsReadBack, CarsAreWritten};

use dagcbor_heads::{Read, Write};

/// The same bytes are never the files of two different lists of roots or sections.
#[tactic(auto, using(crate::proofs::Cars::car_unique))]
pub fn cars_are_unique()
    ensures { CarsAreUnique }
{}

/// The same bytes, of either version, are never the files of two different lists of roots or
/// sections.
pub fn files_are_unique()
    ensures { FilesAreUnique }
{}

/// A file of version 1 is a CAR file.
pub fn cars_are_files()
    ensures { CarsAreFiles }
{}

/// However often `next` is called, it returns the sections at the front of the bytes, in order, up
/// to the end or to one error where no section begins.
#[tactic(auto, using(crate::proofs::Running::exact))]
pub fn runs_are_exact<R: Read>()
    ensures { RunsAreExact R.Error }
{}

/// The header and sections sent to a writer are a CAR file, after what the writer held before.
pub fn cars_are_written<W: Write>()
    ensures { CarsAreWritten W.Error W.written W.takes_memory }
{}

/// A CAR file is read back as its roots and sections, and then the end, unless the reader faults or
/// memory runs out.
#[tactic(auto, using(crate::proofs::Running::read_back))]
pub fn cars_read_back<R: Read>()
    ensures { CarsReadBack R.Error R.reading }
{}
