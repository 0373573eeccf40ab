//! New files.

ghost use Rattle.std.specs.Prelude.{◌≡◌, ◌≢◌, ◌∷◌, [], List, ℕ, Option, Bool, Some, false, IfOk, IfErr, MatchResult};
ghost use Rattle.program_sections.specs.NewFiles.{Named, AddsFiles};

use program_shared::ToolError;
use std::io::Write;

/// Why a file was not begun.
#[derive(Drop)]
pub enum NotBegun {
    /// A file with this name exists already. It stays as it is.
    Exists,
    Failed(ToolError),
}

/// A place where files are made, one after the other.
pub trait NewFiles {
    /// A file that was begun.
    type File: Write + Drop;

    /// The files finished, in order, if these are known.
    ghost whole: { Self → Option (List Named) };

    /// Returns whether a file with this name exists, if that is known.
    ghost has: { Self → List ℕ → Option Bool };

    /// Begins a file with this name, if none exists.
    fn begin(&mut self, name: &str) -> Result<Self::File, NotBegun>
        ensures whole { whole self.new ≡ whole self.old }
        ensures empty { IfOk result (λ file. (before : List Named) → whole self.old ≡ Some before
            → Self.File.contents file ≡ Some []) }
        ensures exists { IfErr result (λ e. e ≡ NotBegun.Exists
            → has self.new name.now ≢ Some false) };

    /// Finishes the file that was begun under this name. If this fails, the file is not finished.
    fn finish(&mut self, name: &str, file: &mut Self::File) -> Result<(), ToolError>
        ensures { MatchResult result
            (λ _. (b : List ℕ) → Self.File.contents file.old ≡ Some b
            → AddsFiles (whole self.old) (whole self.new) ((name.now, b) ∷ []))
            (λ _. whole self.new ≡ whole self.old) };
}
