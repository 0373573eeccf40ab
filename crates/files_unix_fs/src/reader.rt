//! Reads a file block by block.

ghost use Rattle.std.specs.Prelude.{◌≡◌, ◌≢◌, ◌++◌, ◌∷◌, [], ℕ, List, Option, map, MatchResult, MatchOption, None, Err};
ghost use Rattle.ipld_tree.specs.Cid.{cid_bytes};
ghost use Rattle.files_unix_fs.specs.declared.wanted.Wanted.{Wanted as WantedParts};
ghost use Rattle.files_unix_fs.specs.declared.file_error.FileError.TheVariants.{OutOfMemory, NothingWanted};
ghost use Rattle.files_unix_fs.specs.Files.{joined, bytes_under};
ghost use Rattle.files_unix_fs.specs.Reading.{Asked, asked, row_bytes, stack_bytes, AreBelow, IsNext, IsTaken, GoesOn, IsCause, Denies};

use crate::file_error::FileError;
use crate::part::read_part;
use crate::wanted::{Wanted, push_one};
use ipld_tree::Cid;
use std::alloc::Global;

/// Reads a file block by block, and returns its bytes in their order. The caller fetches the next
/// wanted block, verifies it against its CID, and passes it to `take`.
#[derive(Drop)]
pub struct FileReader {
    /// The blocks that are wanted. The last one is the next.
    pub wanted: Vec<Wanted>,
}

impl FileReader {
    /// Begins at the root. Links may lead `depth` blocks deep, the root included.
    pub fn new(alloc: Global, root: Cid, depth: u32) -> Result<FileReader, FileError>
        ensures { MatchResult result
            (λ reader. (blocks : List ℕ → Option (List ℕ))
            → stack_bytes blocks (map asked reader.wanted.items) ≡ bytes_under blocks depth (cid_bytes root))
            (λ e. e ≡ OutOfMemory) }
    {
        let mut wanted = Vec::new(alloc);
        let first = Wanted {
            cid: root,
            size: None,
            depth,
        };
        push_one(&mut wanted, first)?;
        Ok(FileReader { wanted })
    }

    /// Returns the next wanted block. `None` at the end of the file.
    pub fn next_wanted(&self) -> Option<&Wanted>
        ensures { MatchOption result (self.now.wanted.items ≡ [])
            (λ w. (below : List WantedParts) × (self.now.wanted.items ≡ below ++ w.now ∷ [])) }
    {
        self.wanted.last()
    }

    /// Takes the block that was wanted, and returns the bytes of the file in it. They come after
    /// those returned before. After a refusal the reader is of no more use.
    pub fn take<'a>(&mut self, alloc: Global, block: &'a [u8]) -> Result<&'a [u8], FileError>
        ensures taken { (blocks : List ℕ → Option (List ℕ)) (below : List Asked) (w : Asked)
            → IsNext blocks (map asked self.old.wanted.items) below w block.now
            → MatchResult result
            (λ out. IsTaken blocks (map asked self.old.wanted.items) out.now (map asked self.new.wanted.items)
            × GoesOn below w (map asked self.new.wanted.items))
            (λ e. IsCause e w block.now
            × Denies e (stack_bytes blocks (map asked self.old.wanted.items) ≡ None)) }
        ensures ended { self.old.wanted.items ≡ [] → result ≡ Err NothingWanted }
    {
        let Some(next) = self.wanted.pop() else {
            return Err(FileError::NothingWanted);
        };
        let part = read_part(alloc, &next, block)?;
        push_all(&mut self.wanted, part.after)?;
        Ok(part.content)
    }
}

/// Adds these blocks, so that they come before all others, the first of them next.
fn push_all(wanted: &mut Vec<Wanted>, first: Vec<Wanted>) -> Result<(), FileError>
    ensures { MatchResult result
        (λ _. ((blocks : List ℕ → Option (List ℕ)) → stack_bytes blocks (map asked wanted.new.items)
        ≡ joined (row_bytes blocks (map asked first.items)) (stack_bytes blocks (map asked wanted.old.items)))
        × ((depth : ℕ) → AreBelow depth (map asked first.items) → (more : List Asked)
        × (map asked wanted.new.items ≡ map asked wanted.old.items ++ more) × AreBelow depth more))
        (λ e. (e ≡ OutOfMemory) × (map asked first.items ≢ [])) }
{
    let mut left = first;
    while let Some(last) = left.pop() {
        push_one(wanted, last)?;
    }
    Ok(())
}
