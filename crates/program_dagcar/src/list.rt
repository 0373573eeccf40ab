//! `list`: the roots, and then each section, with the length of its block.

ghost use Rattle.std.specs.Prelude.{◌≡◌, [], ⊤, refl};
ghost use Rattle.program_dagcar.specs.Answers.{list_speech};

use crate::walk::Teller;
use files_car::Section;
use ipld_tree::Cid;
use program_parts::{Answer, Said, listed_line, root_lines};
use std::alloc::{AllocError, Global};

/// The state of a listing, which is empty.
#[derive(Clone, Copy)]
pub struct Listing;

impl Teller for Listing {
    ghost speech = { list_speech };

    ghost tells = { λ s text. text ≡ [] };

    ghost knows = { λ listing roots sections. ⊤ };

    ghost says_faults = { λ line. refl };

    fn begin(alloc: Global, roots: &[Cid]) -> Result<(Listing, Vec<u8>), AllocError> {
        let lines = root_lines(alloc, roots)?;
        Ok((Listing, lines))
    }

    fn tell(&mut self, alloc: Global, section: &Section<'_>) -> Result<Answer, AllocError> {
        let line = listed_line(alloc, &section.cid, section.block)?;
        Ok(((line, true), Vec::new(alloc)))
    }

    fn end(self, alloc: Global) -> Result<Said, AllocError> {
        Ok((Vec::new(alloc), true))
    }
}
