//! `verify`: the verdict on each section, without following links.

ghost use Rattle.std.specs.Prelude.{⊤, refl};
ghost use Rattle.program_dagcar.specs.Answers.{TellsPlace, verify_speech};

use crate::check::section_answer;
use crate::walk::Teller;
use files_car::Section;
use ipld_links::verify;
use ipld_tree::Cid;
use program_parts::{Answer, Said};
use std::alloc::{AllocError, Global};

/// The state of a verification, which is empty.
#[derive(Clone, Copy)]
pub struct Verifying;

impl Teller for Verifying {
    ghost speech = { verify_speech };

    ghost tells = { TellsPlace };

    ghost knows = { λ it roots sections. ⊤ };

    ghost says_faults = { λ line. refl };

    fn begin(alloc: Global, _roots: &[Cid]) -> Result<(Verifying, Vec<u8>), AllocError> {
        Ok((Verifying, Vec::new(alloc)))
    }

    fn tell(&mut self, alloc: Global, section: &Section<'_>) -> Result<Answer, AllocError> {
        let verdict = verify(&section.cid, section.block);
        section_answer(alloc, section, &verdict)
    }

    fn end(self, alloc: Global) -> Result<Said, AllocError> {
        Ok((Vec::new(alloc), true))
    }
}
