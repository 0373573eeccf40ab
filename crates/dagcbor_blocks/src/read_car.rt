//! Reads the blocks of a CAR file into a store.

ghost use Rattle.serde_ipld_dagcbor.specs.Inputs.{input_reading};
ghost use Rattle.dagcbor_blocks.specs.Blocks.{held_blocks};
ghost use Rattle.dagcbor_blocks.specs.Bytes.{PutsBytes};
ghost use Rattle.dagcbor_blocks.specs.Cars.{ReadsCar};

use crate::put_error::PutBlockError;
use crate::store::Blocks;
use files_car::{ReadCarError, Section, SectionSink, each_section, pull_header};
use serde_ipld_dagcbor::{Cid, Input, Read};

impl SectionSink for Blocks {
    type Stop = PutBlockError;

    ghost takes = { λ s old result new. PutsBytes s (held_blocks old) result (held_blocks new) };

    /// Stores the block, as `put_block` does.
    fn take(&mut self, section: &Section<'_>) -> Result<(), PutBlockError> {
        self.put_block(&section.cid, section.block)
    }
}

impl Blocks {
    /// Stores the blocks of a CAR file of version 1 or 2, each under its name, and returns its
    /// roots. The file is what is left of the input: a slice, or a reader, such as
    /// `Input::Reader(IoReader::new(source))` for a source of std. One section of it is in memory
    /// at a time, besides the stored blocks.
    ///
    /// Each block must be one that `put_block` accepts, of any codec. The first section whose block
    /// is refused ends the call, and so do bytes that are not a section. The blocks stored before
    /// stay.
    pub fn read_car<'de, R: Read>(
        &mut self,
        input: &mut Input<'de, R>,
    ) -> Result<Vec<Cid>, ReadCarError<R::Error, PutBlockError>>
        ensures { ReadsCar (input_reading R.reading input.old) (held_blocks self.old) result
            (input_reading R.reading input.new) (held_blocks self.new) }
    {
        let (roots, mut left) = match pull_header(self.alloc, input) {
            Ok(begun) => begun,
            Err(error) => return Err(ReadCarError::Header(error)),
        };
        let _count = each_section(self.alloc, input, &mut left, self)?;
        Ok(roots)
    }
}
