//! Writes the stored blocks as a CAR file.

ghost use Rattle.std.specs.Prelude.{Some, OnOk};
ghost use Rattle.serde_ipld_dagcbor.specs.Written.{Writes};
ghost use Rattle.serde_ipld_dagcbor.specs.Walks.{forms};
ghost use Rattle.files_car.specs.Car.{car_bytes, IsCar};
ghost use Rattle.files_car.specs.Writers.{UnsentWithoutMemory};
ghost use Rattle.dagcbor_blocks.specs.Blocks.{held_blocks};

use crate::store::Blocks;
use files_car::{push_header, push_section};
use serde_ipld_dagcbor::{Cid, Write, WriteResult};

impl Blocks {
    /// Appends a CAR file of version 1 with these roots and all stored blocks, in the order of
    /// their names. The roots need not be stored. Encoding the header allocates, whatever the
    /// writer does. The error is never `Msg`.
    pub fn write_car<W: Write>(&self, roots: &[Cid], writer: &mut W) -> WriteResult<(), W>
        ensures written { Writes (Some (car_bytes (forms roots.now) (held_blocks self.now)))
            (W.written writer.old) (W.written writer.new) result }
        ensures is_car { OnOk result (IsCar (car_bytes (forms roots.now) (held_blocks self.now))
            (forms roots.now) (held_blocks self.now)) }
        ensures unsent { UnsentWithoutMemory W.takes_memory (W.written writer.old) result
            (W.written writer.new) }
    {
        push_header(self.alloc, writer, roots)?;
        for (name, block) in self.blocks.iter() {
            push_section(writer, name, block)?;
        }
        Ok(())
    }
}
