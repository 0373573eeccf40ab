//! Writes a CAR file section by section.

ghost use Rattle.std.specs.Prelude.{◌≡◌, Some};
ghost use Rattle.dagcbor_items.specs.Walks.{forms};
ghost use Rattle.dagcbor_write.specs.Answers.{IsWriteExcuse};
ghost use Rattle.files_car.specs.Writers.{writer_refusal, BeginsCar, WritesSection};

use crate::error::CarWriteError;
use crate::push::{push_header, push_section};
use dagcbor_core::EncodeError;
use dagcbor_heads::Write;
use ipld_tree::Cid;
use std::alloc::Global;
use std::marker::Model;

/// Writes a CAR file: its header, and then section by section. No section allocates unless the
/// writer does. After a refusal the file may end inside a section, and each later call is refused.
#[derive(Drop)]
pub struct CarWriter<W> {
    writer: W,
    failed: bool,
}

impl<W> Model for CarWriter<W> {
    ghost use Rattle.files_car.specs.Writers.{WriterState};

    ghost Value = { WriterState W };

    ghost view = { λ file. record { writer = file.writer; failed = file.failed } };
}

impl<W> CarWriter<W> {
    /// Returns the writer.
    pub fn into_writer(self) -> W
        ensures { result ≡ self.writer }
    {
        let Self { writer, failed: _ } = self;
        writer
    }
}

impl<W: Write + Drop> CarWriter<W> {
    /// Writes the header of a file with these roots. If it is refused, the writer is dropped; use
    /// `push_header` to keep it.
    pub fn new(
        alloc: Global,
        mut writer: W,
        roots: &[Cid],
    ) -> Result<CarWriter<W>, CarWriteError<W::Error>>
        ensures { BeginsCar W.written writer (forms roots.now) result }
    {
        match push_header(alloc, &mut writer, roots) {
            Ok(()) => Ok(CarWriter {
                writer,
                failed: false,
            }),
            Err(error) => Err(refusal(error)),
        }
    }
}

impl<W: Write> CarWriter<W> {
    /// Writes the section of the block under this name. The name is not compared with the block.
    pub fn write(&mut self, cid: &Cid, block: &[u8]) -> Result<(), CarWriteError<W::Error>>
        ensures { WritesSection W.written W.takes_memory (cid.now, block.now) self.old result
            self.new }
    {
        if self.failed {
            return Err(CarWriteError::Failed);
        }
        match push_section(&mut self.writer, cid, block) {
            Ok(()) => Ok(()),
            Err(error) => {
                self.failed = true;
                Err(refusal(error))
            }
        }
    }
}

/// Returns the writer's refusal as a `CarWriteError`. It is never `Msg`, because sections can
/// always be encoded.
fn refusal<E: Drop>(error: EncodeError<E>) -> CarWriteError<E>
    requires { IsWriteExcuse error }
    ensures { writer_refusal result ≡ Some error }
{
    match error {
        EncodeError::Write(fault) => CarWriteError::Write(fault),
        EncodeError::OutOfMemory => CarWriteError::OutOfMemory,
        EncodeError::Msg(_) => unreachable!(),
    }
}
