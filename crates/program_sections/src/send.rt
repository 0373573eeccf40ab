//! Writes the header and the sections of a CAR file to a device.

ghost use Rattle.dagcbor_items.specs.Walks.{forms};
ghost use Rattle.files_car.specs.Car.{header_bytes, section_bytes};
ghost use Rattle.program_parts.specs.Lines.{SaysText};

use dagcbor_core::EncodeError;
use dagcbor_heads::IoRefWriter;
use files_car::{Section, push_header, push_section};
use ipld_tree::Cid;
use program_shared::ToolError;
use std::alloc::Global;
use std::io::Write;

/// Writes the header with these roots.
pub(crate) fn send_header<W: Write>(
    alloc: Global,
    roots: &[Cid],
    output: &mut W,
) -> Result<(), ToolError>
    ensures { SaysText (header_bytes (forms roots.now)) (W.contents output.old) result
        (W.contents output.new) }
{
    let mut writer = IoRefWriter::new(output);
    let sent = push_header(alloc, &mut writer, roots);
    // No effect at run time. The proof reads what `output` holds from this use of it.
    let _ = &*writer.into_inner();
    match sent {
        Ok(()) => Ok(()),
        Err(error) => match error {
            EncodeError::Write(_) => Err(ToolError::Output),
            _ => Err(ToolError::OutOfMemory),
        },
    }
}

/// Writes the section.
pub(crate) fn send_section<W: Write>(section: &Section<'_>, output: &mut W) -> Result<(), ToolError>
    ensures { SaysText (section_bytes (section.now.cid, section.now.block.now))
        (W.contents output.old) result (W.contents output.new) }
{
    let mut writer = IoRefWriter::new(output);
    let sent = push_section(&mut writer, &section.cid, section.block);
    // No effect at run time. The proof reads what `output` holds from this use of it.
    let _ = &*writer.into_inner();
    match sent {
        Ok(()) => Ok(()),
        Err(error) => match error {
            EncodeError::Write(_) => Err(ToolError::Output),
            _ => Err(ToolError::OutOfMemory),
        },
    }
}
