//! Takes a CAR file section by section, until it ends, or the sink refuses a section.

ghost use Rattle.std.specs.Prelude.{IfOk, IfSome, ◌≡◌};
ghost use Rattle.dagcbor_heads.specs.Inputs.{input_reading, not_lending};
ghost use Rattle.program_parts.specs.Lines.{refused_line};
ghost use Rattle.program_parts.specs.Taking.{IsOfBytes, TakesAfter, TakesFile, TakesAll};
ghost use Rattle.program_parts.specs.Taking.{EndsBy, EndsByFault};

use crate::line::refused_line;
use dagcbor_heads::{Input, IoRefReader, Read};
use files_car::{CarError, ReadCarError, SectionSink, each_section, pull_header};
use ipld_tree::Cid;
use program_shared::ToolError;
use std::alloc::Global;
use std::io::BufRead;

/// How far a file was taken.
#[derive(Drop)]
pub enum Ended<T> {
    /// To its end.
    Whole,
    /// Up to a section that the sink refused, for this cause.
    Stopped(T),
    /// Up to a header or a section that is refused. The line says why.
    Fault(Vec<u8>),
}

/// Returns the line that says why a file is refused. I/O errors and out of memory are returned as
/// errors instead.
pub fn fault_line<E: Drop>(alloc: Global, error: CarError<E>) -> Result<Vec<u8>, ToolError>
    ensures { IfOk result (λ v. IsOfBytes error × (v.items ≡ refused_line error)) }
{
    match error {
        CarError::Read(_) => Err(ToolError::Input),
        CarError::OutOfMemory => Err(ToolError::OutOfMemory),
        of_bytes => Ok(refused_line(alloc, &of_bytes)?),
    }
}

/// Returns how a run ended by this refusal.
fn fault_of<E: Drop, T: Drop>(alloc: Global, error: CarError<E>) -> Result<Ended<T>, ToolError>
    ensures { EndsByFault error result }
{
    Ok(Ended::Fault(fault_line(alloc, error)?))
}

/// Returns how a run ended that did not take all sections.
fn ended_by<E: Drop, T: Drop>(
    alloc: Global,
    error: ReadCarError<E, T>,
) -> Result<Ended<T>, ToolError>
    ensures { EndsBy error result }
{
    match error {
        ReadCarError::Header(error) => fault_of(alloc, error),
        ReadCarError::Section(_count, error) => fault_of(alloc, error),
        ReadCarError::Block(_count, _name, stop) => Ok(Ended::Stopped(stop)),
    }
}

/// Takes the sections after the header, up to `extent` if given.
pub fn take_sections<'de, S: SectionSink, R: Read>(
    alloc: Global,
    sink: &mut S,
    input: &mut Input<'de, R>,
    extent: Option<u64>,
) -> Result<Ended<S::Stop>, ToolError>
    ensures { TakesAfter S.takes extent (input_reading R.reading input.old) sink.old result
        sink.new }
{
    let mut left = extent;
    match each_section(alloc, input, &mut left, sink) {
        Ok(_count) => Ok(Ended::Whole),
        Err(error) => ended_by(alloc, error),
    }
}

/// Takes the source's CAR file. Returns its roots, and how far it was taken.
fn take_file<'de, S: SectionSink, R: Read>(
    alloc: Global,
    sink: &mut S,
    input: &mut Input<'de, R>,
) -> Result<(Vec<Cid>, Ended<S::Stop>), ToolError>
    ensures { TakesFile S.takes (input_reading R.reading input.old) sink.old result sink.new }
{
    match pull_header(alloc, input) {
        Ok((roots, extent)) => {
            let ended = take_sections(alloc, sink, input, extent)?;
            Ok((roots, ended))
        }
        Err(error) => {
            let line = fault_line(alloc, error)?;
            Ok((Vec::new(alloc), Ended::Fault(line)))
        }
    }
}

/// Returns an input that does not lend.
pub fn input_over<'de, R: Read>(reader: R) -> Input<'de, R>
    ensures { input_reading R.reading result ≡ not_lending (R.reading reader) }
{
    Input::Reader(reader)
}

/// Takes the input's CAR file. Returns its roots, and how far it was taken. There are no roots if
/// the header is refused. Holds one section at a time in memory, besides what the sink keeps.
pub fn take_input<S: SectionSink, R: BufRead>(
    alloc: Global,
    sink: &mut S,
    input: &mut R,
) -> Result<(Vec<Cid>, Ended<S::Stop>), ToolError>
    ensures { IfSome (R.remaining input.old) (λ b. IfOk result (λ p.
        TakesAll S.takes b sink.old p sink.new)) }
{
    let mut source = input_over(IoRefReader::new(input));
    let result = take_file(alloc, sink, &mut source);
    if let Some(lent) = source.into_reader() {
        let _source = lent.into_inner();
    }
    result
}
