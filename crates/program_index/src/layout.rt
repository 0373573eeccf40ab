//! Where the parts of a CAR file of version 2 are.

ghost use Rattle.std.specs.Prelude.{◌≡◌, ◌≤◌, length, IfOk, IfSome, MatchOption};
ghost use Rattle.program_index.specs.Layouts.{index_field, HasIndex, IsLayout, BeginsAt};
ghost use Rattle.program_index.specs.Spans.{IsSpanOf};

use files_car::{Span, file_span};
use files_index::{ReadAt, fill, number_at};
use program_shared::ToolError;

/// The length of the CARv2 header, in bytes.
const HEADER_LENGTH: usize = 51;

/// The offset of the header field with the offset of the index.
const INDEX_FIELD: u64 = 43;

/// Where the parts of a CAR file of version 2 with an index are.
#[derive(Clone, Copy, Drop)]
pub(crate) struct Layout {
    /// The offset of the CARv1 payload.
    pub begin: u64,
    /// The length of the payload, in bytes.
    pub length: u64,
    /// The offset of the index.
    pub index: u64,
}

/// Returns where the CARv2 header says that the CARv1 payload is. `None` if it is not such a
/// header.
fn span_in(header: &[u8]) -> Option<Span>
    ensures { IsSpanOf header.now result }
{
    match file_span(header) {
        Ok(found) => found,
        Err(_) => None,
    }
}

/// Returns where the CARv1 payload is in a file of version 2. `None` for any other file.
fn span_at<S: ReadAt>(source: &S) -> Result<Option<Span>, ToolError>
    ensures { IfSome (S.bytes source.now) (λ b. IfOk result (IsSpanOf b)) }
{
    let mut header = [0; HEADER_LENGTH];
    match fill(source, 0, &mut header) {
        Ok(full) => { if full { Ok(span_in(&header)) } else { Ok(None) } }
        Err(_) => Err(ToolError::Input),
    }
}

/// Returns where the CARv1 payload begins, in a file of either version.
pub(crate) fn data_begin<S: ReadAt>(source: &S) -> Result<u64, ToolError>
    ensures { IfSome (S.bytes source.now) (λ b. IfOk result (BeginsAt b)) }
{
    match span_at(source)? {
        Some(span) => Ok(span.begin),
        None => Ok(0),
    }
}

/// Returns the offset of the index that the header gives. 0 if it gives none, or the file is too
/// short.
fn index_begin<S: ReadAt>(source: &S) -> Result<u64, ToolError>
    ensures { IfSome (S.bytes source.now) (λ b. IfOk result (λ n. 51 ≤ length b
        → n ≡ index_field b)) }
{
    match number_at(source, INDEX_FIELD) {
        Ok(found) => Ok(found.unwrap_or(0)),
        Err(_) => Err(ToolError::Input),
    }
}

/// Returns where the parts of the file are, if it is of version 2 and has an index.
pub(crate) fn layout_of<S: ReadAt>(source: &S) -> Result<Option<Layout>, ToolError>
    ensures { IfSome (S.bytes source.now) (λ b. IfOk result (λ found. MatchOption found
        (¬ HasIndex b) (IsLayout b))) }
{
    let Some(span) = span_at(source)? else {
        return Ok(None);
    };
    let index = index_begin(source)?;
    if index == 0 {
        return Ok(None);
    }
    Ok(Some(Layout {
        begin: span.begin,
        length: span.length,
        index,
    }))
}
