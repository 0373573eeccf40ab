//! Reading data from a text of JSON.

ghost use Rattle.std.specs.Prelude.{◌≡◌, ◌≢◌, ◌≤◌, length, Ok, Err, IfOk, IfErr, IsUtf8, if◌then◌else◌};
ghost use Rattle.std.specs.Str.Lossy.{utf8_valid_len};
ghost use Rattle.json.specs.Lex.{tokens};
ghost use Rattle.json.specs.Value.{value_view};
ghost use Rattle.ipld_tree.specs.Ipld.{tree_of};
ghost use Rattle.text_dag_json.specs.Reading.{document_of, most_levels, opens_past, ReadsWhole};
ghost use Rattle.text_dag_json.specs.Reading.{ReadsTokens, ReadsJson};

use crate::error::{DagJsonError, Refusal};
use crate::place::{offset_after, offset_inside};
use crate::read::data_of;
use ipld_tree::Ipld;
use json::{Error, Reader, Scratch, Token, Value};
use simdutf8::compat::from_utf8;
use std::alloc::{AllocError, Global};

/// The most levels to which JSON nests: 127 lists around bytes.
const MOST_LEVELS: usize = 129;

/// The steps of an untyped read.
const MOST_STEPS: u64 = 256;

/// Returns a refusal at this offset in the text, or out of memory if the offset was not found. No
/// contract bounds the offset of a reader, so it is limited to the length of the text.
fn refusal(text: &str, cause: DagJsonError, offset: Result<usize, AllocError>) -> Refusal
    ensures cause { result.cause ≢ DagJsonError.OutOfMemory → result.cause ≡ cause }
    ensures place { result.offset ≤ length text.now }
{
    match offset {
        Ok(offset) => Refusal {
            cause,
            offset: offset.min(text.len()),
        },
        Err(_) => out_of_memory(),
    }
}

fn out_of_memory() -> Refusal
    ensures cause { result.cause ≡ DagJsonError.OutOfMemory }
    ensures place { result.offset ≡ 0 }
{
    Refusal {
        cause: DagJsonError::OutOfMemory,
        offset: 0,
    }
}

/// Returns whether more than 129 lists and maps are open at once.
fn is_too_deep(alloc: Global, text: &str) -> Result<bool, AllocError>
    ensures { IfOk result (λ b. b ≡ opens_past most_levels (tokens text.now)) }
{
    let mut scratch = Scratch::new(alloc);
    let mut reader = Reader::new(text, &mut scratch)?;
    let mut levels = MOST_LEVELS;
    loop {
        match reader.next() {
            None => return Ok(false),
            Some(Token::BeginObject | Token::BeginArray) => {
                if levels == 0 {
                    return Ok(true);
                }
                levels -= 1;
            }
            Some(Token::EndObject | Token::EndArray) => {
                if levels == MOST_LEVELS {
                    return Ok(false);
                }
                levels += 1;
            }
            Some(_) => {}
        }
    }
}

/// Returns why the text is not one JSON value within the levels. `stopped` is the offset at which
/// the reader stopped.
fn no_document(alloc: Global, text: &str, stopped: usize) -> Refusal
    ensures place { result.offset ≤ length text.now }
    ensures cause { result.cause ≢ DagJsonError.OutOfMemory
        → result.cause ≡ (if opens_past most_levels (tokens text.now) then DagJsonError.TooDeep
        else DagJsonError.NoJson) }
{
    match is_too_deep(alloc, text) {
        Ok(true) => refusal(text, DagJsonError::TooDeep, offset_inside(alloc, text)),
        Ok(false) => refusal(text, DagJsonError::NoJson, Ok(stopped)),
        Err(_) => out_of_memory(),
    }
}

/// Reads the one JSON value of the text.
fn document<'a>(
    alloc: Global,
    text: &'a str,
    scratch: &'a mut Scratch,
) -> Result<Value<'a>, Refusal>
    ensures value { IfOk result (λ v. document_of (tokens text.now) ≡ Ok (value_view v)) }
    ensures refused { IfErr result (λ e. e.cause ≢ DagJsonError.OutOfMemory
        → document_of (tokens text.now) ≡ Err e.cause) }
    ensures place { IfErr result (λ e. e.offset ≤ length text.now) }
{
    let Ok(mut reader) = Reader::new(text, scratch) else {
        return Err(out_of_memory());
    };
    match Value::read(alloc, &mut reader, MOST_LEVELS) {
        Ok(value) => {
            let offset = reader.offset();
            match reader.next() {
                Some(_) => Err(refusal(text, DagJsonError::TrailingData, Ok(offset))),
                None => Ok(value),
            }
        }
        Err(Error::OutOfMemory) => Err(out_of_memory()),
        Err(_) => Err(no_document(alloc, text, reader.offset())),
    }
}

/// Returns the data that the JSON value means.
fn whole_data(alloc: Global, text: &str, value: &Value<'_>) -> Result<Ipld, Refusal>
    ensures data { IfOk result
        (λ v. ReadsWhole (value_view value.now) (Ok (tree_of v))) }
    ensures refused { IfErr result (λ e. e.cause ≢ DagJsonError.OutOfMemory
        → ReadsWhole (value_view value.now) (Err e.cause)) }
    ensures place { IfErr result (λ e. e.offset ≤ length text.now) }
{
    let mut place = 0;
    match data_of(alloc, value, &mut place) {
        Ok(data) if data.depth_need() <= MOST_STEPS => Ok(data),
        Ok(_) => Err(refusal(text, DagJsonError::TooDeep, offset_inside(alloc, text))),
        Err(cause) => Err(refusal(text, cause, offset_after(alloc, text, place))),
    }
}

/// Reads the data that the text spells.
fn data_from_text(alloc: Global, text: &str) -> Result<Ipld, Refusal>
    ensures data { IfOk result (λ v. ReadsTokens (tokens text.now) (Ok (tree_of v))) }
    ensures refused { IfErr result (λ e. e.cause ≢ DagJsonError.OutOfMemory
        → ReadsTokens (tokens text.now) (Err e.cause)) }
    ensures place { IfErr result (λ e. e.offset ≤ length text.now) }
{
    let mut scratch = Scratch::new(alloc);
    let value = document(alloc, text, &mut scratch)?;
    whole_data(alloc, text, &value)
}

/// Reads the data that the text spells in DAG-JSON. The contract gives the offset of a refusal only
/// for a text that is not UTF-8: that of the first invalid byte.
pub fn data_from_json(alloc: Global, text: &[u8]) -> Result<Ipld, Refusal>
    ensures data { IfOk result (λ v. ReadsJson text.now (Ok (tree_of v))) }
    ensures refused { IfErr result (λ e. e.cause ≢ DagJsonError.OutOfMemory
        → ReadsJson text.now (Err e.cause)) }
    ensures memory { IfErr result (λ e. e.cause ≡ DagJsonError.OutOfMemory → IsUtf8 text.now) }
    ensures place { IfErr result (λ e. e.offset ≤ length text.now) }
    ensures no_text { IfErr result
        (λ e. ¬ IsUtf8 text.now → e.offset ≡ utf8_valid_len text.now) }
{
    match from_utf8(text) {
        Ok(text) => data_from_text(alloc, text),
        Err(fault) => Err(Refusal {
            cause: DagJsonError::NoText,
            offset: fault.valid_up_to(),
        }),
    }
}
