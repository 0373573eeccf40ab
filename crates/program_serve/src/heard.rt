//! Requests to the store, as they come in.

ghost use Rattle.std.specs.Prelude.{◌≡◌, ◌≢◌, ◌<◌, ◌≤◌, ◌++◌, ◌∷◌, [], ℕ, List, length, IfOk, IfErr, OnOk, MatchOption};
ghost use Rattle.program_shared.specs.declared.fault.ToolError.TheVariants.{Output};
ghost use Rattle.program_serve.specs.Serving.{IsReadTo, IsPieceRead, IsBlockRead, HearsAsked, Hears};

use crate::asked::{Asked, Request, asked_of};
use program_shared::ToolError;
use std::alloc::{AllocError, Global};
use std::io::{BufRead, Error, ErrorKind};

/// Why no more requests are answered here: the input ended, a line is bad, or the caller must go
/// on.
#[derive(Debug, Drop)]
pub enum Pause {
    /// The input ended after a whole request.
    End,
    /// The input ended within a request.
    Cut,
    /// A line is not a request.
    Bad,
    /// The caller must store the blocks of the CAR file at the path.
    Import(String),
    /// The caller must write a CAR file of all blocks at the path.
    Export(String),
}

/// What was read: a request, or why there is none.
#[derive(Debug, Drop)]
pub enum Heard {
    Request(Request),
    Pause(Pause),
}

/// Converts the error of an input that was not read.
fn fault_of(error: &Error) -> ToolError
    ensures { result ≢ Output }
{
    match error.kind() {
        ErrorKind::OutOfMemory => ToolError::OutOfMemory,
        _ => ToolError::Input,
    }
}

/// Reads up to and including the first line feed, or to the end.
fn read_line<R: BufRead>(requests: &mut R, line: &mut Vec<u8>) -> Result<(), ToolError>
    ensures read { OnOk result (IsReadTo line.new.items (R.remaining requests.old)
        (R.remaining requests.new)) }
    ensures inner { IfErr result (λ e. e ≢ Output) }
{
    line.clear();
    match requests.read_until(b'\n', line) {
        Ok(_) => Ok(()),
        Err(error) => Err(fault_of(&error)),
    }
}

/// Returns the line before the line feed at its end, if there is one.
fn without_feed(bytes: &[u8]) -> Option<&[u8]>
    ensures { MatchOption result ((line : List ℕ) → bytes.now ≢ line ++ 10 ∷ [])
        (λ line. bytes.now ≡ line.now ++ 10 ∷ []) }
{
    match bytes {
        [line @ .., b'\n'] => Some(line),
        _ => None,
    }
}

/// Appends what the input shows next, at most `most` bytes. Returns how many; 0 only at the end.
fn read_piece<R: BufRead>(
    requests: &mut R,
    most: usize,
    block: &mut Vec<u8>,
) -> Result<usize, ToolError>
    requires { 0 < most }
    ensures read { IfOk result (λ n. (n ≤ most) × IsPieceRead n block.old.items block.new.items
        (R.remaining requests.old) (R.remaining requests.new)) }
    ensures inner { IfErr result (λ e. e ≢ Output) }
{
    let Ok(shown) = requests.fill_buf() else {
        return Err(ToolError::Input);
    };
    let count = if shown.len() < most {
        shown.len()
    } else {
        most
    };
    block.extend_from_slice(&shown[..count])?;
    requests.consume(count);
    Ok(count)
}

/// Reads a block of `length` bytes, piece by piece. Returns whether all of them were there.
fn read_block<R: BufRead>(
    requests: &mut R,
    length: usize,
    block: &mut Vec<u8>,
) -> Result<bool, ToolError>
    ensures read { IfOk result (λ whole. IsBlockRead whole length block.new.items
        (R.remaining requests.old) (R.remaining requests.new)) }
    ensures inner { IfErr result (λ e. e ≢ Output) }
{
    block.clear();
    let mut left = length;
    while left > 0 {
        let count = read_piece(requests, left, block)?;
        if count == 0 {
            return Ok(false);
        }
        left -= count;
    }
    Ok(true)
}

/// Takes what the line asks for. If the request has a block, it reads the block too.
fn hear_asked<R: BufRead>(
    alloc: Global,
    asked: &Asked<'_>,
    requests: &mut R,
    block: &mut Vec<u8>,
) -> Result<Heard, ToolError>
    ensures heard { IfOk result (λ heard. HearsAsked asked.now heard block.new.items
        (R.remaining requests.old) (R.remaining requests.new)) }
    ensures inner { IfErr result (λ e. e ≢ Output) }
{
    match asked {
        Asked::Do(request) => {
            let whole = read_block(requests, request.wanted() as usize, block)?;
            if whole {
                Ok(Heard::Request(*request))
            } else {
                Ok(Heard::Pause(Pause::Cut))
            }
        }
        Asked::Import(path) => {
            let path = String::from_str(alloc, path)?;
            Ok(Heard::Pause(Pause::Import(path)))
        }
        Asked::Export(path) => {
            let path = String::from_str(alloc, path)?;
            Ok(Heard::Pause(Pause::Export(path)))
        }
    }
}

/// Reads the next request, with its block, or why there is none. `line` is a buffer for what is
/// read.
pub fn hear<R: BufRead>(
    alloc: Global,
    requests: &mut R,
    line: &mut Vec<u8>,
    block: &mut Vec<u8>,
) -> Result<Heard, ToolError>
    ensures heard { IfOk result (λ heard. Hears heard block.new.items (R.remaining requests.old)
        (R.remaining requests.new)) }
    ensures inner { IfErr result (λ e. e ≢ Output) }
{
    read_line(requests, line)?;
    if line.is_empty() {
        return Ok(Heard::Pause(Pause::End));
    }
    let Some(text) = without_feed(line) else {
        return Ok(Heard::Pause(Pause::Cut));
    };
    let Some(asked) = asked_of(text) else {
        return Ok(Heard::Pause(Pause::Bad));
    };
    hear_asked(alloc, &asked, requests, block)
}
