//! Copies bytes of a random-access source.

ghost use Rattle.std.specs.Prelude.{◌+◌, ◌≤◌, ◌++◌, take, drop, length, IfSome};
ghost use Rattle.program_shared.specs.Writing.{WritesFront};

use files_index::{ReadAt, fill};
use program_shared::{ToolError, write_all};
use std::io::Write;

/// The most bytes copied at once.
const PIECE: usize = 4096;

/// Writes `count` bytes of the source from `place` on. An input error if they are not all there.
#[tactic(auto, using(crate::proofs::Sending::front_none))]
fn copy_piece<S: ReadAt, W: Write>(
    source: &S,
    place: u64,
    count: usize,
    output: &mut W,
) -> Result<(), ToolError>
    requires { count ≤ 4096 }
    ensures { IfSome (S.bytes source.now) (λ b. WritesFront (W.contents output.old)
        (W.contents output.new) result (take count (drop place b))) }
{
    let mut room = [0; PIECE];
    let piece = &mut room[..count];
    match fill(source, place, piece) {
        Ok(full) => {
            if full {
                return write_all(output, piece);
            }
            Err(ToolError::Input)
        }
        Err(_) => Err(ToolError::Input),
    }
}

/// Writes `count` bytes of the source from `begin` on. An input error if they are not all there.
fn copy_from<S: ReadAt, W: Write>(
    source: &S,
    begin: u64,
    count: u64,
    output: &mut W,
) -> Result<(), ToolError>
    ensures { IfSome (S.bytes source.now) (λ b. WritesFront (W.contents output.old)
        (W.contents output.new) result (take count (drop begin b))) }
{
    if begin.checked_add(count).is_none() {
        return Err(ToolError::Input);
    }
    let mut done = 0;
    while done < count {
        let length = (count - done).min(PIECE as u64);
        copy_piece(source, begin + done, length as usize, output)?;
        done += length;
    }
    Ok(())
}

/// Writes `count` bytes of the source from `begin` on, and then `following`.
fn send_rest<S: ReadAt, W: Write>(
    source: &S,
    begin: u64,
    count: u64,
    following: &[u8],
    output: &mut W,
) -> Result<(), ToolError>
    ensures { IfSome (S.bytes source.now) (λ b. WritesFront (W.contents output.old)
        (W.contents output.new) result (take count (drop begin b) ++ following.now)) }
{
    copy_from(source, begin, count, output)?;
    write_all(output, following)
}

/// Writes `before`, `count` bytes of the source from `begin` on, and then `following`.
pub(crate) fn send_between<S: ReadAt, W: Write>(
    before: &[u8],
    source: &S,
    begin: u64,
    count: u64,
    following: &[u8],
    output: &mut W,
) -> Result<(), ToolError>
    ensures { IfSome (S.bytes source.now) (λ b. WritesFront (W.contents output.old)
        (W.contents output.new) result
        (before.now ++ (take count (drop begin b) ++ following.now))) }
{
    write_all(output, before)?;
    send_rest(source, begin, count, following, output)
}
