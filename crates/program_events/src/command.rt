//! `event`: a line for each frame of a stream, in order.

ghost use Rattle.std.specs.Prelude.{◌≡◌, ◌≢◌, IfSome, Result, Bool, Option, List, ℕ};
ghost use Rattle.program_parts.specs.Lines.{SaysBoth};
ghost use Rattle.program_dagcar.specs.Answers.{EndsSo};
ghost use Rattle.program_shared.specs.declared.fault.ToolError.{ToolError};
ghost use Rattle.program_events.specs.Streams.{AreEventsSaid};

use crate::stream::events_said;
use program_dagcar::{Answering, say_answer, status_of};
use program_parts::Answer;
use program_shared::ToolError;
use std::alloc::Global;
use std::io::{BufRead, Write};

/// Answers an input of frames.
#[derive(Clone, Copy)]
struct Telling;

impl Answering for Telling {
    ghost is_said = { AreEventsSaid };

    fn answer(alloc: Global, bytes: &[u8]) -> Result<Answer, ToolError> {
        Ok(events_said(alloc, bytes)?)
    }
}

/// Writes what the frames of the input say, in order, and returns the exit status. The input is
/// read whole, and the output is complete in memory before any of it is written.
pub fn run_events<R: BufRead, W: Write, V: Write>(
    alloc: Global,
    input: &mut R,
    output: &mut W,
    errors: &mut V,
) -> u8
    ensures { IfSome (R.remaining input.old) (λ b. (ended : Result Bool ToolError)
        × (after : Option (List ℕ)) × EndsSo ended result
        × SaysBoth (AreEventsSaid b) (W.contents output.old) (V.contents errors.old) ended
        (W.contents output.new) after × (result ≢ 2 → V.contents errors.new ≡ after)) }
{
    let ended = say_answer::<Telling, R, W, V>(alloc, input, output, errors);
    status_of(ended, errors)
}
