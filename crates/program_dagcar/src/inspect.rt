//! `inspect`: what a CAR file holds, in numbers.

ghost use Rattle.std.specs.Prelude.{◌≡◌, ◌≢◌, IfSome, Result, Bool, Option, List, ℕ};
ghost use Rattle.program_parts.specs.Lines.{SaysBoth};
ghost use Rattle.program_dagcar.specs.Answers.{EndsSo};
ghost use Rattle.program_shared.specs.declared.fault.ToolError.{ToolError};
ghost use Rattle.program_inspect.specs.Inspecting.{IsInspected};

use crate::command::status_of;
use program_inspect::{Form, Index, write_inspected};
use std::alloc::Global;
use std::io::{BufRead, Write};

/// Writes what the input's CAR file holds, and `index` if the file says that it has an index.
/// Returns the exit status.
pub fn run_inspect<R: BufRead, W: Write, V: Write>(
    alloc: Global,
    form: Form,
    index: Index,
    input: &mut R,
    output: &mut W,
    errors: &mut V,
) -> u8
    ensures { IfSome (R.remaining input.old) (λ b. (ended : Result Bool ToolError)
        × (after : Option (List ℕ)) × EndsSo ended result
        × SaysBoth (IsInspected form index b) (W.contents output.old) (V.contents errors.old) ended
        (W.contents output.new) after × (result ≢ 2 → V.contents errors.new ≡ after)) }
{
    let ended = write_inspected(alloc, form, index, input, output, errors);
    status_of(ended, errors)
}
