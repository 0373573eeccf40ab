//! What a command says of the whole input, on the output and on the error output.

ghost use Rattle.std.specs.Prelude.{◌≡◌, Bool, List, ℕ, IfOk, IfSome};
ghost use Rattle.program_parts.specs.Lines.{SaysBoth};

use program_parts::{Answer, say_both};
use program_shared::ToolError;
use std::alloc::Global;
use std::io::{BufRead, ErrorKind, Write};

/// A command on bytes as a whole.
pub trait Answering {
    /// The output, the error output, and whether all is well, for these bytes.
    ghost is_said: { List ℕ → Bool → List ℕ → List ℕ → Type 0 };

    fn answer(alloc: Global, bytes: &[u8]) -> Result<Answer, ToolError>
        ensures { IfOk result (λ p. Self.is_said bytes.now p.0.1 p.0.0.items p.1.items) };
}

/// Reads all bytes of the input.
fn read_all<R: BufRead>(alloc: Global, input: &mut R) -> Result<Vec<u8>, ToolError>
    ensures { IfSome (R.remaining input.old) (λ b. IfOk result (λ v. v.items ≡ b)) }
{
    let mut bytes = Vec::new(alloc);
    match input.read_to_end(&mut bytes) {
        Ok(_count) => Ok(bytes),
        Err(e) if e.kind() == ErrorKind::OutOfMemory => Err(ToolError::OutOfMemory),
        Err(_) => Err(ToolError::Input),
    }
}

/// Writes the command's answer for the bytes of the input. Returns whether all is well.
pub fn say_answer<A: Answering, R: BufRead, W: Write, V: Write>(
    alloc: Global,
    input: &mut R,
    output: &mut W,
    errors: &mut V,
) -> Result<bool, ToolError>
    ensures { IfSome (R.remaining input.old) (λ b.
        SaysBoth (A.is_said b) (W.contents output.old) (V.contents errors.old) result
        (W.contents output.new) (V.contents errors.new)) }
{
    let bytes = read_all(alloc, input)?;
    let (said, told) = A::answer(alloc, &bytes)?;
    say_both(said, &told, output, errors)
}
