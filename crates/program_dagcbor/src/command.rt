//! The words of the command line, and the program's answers.

ghost use Rattle.std.specs.Prelude.{◌≡◌, ◌≢◌, ◌⊎◌, map, string_bytes, IfSome, MatchOption};
ghost use Rattle.std.specs.Prelude.{MatchResult};
ghost use Rattle.program_dagcbor.specs.Answers.{AnswersAll, AnswersSome};
ghost use Rattle.program_dagcbor.specs.Commands.{command_name, IsCommand};
ghost use Rattle.program_shared.specs.declared.fault.ToolError.{ToolError};

use crate::run::run_lines;
use program_shared::{ToolError, give_up};
use std::alloc::Global;
use std::io::{BufRead, Write};

/// The error text for wrong words.
pub const USAGE: &str = "usage: dagcbor check|links\n";

/// The error line if memory runs out.
pub const OUT_OF_MEMORY: &str = "dagcbor: out of memory\n";

/// What the program can do with each line.
#[derive(Clone, Copy, Debug, PartialEq, Eq)]
pub enum Command {
    /// To say whether it is a DAG-CBOR block, and of which kind.
    Check,
    /// To list the links of the item at its start.
    Links,
}

/// Returns the command with this name.
fn command_named(name: &str) -> Option<Command>
    ensures { MatchOption result ((c : Command) → name.now ≢ command_name c)
        (λ c. name.now ≡ command_name c) }
{
    match name {
        "check" => Some(Command::Check),
        "links" => Some(Command::Links),
        _ => None,
    }
}

/// Returns the command that the words name, if there is one word.
fn command_of(args: &[String]) -> Option<Command>
    ensures { MatchOption result ((c : Command) → ¬ IsCommand (map string_bytes args.now) c)
        (λ c. IsCommand (map string_bytes args.now) c) }
{
    match args {
        [word] => command_named(word.as_str()),
        _ => None,
    }
}

/// Returns the exit status of a run, and writes its fault, if any, to `errors`.
fn status_of<V: Write>(ended: Result<(), ToolError>, errors: &mut V) -> u8
    ensures { MatchResult ended (λ _. (result ≡ 0) × (errors.new ≡ errors.old)) (λ _. result ≡ 1) }
{
    match ended {
        Ok(()) => 0,
        Err(ToolError::Input) => give_up(errors, "dagcbor: input failed\n", 1),
        Err(ToolError::Output) => give_up(errors, "dagcbor: output failed\n", 1),
        Err(ToolError::OutOfMemory) => give_up(errors, OUT_OF_MEMORY, 1),
    }
}

/// Runs the command that the words name. Returns the exit status.
pub fn run_command<R: BufRead, W: Write, V: Write>(
    alloc: Global,
    args: &[String],
    input: &mut R,
    output: &mut W,
    errors: &mut V,
) -> u8
    ensures usage { ((c : Command) → ¬ IsCommand (map string_bytes args.now) c)
        → (result ≡ 2) × (input.new ≡ input.old) × (output.new ≡ output.old) }
    ensures command { (c : Command) → IsCommand (map string_bytes args.now) c
        → (result ≡ 0) ⊎ (result ≡ 1) }
    ensures answered { (c : Command) → IsCommand (map string_bytes args.now) c → result ≡ 0
        → IfSome (R.remaining input.old) (λ bytes.
        AnswersAll c bytes (R.remaining input.new)
        (W.contents output.old) (W.contents output.new)) }
    ensures quiet { result ≡ 0 → errors.new ≡ errors.old }
    ensures broken { (c : Command) → IsCommand (map string_bytes args.now) c → result ≡ 1
        → IfSome (R.remaining input.old) (λ bytes.
        (e : ToolError) × AnswersSome c e bytes (R.remaining input.new)
        (W.contents output.old) (W.contents output.new)) }
{
    let Some(command) = command_of(args) else {
        return give_up(errors, USAGE, 2);
    };
    let ended = run_lines(alloc, command, input, output);
    status_of(ended, errors)
}
