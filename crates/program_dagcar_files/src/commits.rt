//! A repository's commit, and all its records, with the exit status.

ghost use Rattle.std.specs.Prelude.{◌≡◌, ◌≢◌, IfSome, Result, Bool, Option, List, ℕ};
ghost use Rattle.program_parts.specs.Lines.{SaysBoth};
ghost use Rattle.program_dagcar.specs.Answers.{EndsSo};
ghost use Rattle.program_shared.specs.declared.fault.ToolError.{ToolError};
ghost use Rattle.program_records.specs.Commits.{OfFile, IsCommitSaid};
ghost use Rattle.program_records.specs.Proofs.{IsProofOf};
ghost use Rattle.program_records.specs.Json.{IsRecordsJson};

use program_dagcar::status_of;
use program_records::{write_commit, write_record_proof, write_records_json};
use std::alloc::Global;
use std::io::{BufRead, Write};

/// Writes what the commit of the input's repository says. Returns the exit status.
pub fn run_commit<R: BufRead, W: Write, V: Write>(
    alloc: Global,
    input: &mut R,
    output: &mut W,
    errors: &mut V,
) -> u8
    ensures { IfSome (R.remaining input.old) (λ b. (ended : Result Bool ToolError)
        × (after : Option (List ℕ)) × EndsSo ended result
        × SaysBoth (OfFile IsCommitSaid b) (W.contents output.old) (V.contents errors.old) ended
        (W.contents output.new) after × (result ≢ 2 → V.contents errors.new ≡ after)) }
{
    let ended = write_commit(alloc, input, output, errors);
    status_of(ended, errors)
}

/// Writes the CAR file that proves the record with the key in the word. Returns the exit status.
pub fn run_record_proof<R: BufRead, W: Write, V: Write>(
    alloc: Global,
    word: &str,
    input: &mut R,
    output: &mut W,
    errors: &mut V,
) -> u8
    ensures { IfSome (R.remaining input.old) (λ b. (ended : Result Bool ToolError)
        × (after : Option (List ℕ)) × EndsSo ended result
        × SaysBoth (OfFile (IsProofOf word.now) b) (W.contents output.old) (V.contents errors.old)
        ended (W.contents output.new) after × (result ≢ 2 → V.contents errors.new ≡ after)) }
{
    let ended = write_record_proof(alloc, word, input, output, errors);
    status_of(ended, errors)
}

/// Writes each record of the input's repository as DAG-JSON. Returns the exit status.
pub fn run_records_json<R: BufRead, W: Write, V: Write>(
    alloc: Global,
    input: &mut R,
    output: &mut W,
    errors: &mut V,
) -> u8
    ensures { IfSome (R.remaining input.old) (λ b. (ended : Result Bool ToolError)
        × (after : Option (List ℕ)) × EndsSo ended result
        × SaysBoth (IsRecordsJson b) (W.contents output.old) (V.contents errors.old) ended
        (W.contents output.new) after × (result ≢ 2 → V.contents errors.new ≡ after)) }
{
    let ended = write_records_json(alloc, input, output, errors);
    status_of(ended, errors)
}
