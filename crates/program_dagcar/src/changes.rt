//! `changes OLD NEW`: what differs between two files.

ghost use Rattle.std.specs.Prelude.{◌≡◌, ◌≢◌, [], ◌∷◌, map, string_bytes, IfSome, MatchOption, Result, Bool, Option, List, ℕ};
ghost use Rattle.program_parts.specs.Lines.{SaysBoth};
ghost use Rattle.program_dagcar.specs.Answers.{EndsSo};
ghost use Rattle.program_dagcar.specs.Commands.{IsChanges};
ghost use Rattle.program_shared.specs.declared.fault.ToolError.{ToolError};
ghost use Rattle.program_records.specs.Differing.{IsChangesOf};

use crate::command::status_of;
use program_records::write_changes;
use std::alloc::Global;
use std::io::{BufRead, Write};

/// Returns the two files if the word is `changes` and at most one of them is standard input.
fn files_after<'a>(word: &str, old: &'a str, new: &'a str) -> Option<(&'a str, &'a str)>
    ensures { MatchOption result
        ((before after : List ℕ) → ¬ IsChanges (word.now ∷ old.now ∷ new.now ∷ []) before after)
        (λ p. IsChanges (word.now ∷ old.now ∷ new.now ∷ []) p.0.now p.1.now) }
{
    if word != "changes" || (old == "-" && new == "-") {
        return None;
    }
    Some((old, new))
}

/// Returns the two files that the words `changes OLD NEW` name. At most one of them can be standard
/// input, `-`. `run_command` accepts no such words: `laws::changes_are_no_command`.
pub fn changes_of(args: &[String]) -> Option<(&str, &str)>
    ensures { MatchOption result
        ((old new : List ℕ) → ¬ IsChanges (map string_bytes args.now) old new)
        (λ p. IsChanges (map string_bytes args.now) p.0.now p.1.now) }
{
    match args {
        [word, old, new] => files_after(word.as_str(), old.as_str(), new.as_str()),
        _ => None,
    }
}

/// Writes the differences between the CAR files of the two inputs. Returns the exit status.
pub fn run_changes<R: BufRead, S: BufRead, W: Write, V: Write>(
    alloc: Global,
    old: &mut R,
    new: &mut S,
    output: &mut W,
    errors: &mut V,
) -> u8
    ensures { IfSome (R.remaining old.old) (λ b. IfSome (S.remaining new.old) (λ c.
        (ended : Result Bool ToolError) × (after : Option (List ℕ)) × EndsSo ended result
        × SaysBoth (IsChangesOf b c) (W.contents output.old) (V.contents errors.old) ended
        (W.contents output.new) after × (result ≢ 2 → V.contents errors.new ≡ after))) }
{
    let ended = write_changes(alloc, old, new, output, errors);
    status_of(ended, errors)
}
