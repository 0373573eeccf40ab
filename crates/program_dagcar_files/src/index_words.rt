//! The words that ask about the index of a file, and the exit status.

ghost use Rattle.std.specs.Prelude.{◌≡◌, ◌≢◌, [], ◌∷◌, map, string_bytes, IfSome, MatchBool, MatchOption, Result, Bool, Option, List, ℕ};
ghost use Rattle.program_parts.specs.Lines.{SaysBoth};
ghost use Rattle.program_dagcar.specs.Answers.{EndsSo};
ghost use Rattle.program_dagcar.specs.Commands.{IsCommand};
ghost use Rattle.program_dagcar.specs.declared.command.Command.TheVariants.{Check};
ghost use Rattle.program_shared.specs.declared.fault.ToolError.{ToolError};
ghost use Rattle.program_dagcar_files.specs.Indexes.{AreEntriesSaid, IsIndexJudged, SaysChecked};
ghost use Rattle.program_dagcar_files.specs.Indexes.{IsInspectedHere};
ghost use Rattle.program_dagcar_files.specs.IndexWords.{AreIndexWords};
ghost use Rattle.program_dagcar_files.specs.declared.index_words.IndexAsked.{IndexAsked};

use crate::indexes::{write_checked, write_entries, write_inspected_here, write_judged};
use files_index::ReadAt;
use program_dagcar::status_of;
use program_inspect::Form;
use std::alloc::Global;
use std::io::Write;

/// What is asked about an index.
#[derive(Clone, Copy, Debug, PartialEq, Eq)]
pub enum IndexAsked {
    /// What it holds.
    Entries,
    /// The judgement of it: what is wrong, if anything.
    Judgement,
}

/// What is asked about the index of a file.
#[derive(Clone, Copy)]
pub struct IndexWords<'a> {
    pub asked: IndexAsked,
    pub file: &'a str,
}

/// Returns what these words ask.
fn of_three<'a>(word: &str, option: &str, file: &'a str) -> Option<IndexWords<'a>>
    ensures { MatchOption result
        ((asked : IndexAsked) (f : List ℕ)
        → ¬ AreIndexWords (word.now ∷ option.now ∷ file.now ∷ []) asked f)
        (λ p. AreIndexWords (word.now ∷ option.now ∷ file.now ∷ []) p.asked p.file.now) }
{
    if option != "--index" || file == "-" {
        return None;
    }
    match word {
        "list" => Some(IndexWords {
            asked: IndexAsked::Entries,
            file,
        }),
        "check" => Some(IndexWords {
            asked: IndexAsked::Judgement,
            file,
        }),
        _ => None,
    }
}

/// Returns what the words `list --index FILE` or `check --index FILE` ask.
pub fn index_words_of(args: &[String]) -> Option<IndexWords<'_>>
    ensures { MatchOption result
        ((asked : IndexAsked) (f : List ℕ) → ¬ AreIndexWords (map string_bytes args.now) asked f)
        (λ p. AreIndexWords (map string_bytes args.now) p.asked p.file.now) }
{
    match args {
        [word, option, file] => of_three(word.as_str(), option.as_str(), file.as_str()),
        _ => None,
    }
}

/// Returns whether the word is the command `check`.
fn is_check_word(word: &str) -> bool
    ensures { MatchBool result (IsCommand (word.now ∷ []) Check)
        (¬ IsCommand (word.now ∷ []) Check) }
{
    word == "check"
}

/// Returns whether the words are the command `check`, without an option.
pub fn is_check(args: &[String]) -> bool
    ensures { MatchBool result (IsCommand (map string_bytes args.now) Check)
        (¬ IsCommand (map string_bytes args.now) Check) }
{
    match args {
        [word] => is_check_word(word.as_str()),
        _ => false,
    }
}

/// Writes the entries of the file's index. Returns the exit status.
pub fn run_entries<S: ReadAt, W: Write, V: Write>(
    alloc: Global,
    source: &S,
    output: &mut W,
    errors: &mut V,
) -> u8
    ensures { IfSome (S.bytes source.now) (λ b. (ended : Result Bool ToolError)
        × (after : Option (List ℕ)) × EndsSo ended result
        × SaysBoth (AreEntriesSaid b) (W.contents output.old) (V.contents errors.old) ended
        (W.contents output.new) after × (result ≢ 2 → V.contents errors.new ≡ after)) }
{
    let ended = write_entries(alloc, source, output, errors);
    status_of(ended, errors)
}

/// Writes what is wrong with the file's index. Returns the exit status.
pub fn run_judged<S: ReadAt, W: Write, V: Write>(
    alloc: Global,
    source: &S,
    output: &mut W,
    errors: &mut V,
) -> u8
    ensures { IfSome (S.bytes source.now) (λ b. (ended : Result Bool ToolError)
        × (after : Option (List ℕ)) × EndsSo ended result
        × SaysBoth (IsIndexJudged b) (W.contents output.old) (V.contents errors.old) ended
        (W.contents output.new) after × (result ≢ 2 → V.contents errors.new ≡ after)) }
{
    let ended = write_judged(alloc, source, output, errors);
    status_of(ended, errors)
}

/// Judges the file, and then its index, if it has one. Returns the exit status.
pub fn run_checked<S: ReadAt, W: Write, V: Write>(
    alloc: Global,
    source: &S,
    output: &mut W,
    errors: &mut V,
) -> u8
    ensures { IfSome (S.bytes source.now) (λ b. (ended : Result Bool ToolError)
        × (after : Option (List ℕ)) × EndsSo ended result
        × SaysChecked b (W.contents output.old) (V.contents errors.old) ended
        (W.contents output.new) after × (result ≢ 2 → V.contents errors.new ≡ after)) }
{
    let ended = write_checked(alloc, source, output, errors);
    status_of(ended, errors)
}

/// Writes what the file holds, and whether its index is right. Returns the exit status.
pub fn run_inspected<S: ReadAt, W: Write, V: Write>(
    alloc: Global,
    form: Form,
    source: &S,
    output: &mut W,
    errors: &mut V,
) -> u8
    ensures { IfSome (S.bytes source.now) (λ b. (ended : Result Bool ToolError)
        × (after : Option (List ℕ)) × EndsSo ended result
        × SaysBoth (IsInspectedHere form b) (W.contents output.old) (V.contents errors.old) ended
        (W.contents output.new) after × (result ≢ 2 → V.contents errors.new ≡ after)) }
{
    let ended = write_inspected_here(alloc, form, source, output, errors);
    status_of(ended, errors)
}
