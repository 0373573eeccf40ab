//! The words that ask for an index, or for a block by one, and the exit status.

ghost use Rattle.std.specs.Prelude.{◌≡◌, ◌≢◌, [], ◌∷◌, map, string_bytes, IfSome, MatchOption, Result, Bool, Option, List, ℕ};
ghost use Rattle.program_parts.specs.Lines.{SaysBoth};
ghost use Rattle.program_dagcar.specs.Answers.{EndsSo};
ghost use Rattle.program_dagcar.specs.Commands.{IsCommand};
ghost use Rattle.program_dagcar.specs.declared.command.Command.TheVariants.{Get};
ghost use Rattle.program_shared.specs.declared.fault.ToolError.{ToolError};
ghost use Rattle.ipld_tree.specs.Cid.{CidParts};
ghost use Rattle.program_index.specs.Indexed.{IsIndexed, SaysSome};
ghost use Rattle.program_dagcar_files.specs.Gets.{IsGotNamed};
ghost use Rattle.program_dagcar_files.specs.Words.{IsIndex};

use crate::get::get_named;
use files_index::ReadAt;
use ipld_tree::Cid;
use program_dagcar::status_of;
use program_index::write_index;
use std::alloc::Global;
use std::io::Write;
use text_cid::cid_from_text;

/// Returns the file after the word, if that is `index`, and the file is not standard input.
fn file_after<'a>(word: &str, file: &'a str) -> Option<&'a str>
    ensures { MatchOption result ((f : List ℕ) → ¬ IsIndex (word.now ∷ file.now ∷ []) f)
        (λ f. IsIndex (word.now ∷ file.now ∷ []) f.now) }
{
    if word != "index" || file == "-" {
        return None;
    }
    Some(file)
}

/// Returns the file that the words `index FILE` name. These words are no other command:
/// `laws::index_is_no_command`.
pub fn index_of(args: &[String]) -> Option<&str>
    ensures { MatchOption result ((f : List ℕ) → ¬ IsIndex (map string_bytes args.now) f)
        (λ f. IsIndex (map string_bytes args.now) f.now) }
{
    match args {
        [word, file] => file_after(word.as_str(), file.as_str()),
        _ => None,
    }
}

/// Returns the CID in the text, if the word is `get`.
fn name_after(word: &str, text: &str) -> Option<Cid>
    ensures { MatchOption result
        ((n : CidParts) → ¬ IsCommand (word.now ∷ text.now ∷ []) (Get n))
        (λ n. IsCommand (word.now ∷ text.now ∷ []) (Get n)) }
{
    if word != "get" {
        return None;
    }
    cid_from_text(text.as_bytes()).ok()
}

/// Returns the CID that the words `get CID` ask for.
pub fn name_of(args: &[String]) -> Option<Cid>
    ensures { MatchOption result ((n : CidParts) → ¬ IsCommand (map string_bytes args.now) (Get n))
        (λ n. IsCommand (map string_bytes args.now) (Get n)) }
{
    match args {
        [word, text] => name_after(word.as_str(), text.as_str()),
        _ => None,
    }
}

/// Writes the file with an index of its sections. Returns the exit status.
pub fn run_index<S: ReadAt, W: Write, V: Write>(
    alloc: Global,
    source: &S,
    output: &mut W,
    errors: &mut V,
) -> u8
    ensures { IfSome (S.bytes source.now) (λ b. (ended : Result Bool ToolError)
        × (after : Option (List ℕ)) × EndsSo ended result
        × SaysSome (IsIndexed b) (W.contents output.old) (V.contents errors.old) ended
        (W.contents output.new) after × (result ≢ 2 → V.contents errors.new ≡ after)) }
{
    let ended = write_index(alloc, source, output, errors);
    status_of(ended, errors)
}

/// Writes the block with this CID. Returns the exit status.
pub fn run_get<S: ReadAt, W: Write, V: Write>(
    alloc: Global,
    name: &Cid,
    source: &S,
    output: &mut W,
    errors: &mut V,
) -> u8
    ensures { IfSome (S.bytes source.now) (λ b. (ended : Result Bool ToolError)
        × (after : Option (List ℕ)) × EndsSo ended result
        × SaysBoth (IsGotNamed name.now b) (W.contents output.old) (V.contents errors.old) ended
        (W.contents output.new) after × (result ≢ 2 → V.contents errors.new ≡ after)) }
{
    let ended = get_named(alloc, name, source, output, errors);
    status_of(ended, errors)
}
