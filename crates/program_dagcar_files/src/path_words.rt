//! The words that ask what a path leads to, and the exit status.

ghost use Rattle.std.specs.Prelude.{◌≡◌, ◌≢◌, [], ◌∷◌, map, string_bytes, IfSome, MatchOption, Result, Bool, Option, List, ℕ};
ghost use Rattle.text_cid.specs.Texts.{IsTextOf};
ghost use Rattle.ipld_paths.specs.Paths.{segments};
ghost use Rattle.program_parts.specs.Lines.{SaysBoth};
ghost use Rattle.program_dagcar.specs.Answers.{EndsSo};
ghost use Rattle.program_dagcar.specs.Commands.{IsCommand, text_of};
ghost use Rattle.program_parts.specs.Paths.{name_part, path_part};
ghost use Rattle.program_parts.specs.declared.at.Asked.{Asked};
ghost use Rattle.program_shared.specs.declared.fault.ToolError.{ToolError};
ghost use Rattle.ipld_tree.specs.Cid.{CidParts};
ghost use Rattle.program_dagcar_files.specs.PathAnswers.{asking, IsAnswerNamed};

use crate::at::write_asked_named;
use files_index::ReadAt;
use ipld_tree::Cid;
use program_dagcar::status_of;
use program_parts::{Asked, split_path};
use std::alloc::Global;
use std::io::Write;
use text_cid::cid_from_text;

/// What is asked about a root, and the text with the path after it.
#[derive(Clone, Copy)]
pub struct PathWords<'a> {
    pub asked: Asked,
    pub root: Cid,
    pub text: &'a str,
}

/// Returns what is asked about the root in the text.
fn asked_on<'a>(asked: Asked, text: &'a str) -> Option<PathWords<'a>>
    ensures { MatchOption result ((n : CidParts) → ¬ IsTextOf (name_part text.now) n)
        (λ it. (it.asked ≡ asked) × IsTextOf (name_part text.now) it.root
        × (it.text.now ≡ text.now)) }
{
    let (name, _path) = split_path(text);
    let root = cid_from_text(name.as_bytes()).ok()?;
    Some(PathWords { asked, root, text })
}

/// Returns what the word asks about the text after it.
fn of_two<'a>(word: &str, text: &'a str) -> Option<PathWords<'a>>
    ensures { MatchOption result ((asked : Asked) (n : CidParts)
        → ¬ IsCommand (word.now ∷ text.now ∷ []) (asking asked n))
        (λ it. IsCommand (word.now ∷ text.now ∷ []) (asking it.asked it.root)
        × (it.text.now ≡ text.now)) }
{
    match word {
        "at" => asked_on(Asked::Data, text),
        "prove" => asked_on(Asked::Proof, text),
        _ => None,
    }
}

/// Returns what the word asks about the text after it, with this option.
fn of_three<'a>(word: &str, option: &str, text: &'a str) -> Option<PathWords<'a>>
    ensures { MatchOption result ((asked : Asked) (n : CidParts)
        → ¬ IsCommand (word.now ∷ option.now ∷ text.now ∷ []) (asking asked n))
        (λ it. IsCommand (word.now ∷ option.now ∷ text.now ∷ []) (asking it.asked it.root)
        × (it.text.now ≡ text.now)) }
{
    if word != "at" || option != "--raw" {
        return None;
    }
    asked_on(Asked::Bytes, text)
}

/// Returns what the words `at CID/PATH`, `at --raw CID/PATH` or `prove CID/PATH` ask.
pub fn path_words_of(args: &[String]) -> Option<PathWords<'_>>
    ensures { MatchOption result ((asked : Asked) (n : CidParts)
        → ¬ IsCommand (map string_bytes args.now) (asking asked n))
        (λ it. IsCommand (map string_bytes args.now) (asking it.asked it.root)
        × (it.text.now ≡ text_of (map string_bytes args.now))) }
{
    match args {
        [word, text] => of_two(word.as_str(), text.as_str()),
        [word, option, text] => of_three(word.as_str(), option.as_str(), text.as_str()),
        _ => None,
    }
}

/// Writes the answer for the path in the text, from the root. Returns the exit status.
pub fn run_asked<S: ReadAt, W: Write, V: Write>(
    alloc: Global,
    asked: Asked,
    root: &Cid,
    text: &str,
    source: &S,
    output: &mut W,
    errors: &mut V,
) -> u8
    ensures { IfSome (S.bytes source.now) (λ b. (ended : Result Bool ToolError)
        × (after : Option (List ℕ)) × EndsSo ended result
        × SaysBoth (IsAnswerNamed asked root.now (segments (path_part text.now)) b)
        (W.contents output.old) (V.contents errors.old) ended (W.contents output.new) after
        × (result ≢ 2 → V.contents errors.new ≡ after)) }
{
    let ended = write_asked_named(alloc, asked, root, text, source, output, errors);
    status_of(ended, errors)
}
