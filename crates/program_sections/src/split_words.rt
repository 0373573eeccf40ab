//! The words of `split`.

ghost use Rattle.std.specs.Prelude.{◌∷◌, [], map, string_bytes, IfOk, MatchOption, List, ℕ};
ghost use Rattle.ipld_tree.specs.Cid.{CidParts};
ghost use Rattle.program_sections.specs.SplitWords.{IsSizeText, AreSizeAndFiles, HasSizeAndFiles, IsSplit};

use crate::words::{after_word, split_roots};
use ipld_tree::Cid;
use std::alloc::{AllocError, Global};

/// What `split` is asked to do.
#[derive(Drop)]
pub struct Split<'a> {
    /// The roots of each part. If empty, those of the file.
    pub roots: Vec<Cid>,
    /// The most bytes of a part with several sections.
    pub size: u64,
    /// The file, or `-` for standard input.
    pub file: &'a str,
    /// The prefix of the parts' names.
    pub prefix: &'a str,
}

/// Returns the size in the text, in bytes.
fn size_of(text: &str) -> Option<u64>
    ensures { MatchOption result ((n : ℕ) → ¬ IsSizeText text.now n) (IsSizeText text.now) }
{
    match u64::from_str_radix(text, 10) {
        Ok(size) if size > 0 => Some(size),
        _ => None,
    }
}

/// Returns the size in the text, the file, and the prefix of the parts' names.
#[tactic(auto, using(crate::proofs::Wording::none_sized))]
fn sized<'a>(text: &str, file: &'a str, prefix: &'a str) -> Option<(u64, &'a str, &'a str)>
    ensures { MatchOption result
        ((size : ℕ) (it start : List ℕ)
        → ¬ AreSizeAndFiles (text.now ∷ file.now ∷ prefix.now ∷ []) size it start)
        (λ p. AreSizeAndFiles (text.now ∷ file.now ∷ prefix.now ∷ []) p.0 p.1.now p.2.now) }
{
    let Some(size) = size_of(text) else {
        return None;
    };
    Some((size, file, prefix))
}

/// Returns the size, the file, and the prefix of the parts' names.
fn size_and_files(args: &[String]) -> Option<(u64, &str, &str)>
    ensures { MatchOption result
        ((size : ℕ) (file prefix : List ℕ)
        → ¬ AreSizeAndFiles (map string_bytes args.now) size file prefix)
        (λ p. AreSizeAndFiles (map string_bytes args.now) p.0 p.1.now p.2.now) }
{
    match args {
        [text, file, prefix] => sized(text.as_str(), file.as_str(), prefix.as_str()),
        _ => None,
    }
}

/// Returns the same from the words after `--size`.
fn after_size(args: &[String]) -> Option<(u64, &str, &str)>
    ensures { MatchOption result
        ((size : ℕ) (file prefix : List ℕ)
        → ¬ HasSizeAndFiles (map string_bytes args.now) size file prefix)
        (λ p. HasSizeAndFiles (map string_bytes args.now) p.0 p.1.now p.2.now) }
{
    let Some(rest) = after_word("--size", args) else {
        return None;
    };
    size_and_files(rest)
}

/// Reads the words `split [--root CID].. --size BYTES FILE PREFIX`. `None` if they are others.
pub fn split_of(alloc: Global, args: &[String]) -> Result<Option<Split<'_>>, AllocError>
    ensures { IfOk result (λ o. MatchOption o
        ((roots : List CidParts) (size : ℕ) (file prefix : List ℕ)
        → ¬ IsSplit (map string_bytes args.now) roots size file prefix)
        (λ w. IsSplit (map string_bytes args.now) w.roots.items w.size w.file.now w.prefix.now)) }
{
    let Some(rest) = after_word("split", args) else {
        return Ok(None);
    };
    let Some((roots, rest)) = split_roots(alloc, rest)? else {
        return Ok(None);
    };
    match after_size(rest) {
        Some((size, file, prefix)) => Ok(Some(Split {
            roots,
            size,
            file,
            prefix,
        })),
        None => Ok(None),
    }
}
