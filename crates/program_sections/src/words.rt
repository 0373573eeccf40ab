//! The words of `filter`.

ghost use Rattle.std.specs.Prelude.{◌≡◌, ◌≢◌, [], ◌∷◌, map, string_bytes, option_map, IfOk, MatchOption, Option, List, ℕ};
ghost use Rattle.ipld_tree.specs.Cid.{CidParts};
ghost use Rattle.program_sections.specs.Words.{IsHexText, IsCodecText, AreTexts, root_texts};
ghost use Rattle.program_sections.specs.Words.{after_roots, HasNoRoot, HasRoot, IsBy, IsByAndFile};
ghost use Rattle.program_sections.specs.Words.{IsFilter, IsMerge};
ghost use Rattle.program_sections.specs.declared.words.By.{By};

use ipld_tree::Cid;
use std::alloc::{AllocError, Global};
use text_cid::cid_from_text;

/// Returns the number in hexadecimal digits after `0x`.
fn hex_of(text: &str) -> Option<u64>
    ensures { MatchOption result ((n : ℕ) → ¬ IsHexText text.now n) (IsHexText text.now) }
{
    let digits = text.strip_prefix("0x")?;
    u64::from_str_radix(digits, 16).ok()
}

/// Returns the codec that the text names, or whose number it is.
fn codec_of(text: &str) -> Option<u64>
    ensures { MatchOption result ((n : ℕ) → ¬ IsCodecText text.now n) (IsCodecText text.now) }
{
    match text {
        "raw" => Some(0x55),
        "dag-pb" => Some(0x70),
        "dag-cbor" => Some(0x71),
        "libp2p-key" => Some(0x72),
        "dag-json" => Some(0x0129),
        "json" => Some(0x0200),
        _ => hex_of(text),
    }
}

/// Returns the words after this one, if it comes first.
pub(crate) fn after_word<'a>(word: &str, args: &'a [String]) -> Option<&'a [String]>
    ensures { MatchOption result
        ((rest : List (List ℕ)) → map string_bytes args.now ≢ word.now ∷ rest)
        (λ rest. map string_bytes args.now ≡ word.now ∷ map string_bytes rest.now) }
{
    let Some((first, rest)) = args.split_first() else {
        return None;
    };
    if first.as_str() != word {
        return None;
    }
    Some(rest)
}

/// Returns the root after a leading `--root`, and the words after it. The root is `None` if the
/// text is not a CID.
#[tactic(auto, using(crate::proofs::Wording::no_root_word, crate::proofs::Wording::no_root_text))]
fn root_first(args: &[String]) -> Option<(Option<Cid>, &[String])>
    ensures { MatchOption result (HasNoRoot (map string_bytes args.now))
        (λ p. HasRoot (map string_bytes args.now) p.0 (map string_bytes p.1.now)) }
{
    let Some(following) = after_word("--root", args) else {
        return None;
    };
    let Some((text, rest)) = following.split_first() else {
        return None;
    };
    Some((cid_from_text(text.as_bytes()).ok(), rest))
}

/// Returns the roots that follow each leading `--root`, and the words after them. `None` if a text
/// is not a CID.
pub(crate) fn split_roots(
    alloc: Global,
    args: &[String],
) -> Result<Option<(Vec<Cid>, &[String])>, AllocError>
    ensures { IfOk result (λ o. MatchOption o
        ((roots : List CidParts) → ¬ AreTexts (root_texts (map string_bytes args.now)) roots)
        (λ p. AreTexts (root_texts (map string_bytes args.now)) p.0.items
        × (map string_bytes p.1.now ≡ after_roots (map string_bytes args.now)))) }
{
    let mut roots = Vec::new(alloc);
    let mut rest = args;
    while let Some((root, following)) = root_first(rest) {
        let Some(root) = root else {
            return Ok(None);
        };
        roots.push(root)?;
        rest = following;
    }
    Ok(Some((roots, rest)))
}

/// What `filter` keeps sections by.
#[derive(Clone, Copy)]
pub enum By<'a> {
    /// This codec.
    Codec(u64),
    /// The CIDs listed in this file.
    Names(&'a str),
}

/// What `filter` is asked to do.
#[derive(Drop)]
pub struct FilterWords<'a> {
    pub roots: Vec<Cid>,
    pub by: By<'a>,
    /// The file. `None` for standard input.
    pub file: Option<&'a str>,
}

/// Returns what to keep, from an option and the word after it.
#[tactic(auto, using(crate::proofs::Wording::no_codec))]
fn by_of<'a>(option: &str, text: &'a str) -> Option<By<'a>>
    ensures { MatchOption result ((by : By) → ¬ IsBy option.now text.now by)
        (IsBy option.now text.now) }
{
    if option == "--codec" {
        let Some(codec) = codec_of(text) else {
            return None;
        };
        return Some(By::Codec(codec));
    }
    if option == "--names" {
        return Some(By::Names(text));
    }
    None
}

/// Returns what to keep, if no file is named.
#[tactic(auto, using(crate::proofs::Wording::none_alone))]
fn by_alone<'a>(option: &str, text: &'a str) -> Option<(By<'a>, Option<&'a str>)>
    ensures { MatchOption result ((by : By) (file : Option (List ℕ))
        → ¬ IsByAndFile (option.now ∷ text.now ∷ []) by file)
        (λ p. IsByAndFile (option.now ∷ text.now ∷ []) p.0 (option_map (λ s. s.now) p.1)) }
{
    let Some(by) = by_of(option, text) else {
        return None;
    };
    Some((by, None))
}

/// Returns what to keep, and the file.
#[tactic(auto, using(crate::proofs::Wording::none_with_file))]
fn by_with_file<'a>(option: &str, text: &'a str, file: &'a str) -> Option<(By<'a>, Option<&'a str>)>
    ensures { MatchOption result ((by : By) (it : Option (List ℕ))
        → ¬ IsByAndFile (option.now ∷ text.now ∷ file.now ∷ []) by it)
        (λ p. IsByAndFile (option.now ∷ text.now ∷ file.now ∷ []) p.0
        (option_map (λ s. s.now) p.1)) }
{
    let Some(by) = by_of(option, text) else {
        return None;
    };
    Some((by, Some(file)))
}

/// Returns what to keep, and the file, if one is named.
fn by_and_file(args: &[String]) -> Option<(By<'_>, Option<&str>)>
    ensures { MatchOption result
        ((by : By) (file : Option (List ℕ)) → ¬ IsByAndFile (map string_bytes args.now) by file)
        (λ p. IsByAndFile (map string_bytes args.now) p.0 (option_map (λ s. s.now) p.1)) }
{
    match args {
        [option, text] => by_alone(option.as_str(), text.as_str()),
        [option, text, file] => by_with_file(option.as_str(), text.as_str(), file.as_str()),
        _ => None,
    }
}

/// Reads the words `filter [--root CID].. --codec CODEC [FILE]` or `filter [--root CID].. --names
/// LIST [FILE]`. `None` if they are others.
pub fn filter_of(alloc: Global, args: &[String]) -> Result<Option<FilterWords<'_>>, AllocError>
    ensures { IfOk result (λ o. MatchOption o
        ((roots : List CidParts) (by : By) (file : Option (List ℕ))
        → ¬ IsFilter (map string_bytes args.now) roots by file)
        (λ w. IsFilter (map string_bytes args.now) w.roots.items w.by
        (option_map (λ s. s.now) w.file))) }
{
    let Some(rest) = after_word("filter", args) else {
        return Ok(None);
    };
    let Some((roots, rest)) = split_roots(alloc, rest)? else {
        return Ok(None);
    };
    match by_and_file(rest) {
        Some((by, file)) => Ok(Some(FilterWords { roots, by, file })),
        None => Ok(None),
    }
}

/// Reads the words `merge [--root CID].. FILE FILE..`: the roots and the files. `None` if they are
/// others.
pub fn merge_of(alloc: Global, args: &[String]) -> Result<Option<(Vec<Cid>, &[String])>, AllocError>
    ensures { IfOk result (λ o. MatchOption o
        ((roots : List CidParts) (files : List (List ℕ))
        → ¬ IsMerge (map string_bytes args.now) roots files)
        (λ p. IsMerge (map string_bytes args.now) p.0.items (map string_bytes p.1.now))) }
{
    let Some(rest) = after_word("merge", args) else {
        return Ok(None);
    };
    match split_roots(alloc, rest)? {
        Some((roots, files)) if files.len() >= 2 => Ok(Some((roots, files))),
        _ => Ok(None),
    }
}
