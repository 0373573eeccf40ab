//! What the line of a request asks for.

ghost use Rattle.std.specs.Prelude.{◌≡◌, ◌≢◌, ◌<◌, [], ℕ, MatchOption};
ghost use Rattle.ipld_tree.specs.Cid.{CidParts};
ghost use Rattle.text_cid.specs.Texts.{IsTextOf};
ghost use Rattle.program_serve.specs.Requests.{first_word, after_word, IsLength, IsSized, Means, AsksFor, wanted};
ghost use Rattle.program_serve.specs.declared.asked.Asked.{Asked};

use crate::word::{Word, word_of};
use ipld_tree::Cid;
use program_dagstore::codec_of;
use text_cid::cid_from_text;

/// A request to a store.
#[derive(Clone, Copy, Debug)]
pub enum Request {
    /// Return the block under the name.
    Get(Cid),
    /// Return whether something is listed under the name.
    Has(Cid),
    /// Store the block that follows, with this codec and length in bytes, and commit.
    Put(u64, u64),
    /// Store such a block as of the next commit.
    Add(u64, u64),
    /// Remove what is listed under the name, as of the next commit.
    Remove(Cid),
    /// Return the first name after this one, or the first of all.
    Next(Option<Cid>),
    /// Return how many names are listed.
    Count,
    /// Return the roots, in their order.
    Roots,
    /// Make the name a root, as of the next commit.
    AddRoot(Cid),
    /// Remove the name from the roots, as of the next commit.
    DropRoot(Cid),
    /// Commit the changes that were requested before.
    Commit,
    /// Undo them.
    Rollback,
}

/// What a line asks for.
#[derive(Clone, Copy, Debug)]
pub enum Asked<'a> {
    Do(Request),
    /// Store the blocks of the CAR file at the path.
    Import(&'a str),
    /// Write a CAR file of all blocks to a new file at the path.
    Export(&'a str),
}

impl Request {
    /// Returns how many bytes of a block follow the line.
    pub fn wanted(&self) -> u64
        ensures { result ≡ wanted self.now }
    {
        match self {
            Request::Put(_, length) => *length,
            Request::Add(_, length) => *length,
            _ => 0,
        }
    }
}

/// Splits the text at its first space into a word and the rest.
fn split_word(text: &str) -> (&str, &str)
    ensures first { result.0.now ≡ first_word text.now }
    ensures following { result.1.now ≡ after_word text.now }
{
    match text.split_once(' ') {
        Some((word, rest)) => (word, rest),
        None => (text, ""),
    }
}

/// Returns the number that one or more decimal digits write.
fn length_of(digits: &str) -> Option<u64>
    ensures { MatchOption result ((n : ℕ) → ¬ IsLength digits.now n) (IsLength digits.now) }
{
    if digits.starts_with('+') {
        return None;
    }
    u64::from_str_radix(digits, 10).ok()
}

/// Returns a codec, and the length after it.
fn sized(text: &str) -> Option<(u64, u64)>
    ensures { MatchOption result ((codec n : ℕ) → ¬ IsSized text.now codec n)
        (λ p. IsSized text.now p.0 p.1) }
{
    let (codec, length) = split_word(text);
    let Some(codec) = codec_of(codec) else {
        return None;
    };
    let Some(length) = length_of(length) else {
        return None;
    };
    Some((codec, length))
}

/// Returns the CID that the text is.
fn name_in(text: &str) -> Option<Cid>
    ensures { MatchOption result ((name : CidParts) → ¬ IsTextOf text.now name) (IsTextOf text.now) }
{
    cid_from_text(text.as_bytes()).ok()
}

/// Parses a request for the next name, after a name if one is given.
fn next_in(rest: &str) -> Option<Asked<'_>>
    ensures { MatchOption result ((asked : Asked) → ¬ Means Word.Next rest.now asked)
        (Means Word.Next rest.now) }
{
    if rest.is_empty() {
        return Some(Asked::Do(Request::Next(None)));
    }
    let name = name_in(rest)?;
    Some(Asked::Do(Request::Next(Some(name))))
}

/// Returns the request if no text follows the word.
fn alone(request: Request, rest: &str) -> Option<Asked<'_>>
    ensures { MatchOption result (rest.now ≢ [])
        (λ asked. (rest.now ≡ []) × (asked ≡ Asked.Do request)) }
{
    if rest.is_empty() {
        Some(Asked::Do(request))
    } else {
        None
    }
}

/// Parses what the word asks for, with this text after it.
fn meant(word: Word, rest: &str) -> Option<Asked<'_>>
    ensures { MatchOption result ((asked : Asked) → ¬ Means word rest.now asked)
        (Means word rest.now) }
{
    match word {
        Word::Get => Some(Asked::Do(Request::Get(name_in(rest)?))),
        Word::Has => Some(Asked::Do(Request::Has(name_in(rest)?))),
        Word::Remove => Some(Asked::Do(Request::Remove(name_in(rest)?))),
        Word::AddRoot => Some(Asked::Do(Request::AddRoot(name_in(rest)?))),
        Word::DropRoot => Some(Asked::Do(Request::DropRoot(name_in(rest)?))),
        Word::Next => next_in(rest),
        Word::Put => put_in(rest),
        Word::Add => add_in(rest),
        Word::Count => alone(Request::Count, rest),
        Word::Roots => alone(Request::Roots, rest),
        Word::Commit => alone(Request::Commit, rest),
        Word::Rollback => alone(Request::Rollback, rest),
        Word::Import => Some(Asked::Import(rest)),
        Word::Export => Some(Asked::Export(rest)),
    }
}

/// Parses a request to put a block.
fn put_in(rest: &str) -> Option<Asked<'_>>
    ensures { MatchOption result ((asked : Asked) → ¬ Means Word.Put rest.now asked)
        (Means Word.Put rest.now) }
{
    let Some((codec, length)) = sized(rest) else {
        return None;
    };
    Some(Asked::Do(Request::Put(codec, length)))
}

/// Parses a request to add a block.
fn add_in(rest: &str) -> Option<Asked<'_>>
    ensures { MatchOption result ((asked : Asked) → ¬ Means Word.Add rest.now asked)
        (Means Word.Add rest.now) }
{
    let Some((codec, length)) = sized(rest) else {
        return None;
    };
    Some(Asked::Do(Request::Add(codec, length)))
}

/// Parses what the line asks for.
pub fn asked_of(line: &[u8]) -> Option<Asked<'_>>
    ensures { MatchOption result ((asked : Asked) → ¬ AsksFor line.now asked) (AsksFor line.now) }
{
    let Ok(text) = str::from_utf8(line) else {
        return None;
    };
    let (word, rest) = split_word(text);
    let word = word_of(word)?;
    meant(word, rest)
}
