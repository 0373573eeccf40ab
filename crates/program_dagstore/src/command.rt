//! The program's arguments.

ghost use Rattle.std.specs.Prelude.{◌≡◌, ◌≢◌, ◌<◌, ◌≤◌, [], ◌∷◌, codes, length, map, string_bytes};
ghost use Rattle.std.specs.Prelude.{IfOk, IfErr, MatchBool, MatchOption, MatchResult, List, ℕ};
ghost use Rattle.std.specs.Str.Parse.{IsNumeral, digits_value};
ghost use Rattle.ipld_tree.specs.Cid.{CidParts};
ghost use Rattle.text_cid.specs.Texts.{IsTextOf, IsTextFault};
ghost use Rattle.program_parts.specs.Paths.{name_part, path_part};
ghost use Rattle.program_dagstore.specs.Commands.{NamesCodec, AreTextsOf, IsFirstFault, WantsNames};
ghost use Rattle.program_dagstore.specs.Commands.{NamesCommand, IsAskedBy, AreWords};
ghost use Rattle.program_dagstore.specs.declared.command.Command.{Command};

use ipld_links::DAG_CBOR;
use ipld_tree::Cid;
use program_parts::split_path;
use std::alloc::{AllocError, Global};
use text_cid::{CidTextError, cid_from_text, laws};

/// The codec of a block of opaque bytes (multicodec table).
const RAW: u64 = 0x55;

/// The most digits of a codec in hexadecimal.
const MOST_DIGITS: usize = 16;

/// A command on the blocks of an existing file.
#[derive(Debug, Drop)]
pub enum Command {
    /// Write all blocks as a CAR file, with these roots or, if none is given, those that are
    /// stored.
    Export(Vec<Cid>),
    /// Write the block under the name.
    Get(Cid),
    /// Return by the status whether a block is listed under the name.
    Has(Cid),
    /// Remove the blocks under the names.
    Remove(Vec<Cid>),
    /// Keep only the blocks that links lead to from these roots or, if none is given, from those
    /// that are stored.
    Collect(Vec<Cid>),
    /// Make the names roots.
    AddRoots(Vec<Cid>),
    /// Remove the names from the roots.
    DropRoots(Vec<Cid>),
    /// List the roots.
    Roots,
    /// Write the blocks that links lead to from this root, as a CAR file.
    Tree(Cid),
    /// Check each block, and its links.
    Check,
    /// List the blocks.
    List,
    /// Count the blocks.
    Count,
    /// Answer the requests on standard input.
    Serve,
}

/// A question about a path from this root: for the bytes of the item, or for its data.
#[derive(Clone, Copy, Debug)]
pub struct Asking {
    pub is_raw: bool,
    pub root: Cid,
}

/// The block at which a path of names begins.
#[derive(Clone, Copy, Debug)]
pub struct Beginning {
    pub root: Cid,
}

/// The meaning of the arguments.
#[derive(Debug, Drop)]
pub enum Words<'a> {
    /// Store, in the file at the first path, the blocks of a CAR file: the one at the other path,
    /// or standard input.
    Import(&'a str, Option<&'a str>),
    /// Store, in the file at the path, the block on standard input under its name of this codec.
    Put(&'a str, u64),
    /// Show what a path leads to from the root, or write its bytes.
    At(&'a str, Asking, &'a str),
    /// Write the bytes of the IPFS file to which a path of names leads from the root.
    Cat(&'a str, Beginning, &'a str),
    /// List what is under a path of names from the root.
    Ls(&'a str, Beginning, &'a str),
    /// The path of a file, and a command on its blocks.
    Do(&'a str, Command),
    Help,
    Version,
    /// An argument that should be a CID is not one.
    NoCid(CidTextError),
    Unknown,
}

/// Parses the arguments.
pub fn words_of(alloc: Global, words: &[String]) -> Result<Words<'_>, AllocError>
    ensures known { IfOk result (AreWords (map string_bytes words.now)) }
    ensures memory { IfErr result (λ _. 2 < length words.now) }
{
    match words {
        [word] => Ok(word_alone(word.as_str())),
        [path, word, rest @ ..] => words_after(alloc, path.as_str(), word.as_str(), rest),
        _ => Ok(Words::Unknown),
    }
}

/// Parses a single argument.
fn word_alone(word: &str) -> Words<'_>
    ensures { AreWords (word.now ∷ []) result }
{
    match word {
        "--help" => Words::Help,
        "--version" => Words::Version,
        _ => Words::Unknown,
    }
}

/// Parses a path, a command and the arguments after it.
fn words_after<'a>(
    alloc: Global,
    path: &'a str,
    word: &str,
    rest: &'a [String],
) -> Result<Words<'a>, AllocError>
    ensures known { IfOk result (AreWords (path.now ∷ (word.now ∷ map string_bytes rest.now))) }
    ensures memory { IfErr result (λ _. 0 < length rest.now) }
{
    match word {
        "import" => Ok(import_of(path, rest)),
        "put" => Ok(put_of(path, rest)),
        "at" => Ok(at_of(path, rest)),
        "cat" => Ok(cat_of(path, rest)),
        "ls" => Ok(ls_of(path, rest)),
        _ => names_after(alloc, path, word, rest),
    }
}

/// Parses an import into the file at the path, from the named source, if any.
fn import_of<'a>(path: &'a str, rest: &'a [String]) -> Words<'a>
    ensures { AreWords (path.now ∷ (codes "import" ∷ map string_bytes rest.now)) result }
{
    match rest {
        [] => Words::Import(path, None),
        [source] => match source.as_str() {
            "-" => Words::Import(path, None),
            source => Words::Import(path, Some(source)),
        },
        _ => Words::Unknown,
    }
}

/// Parses a put into the file at the path, of the named codec, if any.
fn put_of<'a>(path: &'a str, rest: &[String]) -> Words<'a>
    ensures { AreWords (path.now ∷ (codes "put" ∷ map string_bytes rest.now)) result }
{
    match rest {
        [] => Words::Put(path, DAG_CBOR),
        [word] => match codec_of(word.as_str()) {
            Some(codec) => Words::Put(path, codec),
            None => Words::Unknown,
        },
        _ => Words::Unknown,
    }
}

/// Parses a question about a path in the file.
fn at_of<'a>(file: &'a str, rest: &'a [String]) -> Words<'a>
    ensures { AreWords (file.now ∷ (codes "at" ∷ map string_bytes rest.now)) result }
{
    match rest {
        [text] => at_text(file, false, text.as_str()),
        [option, text] => match option.as_str() {
            "--raw" => at_text(file, true, text.as_str()),
            _ => Words::Unknown,
        },
        _ => Words::Unknown,
    }
}

/// Parses the text of such a path: a CID, and the path after a slash.
fn at_text<'a>(file: &'a str, is_raw: bool, text: &'a str) -> Words<'a>
    ensures { (rest : List (List ℕ)) → IsAskedBy rest is_raw text.now
        → AreWords (file.now ∷ (codes "at" ∷ rest)) result }
{
    let (name, path) = split_path(text);
    match cid_from_text(name.as_bytes()) {
        Ok(root) => Words::At(file, Asking { is_raw, root }, path),
        Err(cause) => Words::NoCid(cause),
    }
}

/// Parses which IPFS file is wanted.
fn cat_of<'a>(file: &'a str, rest: &'a [String]) -> Words<'a>
    ensures { AreWords (file.now ∷ (codes "cat" ∷ map string_bytes rest.now)) result }
{
    match rest {
        [text] => cat_text(file, text.as_str()),
        _ => Words::Unknown,
    }
}

/// Parses the text that names an IPFS file.
fn cat_text<'a>(file: &'a str, text: &'a str) -> Words<'a>
    ensures { AreWords (file.now ∷ (codes "cat" ∷ (text.now ∷ []))) result }
{
    match beginning_of(text) {
        Ok((at, path)) => Words::Cat(file, at, path),
        Err(cause) => Words::NoCid(cause),
    }
}

/// Parses what is to be listed.
fn ls_of<'a>(file: &'a str, rest: &'a [String]) -> Words<'a>
    ensures { AreWords (file.now ∷ (codes "ls" ∷ map string_bytes rest.now)) result }
{
    match rest {
        [text] => ls_text(file, text.as_str()),
        _ => Words::Unknown,
    }
}

/// Parses the text that names what is to be listed.
fn ls_text<'a>(file: &'a str, text: &'a str) -> Words<'a>
    ensures { AreWords (file.now ∷ (codes "ls" ∷ (text.now ∷ []))) result }
{
    match beginning_of(text) {
        Ok((at, path)) => Words::Ls(file, at, path),
        Err(cause) => Words::NoCid(cause),
    }
}

/// Returns the block at which the path in the text begins, and the path: a CID, and what follows a
/// slash.
fn beginning_of(text: &str) -> Result<(Beginning, &str), CidTextError>
    ensures { MatchResult result
        (λ p. IsTextOf (name_part text.now) p.0.root × (p.1.now ≡ path_part text.now))
        (λ e. IsTextFault e (name_part text.now)) }
{
    let (name, path) = split_path(text);
    match cid_from_text(name.as_bytes()) {
        Ok(root) => Ok((Beginning { root }, path)),
        Err(cause) => Err(cause),
    }
}

/// Returns the codec that the word names: `dag-cbor`, `raw`, or a number such as `0x70`.
pub fn codec_of(word: &str) -> Option<u64>
    ensures { MatchOption result ((codec : ℕ) → ¬ NamesCodec word.now codec) (NamesCodec word.now) }
{
    match word {
        "dag-cbor" => Some(DAG_CBOR),
        "raw" => Some(RAW),
        _ => number_of(word.strip_prefix("0x")?),
    }
}

/// Returns the number that 1 to 16 hexadecimal digits spell.
fn number_of(digits: &str) -> Option<u64>
    ensures { MatchOption result (¬ (IsNumeral 16 digits.now × (length digits.now ≤ 16)))
        (λ number. IsNumeral 16 digits.now × (length digits.now ≤ 16)
        × (number ≡ digits_value 16 digits.now)) }
{
    if digits.len() > MOST_DIGITS || digits.starts_with('+') {
        return None;
    }
    u64::from_str_radix(digits, 16).ok()
}

/// Parses a command with CIDs after it, or with nothing.
fn names_after<'a>(
    alloc: Global,
    path: &'a str,
    word: &str,
    rest: &[String],
) -> Result<Words<'a>, AllocError>
    ensures known { word.now ≢ codes "import" → word.now ≢ codes "put" → word.now ≢ codes "at"
        → word.now ≢ codes "cat" → word.now ≢ codes "ls"
        → IfOk result (AreWords (path.now ∷ (word.now ∷ map string_bytes rest.now))) }
    ensures memory { IfErr result (λ _. 0 < length rest.now) }
{
    laws::texts_tell_cids();
    laws::text_faults();
    match cids_of(alloc, rest)? {
        Ok(names) => match command_of(word, names) {
            Some(command) => Ok(Words::Do(path, command)),
            None => Ok(Words::Unknown),
        },
        Err(cause) if takes_names(word) => Ok(Words::NoCid(cause)),
        Err(_) => Ok(Words::Unknown),
    }
}

/// Returns the CIDs that the words are, or why the first that is not a CID is not one.
fn cids_of(alloc: Global, words: &[String]) -> Result<Result<Vec<Cid>, CidTextError>, AllocError>
    ensures read { IfOk result (λ read. MatchResult read
        (λ names. AreTextsOf (map string_bytes words.now) names.items)
        (IsFirstFault (map string_bytes words.now))) }
    ensures memory { IfErr result (λ _. 0 < length words.now) }
{
    let mut names = Vec::new(alloc);
    for word in words {
        match cid_from_text(word.as_bytes()) {
            Ok(name) => names.push(name)?,
            Err(cause) => return Ok(Err(cause)),
        }
    }
    Ok(Ok(names))
}

/// Returns whether CIDs may follow the word.
fn takes_names(word: &str) -> bool
    ensures { MatchBool result (WantsNames word.now) (¬ WantsNames word.now) }
{
    matches!(
        word,
        "export" | "get" | "has" | "tree" | "remove" | "gc" | "add-root" | "drop-root"
    )
}

/// Returns the command of the word and the CIDs after it.
fn command_of(word: &str, names: Vec<Cid>) -> Option<Command>
    ensures { MatchOption result ((command : Command) → ¬ NamesCommand word.now names.items command)
        (NamesCommand word.now names.items) }
{
    match word {
        "export" => Some(Command::Export(names)),
        "get" => Some(Command::Get(one_of(&names)?)),
        "has" => Some(Command::Has(one_of(&names)?)),
        "tree" => Some(Command::Tree(one_of(&names)?)),
        "remove" => Some(Command::Remove(some_of(names)?)),
        "gc" => Some(Command::Collect(names)),
        "add-root" => Some(Command::AddRoots(some_of(names)?)),
        "drop-root" => Some(Command::DropRoots(some_of(names)?)),
        "roots" if names.is_empty() => Some(Command::Roots),
        "check" if names.is_empty() => Some(Command::Check),
        "list" if names.is_empty() => Some(Command::List),
        "count" if names.is_empty() => Some(Command::Count),
        "serve" if names.is_empty() => Some(Command::Serve),
        _ => None,
    }
}

/// Returns the name, if there is just one.
fn one_of(names: &[Cid]) -> Option<Cid>
    ensures { MatchOption result ((name : CidParts) → names.now ≢ name ∷ [])
        (λ name. names.now ≡ name ∷ []) }
{
    match names {
        [name] => Some(*name),
        _ => None,
    }
}

/// Returns the names, if there are any.
fn some_of(names: Vec<Cid>) -> Option<Vec<Cid>>
    ensures { MatchOption result (names.items ≡ [])
        (λ some. (some.items ≡ names.items) × (names.items ≢ [])) }
{
    if names.is_empty() { None } else { Some(names) }
}
