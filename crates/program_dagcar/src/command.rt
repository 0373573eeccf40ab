//! The words of the command line, and the program's answers.

ghost use Rattle.std.specs.Prelude.{◌≡◌, ◌≢◌, [], ◌∷◌, ◌++◌, codes, true, map, string_bytes, IfSome, MatchOption, Result, Bool, Option, None, Some, List, ℕ};
ghost use Rattle.program_dagcar.specs.Answers.{RunsCommand, EndsSo, IsQuiet};
ghost use Rattle.program_dagcar.specs.Speeches.{beside, SaysBytes};
ghost use Rattle.program_parts.specs.Lines.{no_cid_line, SaysLines, SaysBoth};
ghost use Rattle.program_shared.specs.declared.fault.ToolError.{ToolError};
ghost use Rattle.program_dagcar.specs.Commands.{IsCommand, IsCommandOn, IsMistyped};
ghost use Rattle.program_dagcar.specs.Commands.{text_of};
ghost use Rattle.program_parts.specs.Paths.{name_part, path_part};
ghost use Rattle.program_parts.specs.Paths.{IsAnswerOfFile};
ghost use Rattle.program_dagcar.specs.Files.{IsListingOfFile, SaysFileOf};
ghost use Rattle.ipld_paths.specs.Paths.{segments};
ghost use Rattle.program_dagcar.specs.declared.command.Command.TheVariants.{Summary};
ghost use Rattle.ipld_tree.specs.Cid.{CidParts};
ghost use Rattle.text_cid.specs.Texts.{IsTextFault, IsTextOf};
ghost use Rattle.text_cid.specs.declared.error.CidTextError.{CidTextError};
ghost use Rattle.program_shared.specs.Writing.{WritesFront};

use crate::answer::say_answer;
use crate::block::{Judging, Naming, Showing};
use crate::files::{write_entries, write_file};
use crate::get::get_block;
use crate::help::{help_text, version_text};
use crate::list::Listing;
use crate::make::Making;
use crate::summary::Summing;
use crate::tree::write_tree;
use crate::verify::Verifying;
use crate::walk::{Teller, say_file};
use dagcbor_heads::IoRefReader;
use files_car::CarCheck;
use ipld_tree::Cid;
use program_parts::{Asked, input_over, no_cid_line, split_path, write_asked};
use program_records::{write_record, write_records};
use program_shared::{ToolError, give_up, write_all};
use std::alloc::Global;
use std::io;
use std::io::{BufRead, Write};
use text_cid::{CidTextError, cid_from_text, laws};

/// The error text for wrong words.
pub const USAGE: &str =
    "usage: dagcar check [--summary|--index]|verify|list [--index]|name|one|show|make|get CID|tree CID\
    |at [--raw] CID/PATH|prove CID/PATH|ls CID/PATH|cat CID/PATH|records [--json]|record KEY|record-proof KEY|commit|changes OLD NEW|inspect [--json]\
    |index FILE|filter ..|merge ..|split ..|event\n";

/// The error line if memory runs out.
pub const OUT_OF_MEMORY: &str = "dagcar: out of memory\n";

/// What the program can do.
#[derive(Clone, Copy, Debug, PartialEq, Eq)]
pub enum Command {
    /// To judge a CAR file.
    Check,
    /// To judge a CAR file, and write only how many sections got each verdict.
    Summary,
    /// To judge the sections of a CAR file, without following links.
    Verify,
    /// To print the help text.
    Help,
    /// To print the version.
    Version,
    /// To list a CAR file.
    List,
    /// To name a block.
    Name,
    /// To judge a block.
    One,
    /// To show the data of a block.
    Show,
    /// To make a block from DAG-JSON.
    Make,
    /// To write the block of this CID.
    Get(Cid),
    /// To write the blocks that links lead to from this root.
    Tree(Cid),
    /// To show what a path from this root leads to.
    At(Cid),
    /// To write the bytes that a path from this root leads to.
    Raw(Cid),
    /// To write the CAR file that proves what a path from this root leads to.
    Prove(Cid),
    /// To list the entries under a path of names from this root.
    Ls(Cid),
    /// To write the bytes of the file that a path of names from this root leads to.
    Cat(Cid),
    /// To list the records of a repository.
    Records,
    /// To show one record of a repository.
    Record,
}

/// Returns the command that this one word names.
fn command_named(name: &str) -> Option<Command>
    ensures { MatchOption result ((c : Command) → ¬ IsCommand (name.now ∷ []) c)
        (λ c. IsCommand (name.now ∷ []) c) }
{
    match name {
        "check" => Some(Command::Check),
        "verify" => Some(Command::Verify),
        "--help" => Some(Command::Help),
        "--version" => Some(Command::Version),
        "list" => Some(Command::List),
        "name" => Some(Command::Name),
        "one" => Some(Command::One),
        "show" => Some(Command::Show),
        "make" => Some(Command::Make),
        "records" => Some(Command::Records),
        _ => None,
    }
}

/// Returns the command of this word for the block of this CID.
fn command_on(word: &str, name: Cid) -> Option<Command>
    ensures { MatchOption result ((word.now ≢ codes "get") × (word.now ≢ codes "tree"))
        (IsCommandOn word.now name) }
{
    match word {
        "get" => Some(Command::Get(name)),
        "tree" => Some(Command::Tree(name)),
        _ => None,
    }
}

/// Returns the CID at the start of a text, before its path.
fn root_in(text: &str) -> Option<Cid>
    ensures { MatchOption result ((n : CidParts) → ¬ IsTextOf (name_part text.now) n)
        (λ n. IsTextOf (name_part text.now) n) }
{
    let (name, _path) = split_path(text);
    cid_from_text(name.as_bytes()).ok()
}

/// Returns the command of a word, an option and a text: `at --raw` of a root.
fn command_with(word: &str, option: &str, text: &str) -> Option<Command>
    ensures { MatchOption result
        ((c : Command) → ¬ IsCommand (word.now ∷ option.now ∷ text.now ∷ []) c)
        (λ c. IsCommand (word.now ∷ option.now ∷ text.now ∷ []) c) }
{
    if word != "at" || option != "--raw" {
        return None;
    }
    Some(Command::Raw(root_in(text)?))
}

/// Returns the command for `check` with this option.
fn check_with(option: &str) -> Option<Command>
    ensures { MatchOption result (option.now ≢ codes "--summary")
        (λ c. (c ≡ Summary) × (option.now ≡ codes "--summary")) }
{
    match option {
        "--summary" => Some(Command::Summary),
        _ => None,
    }
}

/// Returns the text after the command's word and option, or an empty text.
fn text_of(args: &[String]) -> &str
    ensures { result.now ≡ text_of (map string_bytes args.now) }
{
    match args {
        [_word, text] => text.as_str(),
        [_word, _option, text] => text.as_str(),
        _ => "",
    }
}

/// Returns the command of a word and a text: a CID, with a path if the word is `at`, `prove`, `ls`
/// or `cat`; the option of `check`; or the key of `record`.
fn command_on_text(word: &str, text: &str) -> Option<Command>
    ensures { MatchOption result ((c : Command) → ¬ IsCommand (word.now ∷ text.now ∷ []) c)
        (λ c. IsCommand (word.now ∷ text.now ∷ []) c) }
{
    if word == "at" {
        return Some(Command::At(root_in(text)?));
    }
    if word == "prove" {
        return Some(Command::Prove(root_in(text)?));
    }
    if word == "ls" {
        return Some(Command::Ls(root_in(text)?));
    }
    if word == "cat" {
        return Some(Command::Cat(root_in(text)?));
    }
    if word == "check" {
        return check_with(text);
    }
    if word == "record" {
        return Some(Command::Record);
    }
    match cid_from_text(text.as_bytes()) {
        Ok(name) => command_on(word, name),
        Err(_) => None,
    }
}

/// Returns the command that the words stand for, or `None`.
pub fn command_of(args: &[String]) -> Option<Command>
    ensures { MatchOption result ((c : Command) → ¬ IsCommand (map string_bytes args.now) c)
        (λ c. IsCommand (map string_bytes args.now) c) }
{
    match args {
        [word] => command_named(word.as_str()),
        [word, text] => command_on_text(word.as_str(), text.as_str()),
        [word, option, text] => command_with(word.as_str(), option.as_str(), text.as_str()),
        _ => None,
    }
}

/// Returns why the text is not a CID.
fn text_fault(text: &str) -> Option<CidTextError>
    ensures { (e : CidTextError) → IsTextFault e text.now → result ≡ Some e }
{
    laws::text_faults();
    match cid_from_text(text.as_bytes()) {
        Ok(_cid) => None,
        Err(fault) => Some(fault),
    }
}

/// Returns why the text after this word is not a CID, if it should be one.
fn no_cid_after(word: &str, text: &str) -> Option<CidTextError>
    ensures { (e : CidTextError) → IsMistyped (word.now ∷ text.now ∷ []) e → result ≡ Some e }
{
    match word {
        "get" | "tree" => text_fault(text),
        "at" if text == "--raw" => None,
        "at" | "prove" | "ls" | "cat" => text_fault(split_path(text).0),
        _ => None,
    }
}

/// Returns why the text after this word and option is not a CID, if it should be one.
fn no_cid_with(word: &str, option: &str, text: &str) -> Option<CidTextError>
    ensures { (e : CidTextError) → IsMistyped (word.now ∷ option.now ∷ text.now ∷ []) e
        → result ≡ Some e }
{
    if word == "at" && option == "--raw" {
        return text_fault(split_path(text).0);
    }
    None
}

/// Returns why the words lack a CID where one should be.
fn no_cid_in(args: &[String]) -> Option<CidTextError>
    ensures { (e : CidTextError) → IsMistyped (map string_bytes args.now) e → result ≡ Some e }
{
    match args {
        [word, text] => no_cid_after(word.as_str(), text.as_str()),
        [word, option, text] => no_cid_with(word.as_str(), option.as_str(), text.as_str()),
        _ => None,
    }
}

/// Writes what is wrong with the words to `errors`, and returns the exit status.
fn tell_wrong<V: Write>(args: &[String], errors: &mut V) -> u8
    ensures status { result ≡ 2 }
    ensures told { (e : CidTextError) → IsMistyped (map string_bytes args.now) e
        → (told : Result (Unit {0}) ToolError)
        × WritesFront (V.contents errors.old) (V.contents errors.new) told (no_cid_line e) }
{
    match no_cid_in(args) {
        Some(fault) => give_up(errors, no_cid_line(&fault), 2),
        None => give_up(errors, USAGE, 2),
    }
}

/// Returns whether the words are a command, or would be but for a malformed CID.
fn begin_so(words: &[String]) -> bool
    ensures { (c : Command) → IsCommand (map string_bytes words.now) c → result ≡ true }
{
    command_of(words).is_some() || no_cid_in(words).is_some()
}

/// Splits the words into those of a command and the file named after them, if any. Words that are a
/// command by themselves name no file.
pub fn split_words(args: &[String]) -> (&[String], Option<&str>)
    ensures split { MatchOption result.1 (map string_bytes result.0.now ≡ map string_bytes args.now)
        (λ file. map string_bytes args.now ≡ map string_bytes result.0.now ++ file.now ∷ []) }
    ensures whole { (c : Command) → IsCommand (map string_bytes args.now) c → result.1 ≡ None }
    ensures named { (words : List (List ℕ)) (file : List ℕ) (c : Command)
        → map string_bytes args.now ≡ words ++ file ∷ [] → IsCommand words c
        → ((d : Command) → ¬ IsCommand (map string_bytes args.now) d) → result.1 ≢ None }
{
    if command_of(args).is_some() {
        return (args, None);
    }
    match args {
        [words @ .., file] if begin_so(words) => (words, Some(file.as_str())),
        _ => (args, None),
    }
}

/// Returns the exit status of a run, and writes its fault, if any, to `errors`.
pub fn status_of<V: Write>(ended: Result<bool, ToolError>, errors: &mut V) -> u8
    ensures status { EndsSo ended result }
    ensures quiet { result ≢ 2 → errors.new ≡ errors.old }
{
    match ended {
        Ok(true) => 0,
        Ok(false) => 1,
        Err(ToolError::Input) => give_up(errors, "dagcar: input failed\n", 2),
        Err(ToolError::Output) => give_up(errors, "dagcar: output failed\n", 2),
        Err(ToolError::OutOfMemory) => give_up(errors, OUT_OF_MEMORY, 2),
    }
}

/// Writes what the teller says of the input's CAR file, also to `errors`. Returns whether all is
/// well.
fn say_input<T: Teller, R: BufRead, W: Write, V: Write>(
    alloc: Global,
    input: &mut R,
    output: &mut W,
    errors: &mut V,
) -> Result<bool, ToolError>
    ensures said { IfSome (R.remaining input.old) (λ b.
        SaysBytes T.speech b (W.contents output.old) result (W.contents output.new)) }
    ensures told { IfSome (R.remaining input.old) (λ b.
        SaysBytes (beside T.tells) b (V.contents errors.old) result (V.contents errors.new)) }
{
    let mut source = input_over(IoRefReader::new(input));
    let result = say_file::<T, _, _, _>(alloc, &mut source, output, errors);
    if let Some(lent) = source.into_reader() {
        let _source = lent.into_inner();
    }
    result
}

/// Writes this text. All is well then.
fn say_text<W: Write>(text: &str, output: &mut W) -> Result<bool, ToolError>
    ensures { SaysLines text.now true (W.contents output.old) result (W.contents output.new) }
{
    write_all(output, text.as_bytes())?;
    Ok(true)
}

/// Writes the answer for the path in the text, from this root. Returns whether all is well.
fn say_path<R: BufRead, W: Write, V: Write>(
    alloc: Global,
    asked: Asked,
    root: &Cid,
    text: &str,
    input: &mut R,
    output: &mut W,
    errors: &mut V,
) -> Result<bool, ToolError>
    ensures { IfSome (R.remaining input.old) (λ b.
        SaysBoth (IsAnswerOfFile asked root.now (segments (path_part text.now)) b)
        (W.contents output.old) (V.contents errors.old) result (W.contents output.new)
        (V.contents errors.new)) }
{
    let (_name, path) = split_path(text);
    write_asked(alloc, asked, root, path, input, output, errors)
}

/// Lists the entries under the path in the text, from this root. Returns whether all is well.
fn say_entries_at<R: BufRead, W: Write, V: Write>(
    alloc: Global,
    root: &Cid,
    text: &str,
    input: &mut R,
    output: &mut W,
    errors: &mut V,
) -> Result<bool, ToolError>
    ensures { IfSome (R.remaining input.old) (λ b.
        SaysBoth (IsListingOfFile root.now (segments (path_part text.now)) b)
        (W.contents output.old) (V.contents errors.old) result (W.contents output.new)
        (V.contents errors.new)) }
{
    let (_name, path) = split_path(text);
    write_entries(alloc, root, path, input, output, errors)
}

/// Writes the bytes of the file that the path in the text leads to from this root. Returns whether
/// it is whole.
fn say_file_at<R: BufRead, W: Write, V: Write>(
    alloc: Global,
    root: &Cid,
    text: &str,
    input: &mut R,
    output: &mut W,
    errors: &mut V,
) -> Result<bool, ToolError>
    ensures { IfSome (R.remaining input.old) (λ b.
        SaysFileOf root.now (segments (path_part text.now)) b (W.contents output.old)
        (V.contents errors.old) result (W.contents output.new) (V.contents errors.new)) }
{
    let (_name, path) = split_path(text);
    write_file(alloc, root, path, input, output, errors)
}

/// Runs the command on the input. Returns whether all is well.
pub fn run<R: BufRead, W: Write, V: Write>(
    alloc: Global,
    command: Command,
    text: &str,
    input: &mut R,
    output: &mut W,
    errors: &mut V,
) -> Result<bool, ToolError>
    ensures runs { IfSome (R.remaining input.old) (λ b.
        RunsCommand command text.now b (W.contents output.old) (V.contents errors.old) result
        (W.contents output.new) (V.contents errors.new)) }
    ensures quiet { IsQuiet command → errors.new ≡ errors.old }
{
    match command {
        Command::Check => say_input::<CarCheck, R, W, V>(alloc, input, output, errors),
        Command::Summary => say_input::<Summing, R, W, io::Sink>(
            alloc,
            input,
            output,
            &mut io::sink(),
        ),
        Command::Verify => say_input::<Verifying, R, W, V>(alloc, input, output, errors),
        Command::Help => say_text(help_text(), output),
        Command::Version => say_text(version_text(), output),
        Command::List => say_input::<Listing, R, W, io::Sink>(
            alloc,
            input,
            output,
            &mut io::sink(),
        ),
        Command::Name => say_answer::<Naming, R, W, V>(alloc, input, output, errors),
        Command::One => say_answer::<Judging, R, W, V>(alloc, input, output, errors),
        Command::Show => say_answer::<Showing, R, W, V>(alloc, input, output, errors),
        Command::Make => say_answer::<Making, R, W, V>(alloc, input, output, errors),
        Command::Get(name) => get_block(alloc, &name, input, output, errors),
        Command::Tree(root) => write_tree(alloc, &root, input, output, errors),
        Command::At(root) => say_path(alloc, Asked::Data, &root, text, input, output, errors),
        Command::Raw(root) => say_path(alloc, Asked::Bytes, &root, text, input, output, errors),
        Command::Prove(root) => say_path(alloc, Asked::Proof, &root, text, input, output, errors),
        Command::Ls(root) => say_entries_at(alloc, &root, text, input, output, errors),
        Command::Cat(root) => say_file_at(alloc, &root, text, input, output, errors),
        Command::Records => write_records(alloc, input, output, errors),
        Command::Record => write_record(alloc, text, input, output, errors),
    }
}

/// Runs the command that the words stand for. Returns the exit status.
pub fn run_command<R: BufRead, W: Write, V: Write>(
    alloc: Global,
    args: &[String],
    input: &mut R,
    output: &mut W,
    errors: &mut V,
) -> u8
    ensures usage { ((c : Command) → ¬ IsCommand (map string_bytes args.now) c)
        → (result ≡ 2) × (input.new ≡ input.old) × (output.new ≡ output.old) }
    ensures mistyped { ((c : Command) → ¬ IsCommand (map string_bytes args.now) c)
        → (e : CidTextError) → IsMistyped (map string_bytes args.now) e
        → (told : Result (Unit {0}) ToolError)
        × WritesFront (V.contents errors.old) (V.contents errors.new) told (no_cid_line e) }
    ensures answered { (c : Command) → IsCommand (map string_bytes args.now) c
        → IfSome (R.remaining input.old) (λ b. (ended : Result Bool ToolError)
        × (after : Option (List ℕ)) × EndsSo ended result
        × RunsCommand c (text_of (map string_bytes args.now)) b (W.contents output.old)
        (V.contents errors.old) ended (W.contents output.new) after
        × (result ≢ 2 → V.contents errors.new ≡ after)) }
    ensures quiet { (c : Command) → IsCommand (map string_bytes args.now) c → IsQuiet c
        → result ≢ 2 → errors.new ≡ errors.old }
{
    laws::texts_tell_cids();
    let Some(command) = command_of(args) else {
        return tell_wrong(args, errors);
    };
    let ended = run(alloc, command, text_of(args), input, output, errors);
    status_of(ended, errors)
}
