//! A block as a list of tokens: its heads, from which a caller builds values of its own.

ghost use Rattle.std.specs.Prelude.{◌≡◌, ◌-◌, ◌<◌, ◌≤◌, ℕ, List, length, map, drop, slice_set};
ghost use Rattle.std.specs.Prelude.{MatchOption};
ghost use Rattle.ipld_tree.specs.Tree.{Tree};
ghost use Rattle.ipld_tree.specs.Spelling.{IsSpelling};
ghost use Rattle.dagcbor_decode.specs.Decode.{decode};
ghost use Rattle.abi_calls.specs.Tapes.{token, SplitsTokenIfThere, SplitsLinkIfThere};
ghost use Rattle.abi_calls.specs.Tapes.{PutsTokens, decoded_tape, tape_of, with_tokens};
ghost use Rattle.abi_calls.specs.Standing.{IsSimpleToken, StandsLinkIfThere};
ghost use Rattle.abi_calls.specs.Standing.{StandsTaggedIfThere, StandsTokenIfThere, AreTokens};
ghost use Rattle.abi_calls.specs.Standing.{PutsStanding};
ghost use Rattle.abi_calls.specs.Answers.{tape_answer, IsTokensAnswer};
ghost use Rattle.abi_calls.specs.declared.tape.Token.{Token};

use crate::code::{kind_code, refusal_code};
use dagcbor_core::split_head;
use dagcbor_decode::{check_slice, judge_slice};

/// A head of a block: its kind, its number, and the place after it.
#[repr(C)]
#[derive(Clone, Copy, Debug, PartialEq, Eq)]
pub struct Token {
    pub kind: u64,
    pub number: u64,
    pub place: u64,
}

/// The kinds of tokens: those of data, and integers below 0.
const NULL: u64 = 0;

const BOOL: u64 = 1;

pub(crate) const INTEGER: u64 = 2;

pub(crate) const STRING: u64 = 3;

const BYTES: u64 = 4;

const LIST: u64 = 5;

const MAP: u64 = 6;

const LINK: u64 = 7;

pub(crate) const NEGATIVE: u64 = 8;

/// An entry of a tape, which is made of a token.
pub(crate) trait TapeEntry: Copy {
    /// The entry that is made of a token of these bytes.
    ghost made: { List ℕ → Token → Self };

    fn made(bytes: &[u8], token: Token) -> Self
        ensures { result ≡ Self.made bytes.now token };
}

impl TapeEntry for Token {
    ghost made = { λ bytes token. token };

    fn made(_bytes: &[u8], token: Token) -> Token {
        token
    }
}

/// Returns a token whose place is that of `following`, what follows it, in `whole` bytes.
fn token_before(kind: u64, number: u64, whole: usize, following: &[u8]) -> Token
    requires { length following.now ≤ whole }
    ensures { result ≡ token kind number (whole - length following.now) }
{
    Token {
        kind,
        number,
        place: (whole - following.len()) as u64,
    }
}

/// Returns what follows n bytes.
fn after_payload(bytes: &[u8], n: u64) -> Option<&[u8]>
    ensures { MatchOption result (length bytes.now < n)
        (λ rest. (n ≤ length bytes.now) × (rest.now ≡ drop n bytes.now)) }
{
    if (bytes.len() as u64) < n {
        return None;
    }
    Some(&bytes[n as usize..])
}

/// Returns the token of a simple value: false, true or null.
fn simple_token(value: u64, whole: usize, following: &[u8]) -> Option<Token>
    requires { length following.now ≤ whole }
    ensures { MatchOption result (20 ≤ value → ¬ (value ≤ 22))
        (λ t. IsSimpleToken value (whole - length following.now) t) }
{
    match value {
        20 => Some(token_before(BOOL, 0, whole, following)),
        21 => Some(token_before(BOOL, 1, whole, following)),
        22 => Some(token_before(NULL, 0, whole, following)),
        _ => None,
    }
}

/// Returns the token of a link, whose tag was split off, and what follows its CID.
fn split_link(bytes: &[u8], whole: usize) -> Option<(Token, &[u8])>
    requires { length bytes.now ≤ whole }
    ensures tokens { SplitsLinkIfThere (λ p. p.0) (λ p. p.1.now) whole bytes.now result }
    ensures stands { StandsLinkIfThere (λ p. p.0) (λ p. p.1.now) whole bytes.now result }
{
    let (major, count, payload) = split_head(bytes)?;
    if major != 2 {
        return None;
    }
    let (zero, cid) = payload.split_first()?;
    if *zero != 0 {
        return None;
    }
    if count < 1 {
        return None;
    }
    let rest = after_payload(cid, count - 1)?;
    Some((token_before(LINK, count - 1, whole, cid), rest))
}

/// Returns the token of a link after a tag of this number, which must be 42, and what follows its
/// CID.
fn split_tagged(number: u64, bytes: &[u8], whole: usize) -> Option<(Token, &[u8])>
    requires { length bytes.now ≤ whole }
    ensures tokens { number ≡ 42
        → SplitsLinkIfThere (λ p. p.0) (λ p. p.1.now) whole bytes.now result }
    ensures stands { StandsTaggedIfThere (λ p. p.0) (λ p. p.1.now) number whole bytes.now result }
{
    if number != 42 {
        return None;
    }
    split_link(bytes, whole)
}

/// Returns the token of the head at the front, and what follows it and its payload.
#[inline(always)]
fn split_token(bytes: &[u8], whole: usize) -> Option<(Token, &[u8])>
    requires { length bytes.now ≤ whole }
    ensures tokens { SplitsTokenIfThere (λ p. p.0) (λ p. p.1.now) whole bytes.now result }
    ensures stands { StandsTokenIfThere (λ p. p.0) (λ p. p.1.now) whole bytes.now result }
{
    let (major, argument, following) = split_head(bytes)?;
    match major {
        0 => Some((token_before(INTEGER, argument, whole, following), following)),
        1 => Some((
            token_before(NEGATIVE, argument, whole, following),
            following,
        )),
        2 => {
            let rest = after_payload(following, argument)?;
            Some((token_before(BYTES, argument, whole, following), rest))
        }
        3 => {
            let rest = after_payload(following, argument)?;
            Some((token_before(STRING, argument, whole, following), rest))
        }
        4 => Some((token_before(LIST, argument, whole, following), following)),
        5 => Some((token_before(MAP, argument, whole, following), following)),
        6 => split_tagged(argument, following, whole),
        _ => {
            let token = simple_token(argument, whole, following)?;
            Some((token, following))
        }
    }
}

/// Writes the entry at the place, if there is room for it.
fn put_entry<T: TapeEntry>(tape: &mut [T], at: usize, entry: T)
    ensures { at < length tape.old → tape.new ≡ slice_set tape.old at entry }
{
    if at < tape.len() {
        tape[at] = entry;
    }
}

/// Writes the entries of the tokens that follow one another from the front, as those of a block do,
/// at the front of the tape, if they all fit. Returns how many there are.
fn put_tokens<T: TapeEntry>(bytes: &[u8], tape: &mut [T]) -> usize
    ensures few { result ≤ length bytes.now }
    ensures tokens { PutsTokens (T.made bytes.now) bytes.now tape.old tape.new result }
    ensures stands { PutsStanding (T.made bytes.now) bytes.now tape.old tape.new result }
{
    let mut count = 0;
    let mut rest = bytes;
    while let Some((token, following)) = split_token(rest, bytes.len()) {
        put_entry(tape, count, T::made(bytes, token));
        count += 1;
        rest = following;
    }
    count
}

/// Writes the entries of the tokens of the bytes at the front of the tape, if they all fit, and
/// else leaves the tape. Returns how many there are.
fn put_whole<T: TapeEntry>(bytes: &[u8], tape: &mut [T]) -> usize
    ensures few { result ≤ length bytes.now }
    ensures tokens { (t : Tree) → IsSpelling bytes.now t → (result ≡ length (tape_of t))
        × (tape.new ≡ with_tokens (map (T.made bytes.now) (tape_of t)) tape.old) }
    ensures stands { (tokens : List Token) × AreTokens bytes.now tokens
        × (result ≡ length tokens)
        × (tape.new ≡ with_tokens (map (T.made bytes.now) tokens) tape.old) }
{
    // A tape with a place for each byte has room, and needs no count first.
    if tape.len() < bytes.len() {
        let needed = put_tokens::<Token>(bytes, &mut []);
        if needed > tape.len() {
            return needed;
        }
    }
    put_tokens(bytes, tape)
}

/// Counts the tokens of a block, and writes their entries at the front of the tape if they all fit.
/// Returns the number of the block's kind, or that of the refusal, below 0.
pub(crate) fn put_entries<T: TapeEntry>(bytes: &[u8], tape: &mut [T], needed: &mut usize) -> i32
    ensures answer { (result, needed.new, tape.new)
        ≡ decoded_tape (λ t. map (T.made bytes.now) (tape_of t)) (decode bytes.now) tape.old }
    ensures few { needed.new ≤ length bytes.now }
{
    *needed = 0;
    match check_slice(bytes) {
        Ok(kind) => {
            *needed = put_whole(bytes, tape);
            kind_code(kind)
        }
        Err(refusal) => refusal_code(&refusal),
    }
}

/// Counts the tokens of a block, and writes them at the front of the tape if they all fit. Returns
/// the number of the block's kind, or that of the refusal, below 0.
pub fn put_tape(bytes: &[u8], tape: &mut [Token], needed: &mut usize) -> i32
    ensures answer { (result, needed.new, tape.new) ≡ tape_answer bytes.now tape.old }
    ensures few { needed.new ≤ length bytes.now }
{
    put_entries(bytes, tape, needed)
}

/// Counts and writes the tokens of a block as `put_tape` does, and returns the number of its kind.
/// For refused bytes it returns the number of the refusal, and counts and writes the tokens before
/// its place.
pub fn put_front_tape(
    bytes: &[u8],
    tape: &mut [Token],
    needed: &mut usize,
    place: &mut usize,
) -> i32
    ensures { IsTokensAnswer bytes.now tape.old tape.new needed.new place.new result }
{
    match judge_slice(bytes) {
        Ok(kind) => {
            *place = bytes.len();
            *needed = put_whole(bytes, tape);
            kind_code(kind)
        }
        Err(refused) => {
            *place = refused.place;
            *needed = put_whole(&bytes[..refused.place], tape);
            refusal_code(&refused.cause)
        }
    }
}
