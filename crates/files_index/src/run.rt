//! Runs: entries with the same key, one after another.

ghost use Rattle.std.specs.Prelude.{◌≡◌, ◌==◌, ◌∷◌, [], ◌<◌, ◌≤◌, length, take_while, MatchOption};
ghost use Rattle.files_index.specs.Index.{runs};
ghost use Rattle.files_index.specs.Keys.{key_of};

use crate::entry::Entry;

/// The key that entries are grouped by.
#[derive(Clone, Copy)]
pub(crate) enum Key {
    HashCode,
    Width,
}

/// The first run of entries: their key, the entries, and those after them.
#[derive(Clone, Copy)]
pub(crate) struct Front<'a> {
    pub key: u64,
    pub entries: &'a [Entry],
    pub following: &'a [Entry],
}

/// The length of an offset, in bytes.
const OFFSET_LENGTH: u64 = 8;

/// Returns the key of an entry.
fn key_of(key: Key, entry: &Entry) -> u64
    ensures { result ≡ key_of key entry.now }
{
    match key {
        Key::HashCode => entry.hash_code(),
        Key::Width => entry.digest().len() as u64 + OFFSET_LENGTH,
    }
}

/// Returns how many entries at the front have this key.
fn count_of(key: Key, number: u64, entries: &[Entry]) -> usize
    ensures count { result ≡ length (take_while (λ e. key_of key e == number) entries.now) }
    ensures within { result ≤ length entries.now }
{
    entries
        .iter()
        .take_while(|e| key_of(key, e) == number)
        .count()
}

/// Returns the first run of the entries. `None` if there are no entries.
pub(crate) fn split_run(key: Key, entries: &[Entry]) -> Option<Front<'_>>
    ensures { MatchOption result (entries.now ≡ []) (λ f. (length f.following.now < length entries.now)
        × (runs (key_of key) entries.now ≡ (f.key, f.entries.now) ∷ runs (key_of key) f.following.now)) }
{
    let [first, others @ ..] = entries else {
        return None;
    };
    let number = key_of(key, first);
    let (entries, following) = entries.split_at(1 + count_of(key, number, others));
    Some(Front {
        key: number,
        entries,
        following,
    })
}

/// Returns how many runs the entries have.
pub(crate) fn count_runs(key: Key, entries: &[Entry]) -> usize
    ensures { result ≡ length (runs (key_of key) entries.now) }
{
    let mut rest = entries;
    let mut count = 0;
    while let Some(front) = split_run(key, rest) {
        rest = front.following;
        count += 1;
    }
    count
}
