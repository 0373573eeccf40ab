//! The arguments of `commit`, `record-proof` and `records --json`.

ghost use Rattle.std.specs.Prelude.{[], ◌∷◌, map, string_bytes, option_map, MatchOption, Option, List, ℕ};
ghost use Rattle.program_records.specs.CommitWords.{AreCommitWords};
ghost use Rattle.program_records.specs.declared.commit_words.CommitAsked.{CommitAsked};

/// A question about a repository.
#[derive(Clone, Copy)]
pub enum CommitAsked<'a> {
    /// The fields of its commit.
    Commit,
    /// The CAR file that proves the record of the key that this word names.
    Proof(&'a str),
    /// The data of all records, as DAG-JSON.
    Records,
}

/// A question, and the file that it is about: `None` for standard input.
#[derive(Clone, Copy)]
pub struct CommitWords<'a> {
    pub asked: CommitAsked<'a>,
    pub file: Option<&'a str>,
}

/// Parses one argument.
fn of_word<'a>(word: &str) -> Option<CommitWords<'a>>
    ensures { MatchOption result
        ((asked : CommitAsked) (file : Option (List ℕ)) → ¬ AreCommitWords (word.now ∷ []) asked file)
        (λ p. AreCommitWords (word.now ∷ []) p.asked (option_map (λ s. s.now) p.file)) }
{
    if word != "commit" {
        return None;
    }
    Some(CommitWords {
        asked: CommitAsked::Commit,
        file: None,
    })
}

/// Parses two arguments: the word, and a file, a key or an option.
fn of_two<'a>(word: &str, second: &'a str) -> Option<CommitWords<'a>>
    ensures { MatchOption result
        ((asked : CommitAsked) (file : Option (List ℕ))
        → ¬ AreCommitWords (word.now ∷ second.now ∷ []) asked file)
        (λ p. AreCommitWords (word.now ∷ second.now ∷ []) p.asked
        (option_map (λ s. s.now) p.file)) }
{
    match word {
        "commit" => Some(CommitWords {
            asked: CommitAsked::Commit,
            file: Some(second),
        }),
        "record-proof" => Some(CommitWords {
            asked: CommitAsked::Proof(second),
            file: None,
        }),
        "records" if second == "--json" => Some(CommitWords {
            asked: CommitAsked::Records,
            file: None,
        }),
        _ => None,
    }
}

/// Parses three arguments: the word, a key or an option, and a file.
fn of_three<'a>(word: &str, second: &'a str, file: &'a str) -> Option<CommitWords<'a>>
    ensures { MatchOption result
        ((asked : CommitAsked) (it : Option (List ℕ))
        → ¬ AreCommitWords (word.now ∷ second.now ∷ file.now ∷ []) asked it)
        (λ p. AreCommitWords (word.now ∷ second.now ∷ file.now ∷ []) p.asked
        (option_map (λ s. s.now) p.file)) }
{
    match word {
        "record-proof" => Some(CommitWords {
            asked: CommitAsked::Proof(second),
            file: Some(file),
        }),
        "records" if second == "--json" => Some(CommitWords {
            asked: CommitAsked::Records,
            file: Some(file),
        }),
        _ => None,
    }
}

/// Parses the arguments `commit [FILE]`, `record-proof KEY [FILE]` or `records --json [FILE]`.
pub fn commit_words_of(args: &[String]) -> Option<CommitWords<'_>>
    ensures { MatchOption result
        ((asked : CommitAsked) (file : Option (List ℕ))
        → ¬ AreCommitWords (map string_bytes args.now) asked file)
        (λ p. AreCommitWords (map string_bytes args.now) p.asked
        (option_map (λ s. s.now) p.file)) }
{
    match args {
        [word] => of_word(word.as_str()),
        [word, second] => of_two(word.as_str(), second.as_str()),
        [word, key, file] => of_three(word.as_str(), key.as_str(), file.as_str()),
        _ => None,
    }
}
