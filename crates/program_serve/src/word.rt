//! The words that requests begin with.

ghost use Rattle.std.specs.Prelude.{◌≡◌, ◌≢◌, MatchOption};
ghost use Rattle.program_serve.specs.Requests.{word_text};
ghost use Rattle.program_serve.specs.declared.word.Word.{Word};

/// The word that a request begins with.
#[derive(Clone, Copy, Debug)]
pub enum Word {
    Get,
    Has,
    Put,
    Add,
    Remove,
    Next,
    Count,
    Roots,
    AddRoot,
    DropRoot,
    Commit,
    Rollback,
    Import,
    Export,
}

/// Returns the word that the text is.
pub fn word_of(text: &str) -> Option<Word>
    ensures { MatchOption result ((word : Word) → text.now ≢ word_text word)
        (λ word. text.now ≡ word_text word) }
{
    match text {
        "get" => Some(Word::Get),
        "has" => Some(Word::Has),
        "put" => Some(Word::Put),
        "add" => Some(Word::Add),
        "remove" => Some(Word::Remove),
        "next" => Some(Word::Next),
        "count" => Some(Word::Count),
        "roots" => Some(Word::Roots),
        "add-root" => Some(Word::AddRoot),
        "drop-root" => Some(Word::DropRoot),
        "commit" => Some(Word::Commit),
        "rollback" => Some(Word::Rollback),
        "import" => Some(Word::Import),
        "export" => Some(Word::Export),
        _ => None,
    }
}
