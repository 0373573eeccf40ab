//! The words of `inspect`.

ghost use Rattle.std.specs.Prelude.{[], ◌∷◌, map, string_bytes, option_map, MatchOption, Option, List, ℕ};
ghost use Rattle.program_inspect.specs.Words.{IsInspect};
ghost use Rattle.program_inspect.specs.declared.inspect.Form.{Form};

use crate::inspect::Form;

/// The form of the output, and the file. `None` for standard input.
#[derive(Clone, Copy)]
pub struct Inspection<'a> {
    pub form: Form,
    pub file: Option<&'a str>,
}

/// Reads the word alone.
fn of_word<'a>(word: &str) -> Option<Inspection<'a>>
    ensures { MatchOption result
        ((form : Form) (file : Option (List ℕ)) → ¬ IsInspect (word.now ∷ []) form file)
        (λ p. IsInspect (word.now ∷ []) p.form (option_map (λ s. s.now) p.file)) }
{
    if word != "inspect" {
        return None;
    }
    Some(Inspection {
        form: Form::Lines,
        file: None,
    })
}

/// Reads the word, and an option or a file.
fn of_two<'a>(word: &str, second: &'a str) -> Option<Inspection<'a>>
    ensures { MatchOption result
        ((form : Form) (file : Option (List ℕ)) → ¬ IsInspect (word.now ∷ second.now ∷ []) form file)
        (λ p. IsInspect (word.now ∷ second.now ∷ []) p.form (option_map (λ s. s.now) p.file)) }
{
    if word != "inspect" {
        return None;
    }
    if second == "--json" {
        return Some(Inspection {
            form: Form::Json,
            file: None,
        });
    }
    Some(Inspection {
        form: Form::Lines,
        file: Some(second),
    })
}

/// Reads the word, an option and a file.
fn of_three<'a>(word: &str, option: &str, file: &'a str) -> Option<Inspection<'a>>
    ensures { MatchOption result
        ((form : Form) (it : Option (List ℕ))
        → ¬ IsInspect (word.now ∷ option.now ∷ file.now ∷ []) form it)
        (λ p. IsInspect (word.now ∷ option.now ∷ file.now ∷ []) p.form
        (option_map (λ s. s.now) p.file)) }
{
    if word != "inspect" || option != "--json" {
        return None;
    }
    Some(Inspection {
        form: Form::Json,
        file: Some(file),
    })
}

/// Returns what the words `inspect [--json] [FILE]` ask.
pub fn inspection_of(args: &[String]) -> Option<Inspection<'_>>
    ensures { MatchOption result
        ((form : Form) (file : Option (List ℕ)) → ¬ IsInspect (map string_bytes args.now) form file)
        (λ p. IsInspect (map string_bytes args.now) p.form (option_map (λ s. s.now) p.file)) }
{
    match args {
        [word] => of_word(word.as_str()),
        [word, second] => of_two(word.as_str(), second.as_str()),
        [word, option, file] => of_three(word.as_str(), option.as_str(), file.as_str()),
        _ => None,
    }
}
