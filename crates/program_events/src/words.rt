//! The arguments of `event`.

ghost use Rattle.std.specs.Prelude.{◌≡◌, ◌≢◌, codes, map, string_bytes, option_map, MatchOption, Option, List, ℕ};
ghost use Rattle.program_events.specs.Words.{IsEvent};

/// The file whose frames are asked for, `None` for standard input.
#[derive(Clone, Copy)]
pub struct EventWords<'a> {
    pub file: Option<&'a str>,
}

/// Returns the arguments if the first is `event`, with this file.
fn following<'a>(word: &str, file: Option<&'a str>) -> Option<EventWords<'a>>
    ensures { MatchOption result (word.now ≢ codes "event")
        (λ p. (word.now ≡ codes "event") × (p.file ≡ file.entry)) }
{
    if word != "event" {
        return None;
    }
    Some(EventWords { file })
}

/// Parses the arguments `event [FILE]`. They are not a command of `program_dagcar`: see
/// `laws::event_is_no_command`.
pub fn event_of(args: &[String]) -> Option<EventWords<'_>>
    ensures { MatchOption result
        ((file : Option (List ℕ)) → ¬ IsEvent (map string_bytes args.now) file)
        (λ p. IsEvent (map string_bytes args.now) (option_map (λ s. s.now) p.file)) }
{
    match args {
        [word] => following(word.as_str(), None),
        [word, file] => following(word.as_str(), Some(file.as_str())),
        _ => None,
    }
}
