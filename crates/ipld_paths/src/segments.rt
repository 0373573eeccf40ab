//! The segments of a path.

ghost use Rattle.std.specs.Prelude.{◌≡◌, [], ◌∷◌, ℕ, ◌^◌, ◌<◌, MatchOption, IfSome};
ghost use Rattle.std.specs.Fmt.{decimal};
ghost use Rattle.ipld_paths.specs.Paths.{segments};
ghost use Rattle.ipld_paths.specs.Parts.{EndsWith};

/// Returns the first segment of a path, and the path after it. `None` if the path has no segment.
/// Slashes separate segments, and empty pieces between slashes are skipped. Nothing is escaped, so
/// no segment has a slash.
pub fn next_segment(path: &str) -> Option<(&str, &str)>
    ensures first { MatchOption result (segments path.now ≡ [])
        (λ p. segments path.now ≡ p.0.now ∷ segments p.1.now) }
    ensures following { IfSome result (λ p. EndsWith path.now p.1.now) }
{
    let mut left = path;
    while let Some((segment, more)) = left.split_once('/') {
        if !segment.is_empty() {
            return Some((segment, more));
        }
        left = more;
    }
    if left.is_empty() {
        None
    } else {
        Some((left, ""))
    }
}

/// Returns the index that the segment spells in decimal. `None` if it has a sign or leading zeros,
/// or is not below 2^64.
pub(crate) fn index_of(segment: &str) -> Option<u64>
    ensures { MatchOption result ((n : ℕ) → n < 2 ^ 64 → ¬ (segment.now ≡ decimal n))
        (λ n. segment.now ≡ decimal n) }
{
    let digits = segment.as_bytes();
    let first = *digits.first()?;
    if first == b'+' {
        return None;
    }
    if first == b'0' && digits.len() > 1 {
        return None;
    }
    segment.parse::<u64>().ok()
}
