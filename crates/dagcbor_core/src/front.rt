//! Splits heads off bytes that are all in memory.

ghost use Rattle.std.specs.Prelude.{◌≡◌, ◌<◌, ◌≤◌, length, MatchOption};
ghost use Rattle.std.specs.Int.{bytes_high_first};
ghost use Rattle.dagcbor_core.specs.Causes.{argument_width, least_argument};
ghost use Rattle.dagcbor_core.specs.Splits.{SplitsNumber, SplitsHead, BeginsWithHead};

#[inline(always)]
fn split_one(bytes: &[u8]) -> Option<(u64, &[u8])>
    ensures { MatchOption result (length bytes.now < 1)
        (λ p. SplitsNumber 1 bytes.now p.0 p.1.now) }
{
    let (number, rest) = bytes.split_first()?;
    Some((u64::from(*number), rest))
}

/// Returns the number whose big-endian bytes these are.
#[inline(always)]
#[tactic(auto, using(std::proofs::lemmas::Nat::be_bytes_2))]
fn high_first_two(bytes: [u8; 2]) -> u16
    ensures { bytes_high_first 2 result ≡ bytes }
{
    u16::from_be_bytes(bytes)
}

#[inline(always)]
fn split_two(bytes: &[u8]) -> Option<(u64, &[u8])>
    ensures { MatchOption result (length bytes.now < 2)
        (λ p. SplitsNumber 2 bytes.now p.0 p.1.now) }
{
    let (front, rest) = bytes.split_first_chunk::<2>()?;
    Some((u64::from(high_first_two(*front)), rest))
}

/// Returns the number whose big-endian bytes these are.
#[inline(always)]
#[tactic(auto, using(std::proofs::lemmas::Nat::be_bytes_4))]
fn high_first_four(bytes: [u8; 4]) -> u32
    ensures { bytes_high_first 4 result ≡ bytes }
{
    u32::from_be_bytes(bytes)
}

#[inline(always)]
fn split_four(bytes: &[u8]) -> Option<(u64, &[u8])>
    ensures { MatchOption result (length bytes.now < 4)
        (λ p. SplitsNumber 4 bytes.now p.0 p.1.now) }
{
    let (front, rest) = bytes.split_first_chunk::<4>()?;
    Some((u64::from(high_first_four(*front)), rest))
}

/// Returns the number whose big-endian bytes these are.
#[inline(always)]
fn high_first_eight(bytes: [u8; 8]) -> u64
    ensures { bytes_high_first 8 result ≡ bytes }
{
    u64::from_be_bytes(bytes)
}

#[inline(always)]
fn split_eight(bytes: &[u8]) -> Option<(u64, &[u8])>
    ensures { MatchOption result (length bytes.now < 8)
        (λ p. SplitsNumber 8 bytes.now p.0 p.1.now) }
{
    let (front, rest) = bytes.split_first_chunk::<8>()?;
    Some((high_first_eight(*front), rest))
}

/// Splits off the argument that this additional information, from 24 to 27, announces.
#[inline(always)]
fn split_argument(information: u8, bytes: &[u8]) -> Option<(u64, &[u8])>
    requires low { 24 ≤ information }
    requires high { information ≤ 27 }
    ensures { MatchOption result (length bytes.now < argument_width information)
        (λ p. SplitsNumber (argument_width information) bytes.now p.0 p.1.now) }
{
    match information {
        24 => split_one(bytes),
        25 => split_two(bytes),
        26 => split_four(bytes),
        _ => split_eight(bytes),
    }
}

/// Returns the least argument that needs the width of this additional information, from 24 to 27.
pub fn least_argument(information: u8) -> u64
    requires low { 24 ≤ information }
    requires high { information ≤ 27 }
    ensures { result ≡ least_argument (argument_width information) }
{
    match information {
        24 => 24,
        25 => 1 << 8,
        26 => 1 << 16,
        _ => 1 << 32,
    }
}

/// Returns the major type and the argument of the head at the front, and the bytes after it. `None`
/// if the bytes do not begin with a head in shortest form.
#[inline(always)]
pub fn split_head(bytes: &[u8]) -> Option<(u8, u64, &[u8])>
    ensures { MatchOption result (¬ BeginsWithHead bytes.now)
        (λ h. SplitsHead bytes.now h.0 h.1 h.2.now) }
{
    let (front, following) = bytes.split_first()?;
    let first = *front;
    let (major, information) = (first / 32, first % 32);
    if information < 24 {
        return Some((major, u64::from(information), following));
    }
    if information > 27 {
        return None;
    }
    let (argument, rest) = split_argument(information, following)?;
    if argument < least_argument(information) {
        return None;
    }
    Some((major, argument, rest))
}
