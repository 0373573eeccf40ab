//! Bytes as groups of bits, and back (RFC 4648).

ghost use Rattle.std.specs.Prelude.{◌≡◌, ◌+◌, ◌≤◌, ◌++◌, length};
ghost use Rattle.arrayvec.specs.ArrayVec.{array_vec_len};
ghost use Rattle.text_cid.specs.Alphabets.{IsBase};
ghost use Rattle.text_cid.specs.Rfc4648.{group_count, text_in_groups};
ghost use Rattle.text_cid.specs.Reads.{ReadsGroups};

use crate::error::CidTextError;
use crate::symbols::place_of;
use arrayvec::ArrayVec;

/// The most characters of a CID that is written, with the prefix.
pub const LONGEST_WRITTEN: usize = 139;

/// The room for what is read from at most 172 characters.
pub const READ_ROOM: usize = 346;

/// Appends the bytes in groups of `width` bits. Each group is the symbol at that index.
fn push_groups(width: u32, symbols: &[u8], bytes: &[u8], out: &mut ArrayVec<u8, LONGEST_WRITTEN>)
    requires base { IsBase width symbols.now }
    requires room { array_vec_len out.old + group_count width (length bytes.now) ≤ 139 }
    ensures { out.new.items ≡ out.old.items ++ text_in_groups width symbols.now bytes.now }
{
    // The bits that do not fill a group yet.
    let mut rest = 0;
    let mut held = 0;
    for &byte in bytes {
        rest = rest * 256 + u32::from(byte);
        held += 8;
        while held >= width {
            held -= width;
            let unit = 1u32 << held;
            out.push(symbols[(rest / unit) as usize]);
            rest %= unit;
        }
    }
    if held > 0 {
        out.push(symbols[(rest * (1u32 << (width - held))) as usize]);
    }
}

/// Appends five bytes as eight symbols of base32.
#[inline(always)]
fn push_eight(symbols: &[u8], five: &[u8; 5], out: &mut ArrayVec<u8, LONGEST_WRITTEN>)
    requires base { IsBase 5 symbols.now }
    requires room { array_vec_len out.old + 8 ≤ 139 }
    ensures { out.new.items ≡ out.old.items ++ text_in_groups 5 symbols.now five.now }
{
    let mut rest = 0;
    for &byte in five {
        rest = rest * 256 + u64::from(byte);
    }
    for place in 0..8u32 {
        let unit = 1u64 << (35 - 5 * place);
        out.push(symbols[(rest / unit) as usize]);
        rest %= unit;
    }
}

/// Appends the bytes in base32.
pub fn push_32(symbols: &[u8], bytes: &[u8], out: &mut ArrayVec<u8, LONGEST_WRITTEN>)
    requires base { IsBase 5 symbols.now }
    requires room { array_vec_len out.old + group_count 5 (length bytes.now) ≤ 139 }
    ensures { out.new.items ≡ out.old.items ++ text_in_groups 5 symbols.now bytes.now }
{
    let mut rest = bytes;
    while let Some((five, following)) = rest.split_first_chunk::<5>() {
        push_eight(symbols, five, out);
        rest = following;
    }
    push_groups(5, symbols, rest, out);
}

/// Returns the bytes that the text spells.
#[tactic(auto, using(crate::proofs::GroupReads::other_symbol))]
pub fn read_groups(
    width: u32,
    symbols: &[u8],
    text: &[u8],
) -> Result<ArrayVec<u8, READ_ROOM>, CidTextError>
    requires base { IsBase width symbols.now }
    requires room { length text.now ≤ 172 }
    ensures { ReadsGroups width symbols.now text.now result }
{
    let mut bytes = ArrayVec::new();
    // The bits that do not fill a byte yet.
    let mut rest = 0;
    let mut held = 0;
    for &symbol in text {
        let Some(place) = place_of(symbols, symbol) else {
            return Err(CidTextError::InvalidCharacter);
        };
        rest = rest * 2u32.pow(width) + u32::from(place);
        held += width;
        if held >= 8 {
            held -= 8;
            let unit = 2u32.pow(held);
            bytes.push((rest / unit) as u8);
            rest %= unit;
        }
    }
    if held >= width {
        return Err(CidTextError::InvalidLength);
    }
    if rest != 0 {
        return Err(CidTextError::TrailingBits);
    }
    Ok(bytes)
}
