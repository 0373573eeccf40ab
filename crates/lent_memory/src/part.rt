//! The lengths of strings and links, and puts of them at a place that has room for them.

ghost use Rattle.std.specs.Prelude.{◌≡◌, ◌+◌, ◌≤◌, ◌∷◌, ◌++◌, length, suc, ℕ};
ghost use Rattle.dagcbor_core.specs.Head.{head};
ghost use Rattle.lent_memory.specs.Puts.{PutsAt, string_form, link_form};

use crate::place::{head_length, put, put_head};

/// Returns how many bytes a string of these bytes has, with its head.
#[inline(always)]
pub fn string_length(bytes: &[u8]) -> usize
    ensures few { result ≤ 9 + length bytes.now }
    ensures length { (major : ℕ) → result ≡ length (string_form major bytes.now) }
{
    head_length(bytes.len() as u64) + bytes.len()
}

/// Returns how many bytes a link of this CID has.
#[inline(always)]
pub fn link_length(cid: &[u8]) -> usize
    ensures few { result ≤ 12 + length cid.now }
    ensures length { result ≡ length (link_form cid.now) }
{
    2 + head_length(1 + cid.len() as u64) + 1 + cid.len()
}

/// Puts a string of the major type at the place, and returns the place after it.
#[inline(always)]
pub fn put_string(out: &mut [u8], at: usize, major: u8, bytes: &[u8]) -> usize
    requires small { major ≤ 7 }
    requires room { at + length (string_form major bytes.now) ≤ length out.old }
    ensures { PutsAt (string_form major bytes.now) at out.old out.new result }
{
    let following = put_head(out, at, major, bytes.len() as u64);
    put(out, following, bytes)
}

/// Puts a link of this CID at the place, and returns the place after it.
#[inline(always)]
pub fn put_link(out: &mut [u8], at: usize, cid: &[u8]) -> usize
    requires { at + length (link_form cid.now) ≤ length out.old }
    ensures { PutsAt (link_form cid.now) at out.old out.new result }
{
    let tagged = put(out, at, &[0xd8, 0x2a]);
    let following = put_head(out, tagged, 2, 1 + cid.len() as u64);
    let zero = put(out, following, &[0]);
    put(out, zero, cid)
}
