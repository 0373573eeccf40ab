//! Puts bytes and heads at a place that has room for them.

ghost use Rattle.std.specs.Prelude.{◌≡◌, ◌+◌, ◌≤◌, length, ℕ};
ghost use Rattle.dagcbor_core.specs.Head.{head};
ghost use Rattle.lent_memory.specs.Puts.{PutsAt};

/// Puts the bytes at the place, and returns the place after them.
#[inline(always)]
pub fn put(out: &mut [u8], at: usize, bytes: &[u8]) -> usize
    requires { at + length bytes.now ≤ length out.old }
    ensures { PutsAt bytes.now at out.old out.new result }
{
    let end = at + bytes.len();
    out[at..end].copy_from_slice(bytes);
    end
}

/// Puts the shortest head at the place, and returns the place after it. In each branch the length
/// of the head is known, so no copy is called.
#[inline(always)]
#[tactic(auto, unfolding(dagcbor_core::specs::Head::head))]
pub fn put_head(out: &mut [u8], at: usize, major: u8, argument: u64) -> usize
    requires small { major ≤ 7 }
    requires room { at + length (head major argument) ≤ length out.old }
    ensures { PutsAt (head major argument) at out.old out.new result }
{
    let first = 32 * major;
    if argument < 24 {
        put(out, at, &[first + argument as u8])
    } else if argument < 1 << 8 {
        put(out, at, &[first + 24, argument as u8])
    } else if argument < 1 << 16 {
        let [a, b] = (argument as u16).to_be_bytes();
        put(out, at, &[first + 25, a, b])
    } else if argument < 1 << 32 {
        let [a, b, c, d] = (argument as u32).to_be_bytes();
        put(out, at, &[first + 26, a, b, c, d])
    } else {
        let [a, b, c, d, e, f, g, h] = argument.to_be_bytes();
        put(out, at, &[first + 27, a, b, c, d, e, f, g, h])
    }
}

/// Returns how many bytes the shortest head of this argument has.
#[inline(always)]
#[tactic(auto, unfolding(dagcbor_core::specs::Head::head))]
pub fn head_length(argument: u64) -> usize
    ensures few { result ≤ 9 }
    ensures length { (major : ℕ) → result ≡ length (head major argument) }
{
    if argument < 24 {
        1
    } else if argument < 1 << 16 {
        if argument < 1 << 8 { 2 } else { 3 }
    } else if argument < 1 << 32 {
        5
    } else {
        9
    }
}
