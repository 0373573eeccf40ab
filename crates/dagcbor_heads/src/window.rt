//! What a reader over a buffered source shows.

ghost use Rattle.std.specs.Prelude.{◌≡◌, ◌+◌, ◌<◌, ◌≤◌, ◌++◌, ◌∷◌, ◌/◌, [], min, length, take, drop, List, ℕ};
ghost use Rattle.std.specs.Prelude.{IfSome, MatchResult, MatchOption, MatchBool, Some};
ghost use Rattle.dagcbor_core.specs.Head.{head};
ghost use Rattle.dagcbor_heads.specs.IoReading.{Refills, bytes_told, BeginsWithHeadOf, TakesHeadOf};

use crate::tally::Tally;
use dagcbor_core::split_head;
use std::io;
use std::io::BufRead;
use std::marker::Model;

/// The most bytes that are copied at once.
const WINDOW: usize = 1024;

/// Copies of bytes that a source still has. It knows how many of them were taken, how many after
/// these are shown, how often the source faulted, and how many bytes were looked at.
#[derive(Drop)]
pub(crate) struct Window {
    bytes: [u8; WINDOW],
    end: usize,
    start: usize,
    shown: usize,
    faults: Tally,
    looked: Tally,
}

impl Model for Window {
    ghost use Rattle.std.specs.Prelude.{◌≤◌, ◌+◌, length, take, drop};
    ghost use Rattle.dagcbor_heads.specs.IoReading.{Windowed};

    ghost Value = { Windowed };

    ghost view = { λ s. record {
      copies = take s.end s.bytes;
      taken = s.start;
      shown = take s.shown (drop s.start (take s.end s.bytes));
      faults = s.faults.count;
      looked = s.looked.count;
    } };

    ghost invariant = { λ s. (s.end ≤ 1024) × (s.end ≤ length s.bytes) × (s.start + s.shown ≤ s.end) };
}

impl Window {
    /// Returns an empty window, with no fault counted.
    pub(crate) fn new() -> Window
        ensures { result ≡ record { copies = []; taken = 0; shown = []; faults = 0; looked = 0 } }
    {
        Window {
            bytes: [0; WINDOW],
            end: 0,
            start: 0,
            shown: 0,
            faults: Tally::new(),
            looked: Tally::new(),
        }
    }

    /// Returns how many bytes were taken that the source still has.
    pub(crate) fn taken(&self) -> usize
        ensures value { result ≡ self.now.taken }
        ensures most { result ≤ length self.now.copies }
    {
        self.start
    }

    /// Shows at most `want` of the next bytes: no byte only at the end, or if `want` is 0. It asks
    /// the source only if all copied bytes were taken; the source then loses these bytes. A fault
    /// is counted.
    pub(crate) fn look<R: BufRead>(&mut self, source: &mut R, want: usize) -> io::Result<()>
        ensures shown { MatchResult result
            (λ _. Refills (bytes_told self.old.copies self.old.taken (R.remaining source.old)
            (R.consumable_len source.old))
            (bytes_told self.new.copies self.new.taken (R.remaining source.new)
            (R.consumable_len source.new)) want self.new.shown
            × (self.new.faults ≡ self.old.faults)
            × (self.new.looked ≡ self.old.looked + min want (length self.new.shown)))
            (λ _. IfSome (bytes_told self.old.copies self.old.taken (R.remaining source.old)
            (R.consumable_len source.old))
            (λ b. bytes_told self.new.copies self.new.taken (R.remaining source.new)
            (R.consumable_len source.new) ≡ Some b)
            × (self.new.shown ≡ []) × (self.new.faults ≡ self.old.faults + 1)
            × (self.new.looked ≡ self.old.looked)) }
    {
        self.prepare(source)?;
        self.show(want);
        Ok(())
    }

    /// If all copied bytes were taken, copies some of the next bytes: no byte only at the end.
    #[inline(always)]
    fn prepare<R: BufRead>(&mut self, source: &mut R) -> io::Result<()>
        ensures ready { MatchResult result
            (λ _. IfSome (bytes_told self.old.copies self.old.taken (R.remaining source.old)
            (R.consumable_len source.old))
            (λ b. (bytes_told self.new.copies self.new.taken (R.remaining source.new)
            (R.consumable_len source.new) ≡ Some b)
            × (length (drop self.new.taken self.new.copies) ≡ 0 → b ≡ []))
            × (self.new.taken ≤ length self.new.copies)
            × (self.new.faults ≡ self.old.faults) × (self.new.looked ≡ self.old.looked))
            (λ _. IfSome (bytes_told self.old.copies self.old.taken (R.remaining source.old)
            (R.consumable_len source.old))
            (λ b. bytes_told self.new.copies self.new.taken (R.remaining source.new)
            (R.consumable_len source.new) ≡ Some b)
            × (self.new.shown ≡ []) × (self.new.faults ≡ self.old.faults + 1)
            × (self.new.looked ≡ self.old.looked)) }
    {
        if self.start < self.end {
            return Ok(());
        }
        self.refill(source)
    }

    /// Consumes from the source what was taken, and copies some of its next bytes: no byte only at
    /// the end.
    #[cold]
    #[inline(never)]
    fn refill<R: BufRead>(&mut self, source: &mut R) -> io::Result<()>
        requires { self.old.taken ≡ length self.old.copies }
        ensures filled { MatchResult result
            (λ _. IfSome (bytes_told self.old.copies self.old.taken (R.remaining source.old)
            (R.consumable_len source.old))
            (λ b. (bytes_told self.new.copies 0 (R.remaining source.new)
            (R.consumable_len source.new) ≡ Some b) × (length self.new.copies ≡ 0 → b ≡ []))
            × (self.new.taken ≡ 0) × (self.new.shown ≡ [])
            × (self.new.faults ≡ self.old.faults) × (self.new.looked ≡ self.old.looked))
            (λ _. IfSome (bytes_told self.old.copies self.old.taken (R.remaining source.old)
            (R.consumable_len source.old))
            (λ b. bytes_told [] 0 (R.remaining source.new)
            (R.consumable_len source.new) ≡ Some b)
            × (self.new ≡ record {
              copies = [];
              taken = 0;
              shown = [];
              faults = self.old.faults + 1;
              looked = self.old.looked;
            })) }
    {
        source.consume(self.start);
        self.start = 0;
        self.end = 0;
        self.shown = 0;
        match source.fill_buf() {
            Ok(bytes) => {
                self.end = copy_front(bytes, &mut self.bytes);
                Ok(())
            }
            Err(fault) => {
                self.faults.add(1);
                Err(fault)
            }
        }
    }

    /// Shows at most `want` of the bytes that were copied and not taken.
    fn show(&mut self, want: usize)
        ensures { self.new ≡ record {
          copies = self.old.copies;
          taken = self.old.taken;
          shown = take want (drop self.old.taken self.old.copies);
          faults = self.old.faults;
          looked = self.old.looked + min want (length (drop self.old.taken self.old.copies));
        } }
    {
        self.shown = (self.end - self.start).min(want);
        self.looked.add(self.shown);
    }

    pub(crate) fn shown(&self) -> &[u8]
        ensures { result.now ≡ self.now.shown }
    {
        &self.bytes[self.start..self.start + self.shown]
    }

    /// Takes n of the bytes that are shown. No byte is shown after that.
    pub(crate) fn advance(&mut self, n: usize)
        requires { n ≤ length self.old.shown }
        ensures { self.new ≡ record {
          copies = self.old.copies;
          taken = self.old.taken + n;
          shown = [];
          faults = self.old.faults;
          looked = self.old.looked + n;
        } }
    {
        self.start += n;
        self.shown = 0;
        self.looked.add(n);
    }

    /// Returns the bytes that were copied and not taken.
    #[inline(always)]
    pub(crate) fn at_hand(&self) -> &[u8]
        ensures bytes { result.now ≡ drop self.now.taken self.now.copies }
        ensures most { self.now.taken ≤ length self.now.copies }
    {
        &self.bytes[..self.end][self.start..]
    }

    /// Takes the next n bytes, if they were copied, else returns false. Does not ask the source.
    #[inline(always)]
    pub(crate) fn take(&mut self, n: usize) -> bool
        ensures most { self.old.taken ≤ length self.old.copies }
        ensures taken { MatchBool result
            ((n ≤ length (drop self.old.taken self.old.copies)) × (self.new ≡ record {
              copies = self.old.copies;
              taken = self.old.taken + n;
              shown = [];
              faults = self.old.faults;
              looked = self.old.looked + n;
            }))
            (self.new ≡ self.old) }
    {
        if self.end - self.start < n {
            return false;
        }
        self.start += n;
        self.shown = 0;
        self.looked.add(n);
        true
    }

    /// Takes the head at the front, if all of it was copied, and returns its major type, its
    /// argument and its first byte. Does not ask the source.
    pub(crate) fn take_head(&mut self) -> Option<(u8, u64, u8)>
        ensures { MatchOption result
            (self.new ≡ self.old)
            (λ h. TakesHeadOf self.old h.0 h.1 h.2 self.new) }
    {
        let (major, argument, first, count) = whole_head(self.at_hand())?;
        self.start += count;
        self.shown = 0;
        self.looked.add(count);
        Some((major, argument, first))
    }
}

/// Returns the major type, the argument, the first byte and the length of the head at the front, if
/// all of it is there.
#[inline(always)]
fn whole_head(bytes: &[u8]) -> Option<(u8, u64, u8, usize)>
    ensures { IfSome result (λ h. BeginsWithHeadOf bytes.now h.0 h.1 h.2 h.3) }
{
    let (first, _following) = bytes.split_first()?;
    let first = *first;
    let (major, argument, rest) = split_head(bytes)?;
    Some((major, argument, first, bytes.len() - rest.len()))
}

/// Copies as many of the bytes as there is room for, and returns how many.
fn copy_front(bytes: &[u8], room: &mut [u8]) -> usize
    ensures count { result ≡ min (length bytes.now) (length room.old) }
    ensures copied { take result room.new ≡ take result bytes.now }
    ensures room { length room.new ≡ length room.old }
{
    let count = bytes.len().min(room.len());
    room[..count].copy_from_slice(&bytes[..count]);
    count
}
