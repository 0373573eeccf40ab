//! The bases in which the text of a CID is read.

/// A base of multibase.
#[derive(Clone, Copy, Debug, PartialEq, Eq)]
pub enum Base {
    /// Hexadecimal with lower-case letters, after `f`.
    Base16Lower,
    /// Base32 with lower-case letters, after `b`.
    Base32Lower,
    /// Base32 with upper-case letters, after `B`.
    Base32Upper,
    /// Base58btc, after `z`.
    Base58Btc,
}
