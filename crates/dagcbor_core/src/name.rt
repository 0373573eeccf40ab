//! Names and messages in refusals.

ghost use Rattle.std.specs.Prelude.{◌≡◌, ◌≤◌, length};
ghost use Rattle.dagcbor_core.specs.Names.{Names, name_bytes};
ghost use Rattle.dagcbor_core.specs.Messages.{Says, message_bytes};

use crate::text::Text;
use std::fmt;
use std::fmt::{Debug, Display, Formatter};

/// What was being read, or a message: a text of at most 31 bytes, stored inline.
#[derive(Clone, Copy, PartialEq, Eq)]
pub struct Name {
    text: Text<31>,
}

/// Why a value was not written: a text of at most 63 bytes, stored inline.
#[derive(Clone, Copy, PartialEq, Eq)]
pub struct Message {
    text: Text<63>,
}

impl Name {
    /// Keeps the text, or its longest beginning that has at most 31 bytes and ends at a character
    /// boundary.
    pub fn new(text: &str) -> Name
        ensures { Names result text.now }
    {
        Name {
            text: Text::new(text),
        }
    }

    /// Returns the text, of at most 31 bytes.
    pub fn as_str(&self) -> &str
        ensures { result.now ≡ name_bytes self.now }
    {
        self.text.as_str()
    }
}

impl Message {
    /// Keeps the text, or its longest beginning that has at most 63 bytes and ends at a character
    /// boundary.
    pub fn new(text: &str) -> Message
        ensures kept { Says result text.now }
        ensures whole { length text.now ≤ 63 → message_bytes result ≡ text.now }
    {
        Message {
            text: Text::new(text),
        }
    }

    /// Returns the text, of at most 63 bytes.
    pub fn as_str(&self) -> &str
        ensures { result.now ≡ message_bytes self.now }
    {
        self.text.as_str()
    }
}

/// Formats the text as a `&str`.
impl Debug for Name {
    fn fmt<W: fmt::Write>(&self, f: &mut Formatter<W>) -> fmt::Result {
        Debug::fmt(&self.text, f)
    }
}

impl Display for Name {
    fn fmt<W: fmt::Write>(&self, f: &mut Formatter<W>) -> fmt::Result {
        Display::fmt(&self.text, f)
    }
}

/// Formats the text as a `&str`.
impl Debug for Message {
    fn fmt<W: fmt::Write>(&self, f: &mut Formatter<W>) -> fmt::Result {
        Debug::fmt(&self.text, f)
    }
}

impl Display for Message {
    fn fmt<W: fmt::Write>(&self, f: &mut Formatter<W>) -> fmt::Result {
        Display::fmt(&self.text, f)
    }
}
