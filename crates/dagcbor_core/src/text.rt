//! Short texts stored inline. Names and messages are made of them.

ghost use Rattle.std.specs.Prelude.{◌≡◌};
ghost use Rattle.dagcbor_core.specs.Texts.{IsKept, text_bytes};

use arrayvec::ArrayString;
use std::fmt;
use std::fmt::{Debug, Display, Formatter};

/// A text of at most `MOST` bytes, stored inline.
#[derive(Clone, Copy, PartialEq, Eq)]
pub(crate) struct Text<const MOST: usize> {
    text: ArrayString<MOST>,
}

impl<const MOST: usize> Text<MOST> {
    /// Keeps the text, or its longest beginning that has at most `MOST` bytes and ends at a
    /// character boundary.
    pub(crate) fn new(text: &str) -> Text<MOST>
        ensures { IsKept MOST (text_bytes result) text.now }
    {
        let end = text.floor_char_boundary(MOST);
        let mut short = ArrayString::new();
        short.push_str(&text[..end]);
        Text { text: short }
    }

    pub(crate) fn as_str(&self) -> &str
        ensures { result.now ≡ text_bytes self.now }
    {
        self.text.as_str()
    }
}

/// Formats the text as a `&str`.
impl<const MOST: usize> Debug for Text<MOST> {
    fn fmt<W: fmt::Write>(&self, f: &mut Formatter<W>) -> fmt::Result {
        Debug::fmt(&self.as_str(), f)
    }
}

impl<const MOST: usize> Display for Text<MOST> {
    fn fmt<W: fmt::Write>(&self, f: &mut Formatter<W>) -> fmt::Result {
        f.pad(self.as_str())
    }
}
