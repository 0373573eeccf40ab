//! Laws, each the contract of a function that does nothing.

ghost use Rattle.program_parts.specs.Entries.{NamesStayInLine, NamesStayApart};

/// A name, as it is written, has no line break and no other ASCII control character.
pub fn names_stay_in_line()
    ensures { NamesStayInLine }
{}

/// Names that are written alike are the same.
pub fn names_stay_apart()
    ensures { NamesStayApart }
{}
