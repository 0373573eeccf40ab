//! The line of a verdict on a block.

ghost use Rattle.std.specs.Prelude.{◌≡◌, ◌++◌, ◌∷◌, List, ℕ, IfOk};
ghost use Rattle.program_parts.specs.Lines.{verdict_text, is_well, verdict_line};

use crate::line::{Said, line_of};
use crate::names::pb_cause_name;
use dagcbor_decode::{kind_name, variant_name};
use ipld_links::Verdict;
use ipld_tree::Cid;
use std::alloc::{AllocError, Global};
use text_cid::cid_text;

/// Returns a verdict in words: the result, and the name of a kind or a cause.
pub fn verdict_words(verdict: &Verdict) -> (&'static str, &'static str)
    ensures { result.0.now ++ result.1.now ≡ 32 ∷ verdict_text verdict.now }
{
    match verdict {
        Verdict::Block(kind) => (" ok ", kind_name(*kind)),
        Verdict::Refused(refusal) => (" refused ", variant_name(refusal)),
        Verdict::Node => (" ok ", "node"),
        Verdict::NoNode(error) => (" refused ", pb_cause_name(&error.cause)),
        Verdict::OtherBytes => (" other bytes", ""),
        Verdict::NotRead => (" not read", ""),
        Verdict::LinksNotRead => (" links not read", ""),
        Verdict::Unverified => (" not verified", ""),
    }
}

/// Returns whether the verdict finds nothing wrong with the block.
pub fn is_well(verdict: &Verdict) -> bool
    ensures { result ≡ is_well verdict.now }
{
    match verdict {
        Verdict::Block(_) => true,
        Verdict::Refused(_) => false,
        Verdict::Node => true,
        Verdict::NoNode(_) => false,
        Verdict::OtherBytes => false,
        Verdict::NotRead => true,
        Verdict::LinksNotRead => true,
        Verdict::Unverified => false,
    }
}

/// Returns the line of a section with this CID and this verdict, and whether that is well.
pub fn verdict_line(alloc: Global, cid: &Cid, verdict: &Verdict) -> Result<Said, AllocError>
    ensures line { (block : List ℕ)
        → IfOk result (λ p. p.0.items ≡ verdict_line ((cid.now, block), verdict.now)) }
    ensures well { IfOk result (λ p. p.1 ≡ is_well verdict.now) }
{
    let (found, which) = verdict_words(verdict);
    let line = line_of(alloc, &cid_text(cid), found.as_bytes(), which.as_bytes())?;
    Ok((line, is_well(verdict)))
}
