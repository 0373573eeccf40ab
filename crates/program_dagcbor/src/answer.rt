//! What the program says of a line.

ghost use Rattle.std.specs.Prelude.{◌≡◌, ◌++◌, ◌∷◌, [], map, codes, OnOk, OnErr};
ghost use Rattle.std.specs.Prelude.{IfOk, IfErr, IsTrue, MatchResult, false, if◌then◌else◌};
ghost use Rattle.std.specs.Io.{StartsWith};
ghost use Rattle.hex.specs.Hex.{decode_of, encode_lower};
ghost use Rattle.ipld_tree.specs.Cid.{cid_bytes};
ghost use Rattle.dagcbor_decode.specs.PrintedNames.{variant_name};
ghost use Rattle.program_dagcbor.specs.Answers.{check_line, links_line, links_text, said, answer_to};
ghost use Rattle.program_dagcbor.specs.Answers.{AppendsLine, PushesLine};

use crate::command::Command;
use dagcbor_core::DecodeError;
use dagcbor_decode::{check_slice, kind_name, links_from_slice, variant_name};
use ipld_tree::Cid;
use program_shared::ToolError;
use std::alloc::{AllocError, Global};
use std::convert::Infallible;

/// Appends two words and a line feed.
fn push_sentence(out: &mut Vec<u8>, word: &str, name: &str) -> Result<(), AllocError>
    ensures kept { StartsWith out.new.items out.old.items }
    ensures written { OnOk result
        (AppendsLine (word.now ++ name.now) out.old.items out.new.items) }
{
    out.extend_from_slice(word.as_bytes())?;
    out.extend_from_slice(name.as_bytes())?;
    out.push(b'\n')?;
    Ok(())
}

/// Appends the line of a refusal.
fn push_refusal(out: &mut Vec<u8>, refusal: &DecodeError<Infallible>) -> Result<(), ToolError>
    ensures { PushesLine (codes "refused " ++ variant_name refusal.now) out.old.items
        out.new.items result }
{
    Ok(push_sentence(out, "refused ", variant_name(refusal))?)
}

/// Appends what `check` says of a block.
fn push_verdict(out: &mut Vec<u8>, block: &[u8]) -> Result<(), ToolError>
    ensures { PushesLine (check_line block.now) out.old.items out.new.items result }
{
    match check_slice(block) {
        Ok(kind) => Ok(push_sentence(out, "ok ", kind_name(kind))?),
        Err(refusal) => push_refusal(out, &refusal),
    }
}

/// Appends the binary form of a link in lower case hexadecimal.
fn push_link(alloc: Global, out: &mut Vec<u8>, link: &Cid) -> Result<(), AllocError>
    ensures written { OnOk result
        (out.new.items ≡ out.old.items ++ encode_lower (cid_bytes link.now)) }
    ensures same { OnErr result (out.new.items ≡ out.old.items) }
{
    let digits = hex::encode(alloc, link.to_bytes(alloc)?)?;
    out.extend_from_slice(digits.as_bytes())
}

/// Appends the links in hexadecimal, with spaces between, and a line feed.
fn push_links(
    alloc: Global,
    out: &mut Vec<u8>,
    first: &Cid,
    others: &[Cid],
) -> Result<(), AllocError>
    ensures kept { StartsWith out.new.items out.old.items }
    ensures written { OnOk result (out.new.items ≡ out.old.items
        ++ (links_text (cid_bytes first.now ∷ map cid_bytes others.now) ++ 10 ∷ [])) }
{
    push_link(alloc, out, first)?;
    for link in others {
        out.push(b' ')?;
        push_link(alloc, out, link)?;
    }
    out.push(b'\n')?;
    Ok(())
}

/// Appends the line of links, which is `none` if there are none.
fn push_links_line(alloc: Global, out: &mut Vec<u8>, links: &[Cid]) -> Result<(), AllocError>
    ensures kept { StartsWith out.new.items out.old.items }
    ensures written { OnOk result (out.new.items ≡ out.old.items
        ++ (links_text (map cid_bytes links.now) ++ 10 ∷ [])) }
{
    match links {
        [] => push_sentence(out, "none", ""),
        [first, others @ ..] => push_links(alloc, out, first, others),
    }
}

/// Appends what `links` says of a block. Out of memory ends the run.
fn push_link_line(alloc: Global, out: &mut Vec<u8>, block: &[u8]) -> Result<(), ToolError>
    ensures { PushesLine (links_line block.now) out.old.items out.new.items result }
{
    match links_from_slice(alloc, block) {
        Ok(links) => Ok(push_links_line(alloc, out, &links)?),
        Err(refusal) => match refusal {
            DecodeError::OutOfMemory => Err(ToolError::OutOfMemory),
            _ => push_refusal(out, &refusal),
        },
    }
}

/// Appends what the command says of a block.
fn push_said(
    alloc: Global,
    command: Command,
    block: &[u8],
    out: &mut Vec<u8>,
) -> Result<(), ToolError>
    ensures { PushesLine (said command block.now) out.old.items out.new.items result }
{
    match command {
        Command::Check => push_verdict(out, block),
        Command::Links => push_link_line(alloc, out, block),
    }
}

/// Decodes the line, if it is hexadecimal. Returns whether it is.
fn decode_line(line: &[u8], block: &mut Vec<u8>) -> Result<bool, AllocError>
    ensures { IfOk result (λ is_text. MatchResult (decode_of line.now)
        (λ bytes. IsTrue is_text × (block.new.items ≡ bytes)) (λ _. is_text ≡ false)) }
{
    block.resize(line.len() / 2, 0)?;
    Ok(hex::decode_to_slice(line, block.as_mut_slice()).is_ok())
}

/// Appends what is said of a line: of its block, if the line is hexadecimal.
fn push_said_of(
    alloc: Global,
    command: Command,
    is_text: bool,
    block: &[u8],
    out: &mut Vec<u8>,
) -> Result<(), ToolError>
    ensures { PushesLine (if is_text then said command block.now else codes "refused hex")
        out.old.items out.new.items result }
{
    if is_text {
        return push_said(alloc, command, block, out);
    }
    Ok(push_sentence(out, "refused ", "hex")?)
}

/// Appends what is said of a line, or nothing if memory runs out. `block` is room for its bytes.
pub fn push_answer(
    alloc: Global,
    command: Command,
    line: &[u8],
    block: &mut Vec<u8>,
    out: &mut Vec<u8>,
) -> Result<(), ToolError>
    ensures written { OnOk result
        (AppendsLine (answer_to command line.now) out.old.items out.new.items) }
    ensures same { OnErr result (out.new.items ≡ out.old.items) }
    ensures memory { IfErr result (λ e. e ≡ ToolError.OutOfMemory) }
{
    let before = out.len();
    let is_text = decode_line(line, block)?;
    let pushed = push_said_of(alloc, command, is_text, block, out);
    if pushed.is_err() {
        out.truncate(before);
    }
    pushed
}
