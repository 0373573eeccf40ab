//! Runs a command: answers each line of the input by a line of the output. The answers for one fill
//! of the input buffer are written at once.

ghost use Rattle.std.specs.Prelude.{◌≡◌, ◌≢◌, ◌++◌, ◌+◌, ◌-◌, ◌^◌, ◌<◌, if◌then◌else◌, [], ℕ, List, All, IfSome, IfErr, false};
ghost use Rattle.std.specs.Prelude.{OnOk, OnErr, length};
ghost use Rattle.std.specs.Io.KnownBytes.{prepend_known, Appends, IsAtEnd};
ghost use Rattle.std.specs.Str.Lines.{lines, strip_carriage_return};
ghost use Rattle.program_dagcbor.specs.Answers.{answer_to, answers, AppendsLine, AppendsAnswers};
ghost use Rattle.program_dagcbor.specs.Answers.{HasAnswered, WritesBeginning};
ghost use Rattle.program_dagcbor.specs.Answers.{BreaksOff, RunsLines, MayEndAfter, most_lines};

use crate::answer::push_answer;
use crate::command::Command;
use crate::line::{line_feed, without_return};
use program_shared::{ToolError, write_all};
use std::alloc::Global;
use std::io::{BufRead, Write};

/// The state kept from one fill to the next.
#[derive(Drop)]
struct Buffers {
    /// The bytes after the last line feed.
    partial: Vec<u8>,
    /// Room for the bytes of a line's block.
    block: Vec<u8>,
    /// The answers not yet written.
    out: Vec<u8>,
    /// How many lines were answered.
    lines: u64,
    ghost one_line: { All (λ b. b ≢ 10) partial.items },
}

/// Answers the line that `buffers.partial` begins and `end` ends.
fn answer_line(
    alloc: Global,
    command: Command,
    end: &[u8],
    buffers: &mut Buffers,
) -> Result<(), ToolError>
    requires { All (λ b. b ≢ 10) end.now }
    ensures written { OnOk result (AppendsLine
        (answer_to command (strip_carriage_return (buffers.old.partial.items ++ end.now)))
        buffers.old.out.items buffers.new.out.items) }
    ensures emptied { OnOk result (buffers.new.partial.items ≡ []) }
    ensures same { OnErr result (buffers.new.out.items ≡ buffers.old.out.items) }
    ensures lines { buffers.new.lines ≡ buffers.old.lines }
    ensures memory { IfErr result (λ e. e ≡ ToolError.OutOfMemory) }
{
    if buffers.partial.is_empty() {
        let line = without_return(end);
        return push_answer(alloc, command, line, &mut buffers.block, &mut buffers.out);
    }
    buffers.partial.extend_from_slice(end)?;
    let line = without_return(&buffers.partial);
    push_answer(alloc, command, line, &mut buffers.block, &mut buffers.out)?;
    buffers.partial.clear();
    Ok(())
}

/// Answers each line that ends in the bytes shown, and keeps what follows the last of them. Answers
/// at most `u64::MAX` lines.
fn answer_shown(
    alloc: Global,
    command: Command,
    shown: &[u8],
    buffers: &mut Buffers,
) -> Result<(), ToolError>
    requires { buffers.old.lines < most_lines }
    ensures answered { OnOk result ((done : List (List ℕ))
        × (buffers.new.lines ≡ buffers.old.lines + length done)
        × AppendsAnswers command done (buffers.old.partial.items ++ shown.now)
        buffers.new.partial.items buffers.old.out.items buffers.new.out.items) }
    ensures some { (done : List (List ℕ)) × (left : List ℕ)
        × (buffers.new.lines ≡ buffers.old.lines + length done)
        × AppendsAnswers command done (buffers.old.partial.items ++ shown.now)
        left buffers.old.out.items buffers.new.out.items }
    ensures most { OnOk result (buffers.new.lines < most_lines) }
    ensures cause { IfErr result (MayEndAfter buffers.new.lines) }
    ensures inner { IfErr result (λ e. e ≢ ToolError.Output) }
{
    let mut rest = shown;
    while let Some(at) = line_feed(rest) {
        answer_line(alloc, command, &rest[..at], buffers)?;
        buffers.lines += 1;
        if buffers.lines == u64::MAX {
            return Err(ToolError::Input);
        }
        rest = &rest[at + 1..];
    }
    buffers.partial.extend_from_slice(rest)?;
    Ok(())
}

/// Answers the lines that end in the next fill. Returns whether the fill had any byte.
#[tactic(auto, using(crate::proofs::Answering::fill_failed, crate::proofs::Answering::none_answered))]
fn answer_fill<R: BufRead, W: Write>(
    alloc: Global,
    command: Command,
    reader: &mut R,
    writer: &mut W,
    buffers: &mut Buffers,
) -> Result<bool, ToolError>
    requires { buffers.old.lines < most_lines }
    ensures answered { OnOk result ((count : ℕ) × (buffers.new.lines ≡ buffers.old.lines + count)
        × IfSome (prepend_known buffers.old.partial.items (R.remaining reader.old)) (λ input.
        HasAnswered command count input
        (prepend_known buffers.new.partial.items (R.remaining reader.new))
        (W.contents writer.old) (W.contents writer.new))) }
    ensures most { OnOk result (buffers.new.lines < most_lines) }
    ensures end { result ≡ Ok false
        → IfSome (R.remaining reader.old) (λ _. IsAtEnd (R.remaining reader.new)) }
    ensures broken { IfErr result (λ e.
        IfSome (prepend_known buffers.old.partial.items (R.remaining reader.old)) (λ input.
        BreaksOff command e buffers.old.lines input (R.remaining reader.new)
        (W.contents writer.old) (W.contents writer.new))) }
{
    let Ok(shown) = reader.fill_buf() else {
        return Err(ToolError::Input);
    };
    let taken = shown.len();
    if taken == 0 {
        return Ok(false);
    }
    buffers.out.clear();
    let answered = answer_shown(alloc, command, shown, buffers);
    write_all(writer, &buffers.out)?;
    answered?;
    reader.consume(taken);
    Ok(true)
}

/// Answers the line kept at the end of the input, if there is one.
#[tactic(auto, using(crate::proofs::Answering::nothing_written))]
fn answer_last<W: Write>(
    alloc: Global,
    command: Command,
    writer: &mut W,
    buffers: &mut Buffers,
) -> Result<(), ToolError>
    ensures answered { OnOk result (Appends (W.contents writer.old) (W.contents writer.new)
        (answers command (lines buffers.old.partial.items))) }
    ensures broken { OnErr result (WritesBeginning command
        (lines buffers.old.partial.items) (W.contents writer.old) (W.contents writer.new)) }
    ensures nothing { IfErr result (λ e. e ≢ ToolError.Output
        → Appends (W.contents writer.old) (W.contents writer.new) []) }
{
    if buffers.partial.is_empty() {
        return Ok(());
    }
    buffers.out.clear();
    push_answer(
        alloc,
        command,
        &buffers.partial,
        &mut buffers.block,
        &mut buffers.out,
    )?;
    write_all(writer, &buffers.out)
}

/// Answers each line of the input by a line of the output, by the command. Answers the lines that a
/// fill ends before it waits for the next fill.
pub fn run_lines<R: BufRead, W: Write>(
    alloc: Global,
    command: Command,
    reader: &mut R,
    writer: &mut W,
) -> Result<(), ToolError>
    ensures { RunsLines command (R.remaining reader.old) (R.remaining reader.new)
        (W.contents writer.old) (W.contents writer.new) result }
{
    let mut buffers = Buffers {
        partial: Vec::new(alloc),
        block: Vec::new(alloc),
        out: Vec::new(alloc),
        lines: 0,
    };
    // The number of fills since a line ended.
    let mut fills = 0;
    while fills < u64::MAX {
        let lines = buffers.lines;
        let more = answer_fill(alloc, command, reader, writer, &mut buffers)?;
        if !more {
            return answer_last(alloc, command, writer, &mut buffers);
        }
        fills = fills_since(fills, buffers.lines == lines);
    }
    Err(ToolError::Input)
}

/// Returns `fills` and one more if the fill ended no line, else 0.
fn fills_since(fills: u64, goes_on: bool) -> u64
    requires { fills < 2 ^ 64 - 1 }
    ensures { result ≡ (if goes_on then fills + 1 else 0) }
{
    if goes_on { fills + 1 } else { 0 }
}

/// Answers for each line whether it is a DAG-CBOR block, and of which kind.
pub fn run_check<R: BufRead, W: Write>(
    alloc: Global,
    reader: &mut R,
    writer: &mut W,
) -> Result<(), ToolError>
    ensures { RunsLines Command.Check (R.remaining reader.old) (R.remaining reader.new)
        (W.contents writer.old) (W.contents writer.new) result }
{
    run_lines(alloc, Command::Check, reader, writer)
}

/// Answers for each line the links of the item at its start.
pub fn run_links<R: BufRead, W: Write>(
    alloc: Global,
    reader: &mut R,
    writer: &mut W,
) -> Result<(), ToolError>
    ensures { RunsLines Command.Links (R.remaining reader.old) (R.remaining reader.new)
        (W.contents writer.old) (W.contents writer.new) result }
{
    run_lines(alloc, Command::Links, reader, writer)
}
