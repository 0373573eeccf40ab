//! Walks a CAR file section by section, and writes what a teller says as it goes.

ghost use Rattle.std.specs.Prelude.{◌≡◌, [], List, ℕ, true, Ok, IfOk, OnOk};
ghost use Rattle.program_parts.specs.declared.take.Ended.TheVariants.{Whole};
ghost use Rattle.dagcbor_heads.specs.Inputs.{input_reading};
ghost use Rattle.dagcbor_items.specs.Walks.{forms};
ghost use Rattle.files_car.specs.Car.{Section as CarSection};
ghost use Rattle.program_dagcar.specs.Speeches.{Speech, beside, SaysFile};
ghost use Rattle.program_dagcar.specs.Steps.{KnowsMore, SaysAtEnd, work_of, beside_of, SaysSection, SaysRest};
ghost use Rattle.program_dagcar.specs.Steps.{following, run, SaysSections, SaysHeader};

use dagcbor_heads::{Input, Read};
use files_car::{Section, SectionSink, pull_header};
use ipld_tree::Cid;
use program_parts::{Answer, Ended, Said, fault_line, say, say_both, take_sections};
use program_shared::{ToolError, write_all};
use std::alloc::{AllocError, Global};
use std::io::Write;

/// What is said of a file: after its header, for each section as it comes, and at the end.
pub trait Teller: Sized + Drop {
    /// What is said, as a contract.
    ghost speech: { Speech };

    /// What goes to the error output for a section.
    ghost tells: { CarSection → List ℕ → Type 0 };

    /// What is known after these sections of a file with these roots.
    ghost knows: { Self → List (List ℕ) → List CarSection → Type 0 };

    /// Begins after the header with these roots. Returns the teller and what is said of the roots.
    fn begin(alloc: Global, roots: &[Cid]) -> Result<(Self, Vec<u8>), AllocError>
        ensures known { IfOk result (λ p. Self.knows p.0 (forms roots.now) []) }
        ensures said { IfOk result (λ p. p.1.items ≡ Self.speech.of_roots (forms roots.now)) };

    /// Takes the next section. Returns what is said of it, and the error output.
    fn tell(&mut self, alloc: Global, section: &Section<'_>) -> Result<Answer, AllocError>
        ensures said { IfOk result (λ p.
            Self.speech.of_section (section.now.cid, section.now.block.now) p.0.1 p.0.0.items) }
        ensures told { IfOk result (λ p.
            Self.tells (section.now.cid, section.now.block.now) p.1.items) }
        ensures known { OnOk result
            (KnowsMore Self.knows (section.now.cid, section.now.block.now) self.old self.new) };

    /// Returns what is said at the end.
    fn end(self, alloc: Global) -> Result<Said, AllocError>
        ensures { SaysAtEnd Self.speech Self.knows self result };

    /// A fault's line is written as it is.
    ghost says_faults: { (line : List ℕ) → Self.speech.of_fault line ≡ line };
}

/// A teller at work, which writes what it says at once.
#[derive(Drop)]
struct Telling<'a, 'b, T, W, V> {
    alloc: Global,
    teller: T,
    /// `true` while all is well.
    well: bool,
    output: &'a mut W,
    errors: &'b mut V,
}

impl<'a, 'b, T: Teller, W: Write, V: Write> Telling<'a, 'b, T, W, V> {
    /// Returns a teller at work after the header, with all well so far.
    fn new(
        alloc: Global,
        teller: T,
        output: &'a mut W,
        errors: &'b mut V,
    ) -> Telling<'a, 'b, T, W, V>
        ensures reference { result.output.ghost_name ≡ output.entry.ghost_name }
        ensures bytes { result.output.now ≡ output.old }
        ensures errors_reference { result.errors.ghost_name ≡ errors.entry.ghost_name }
        ensures errors_bytes { result.errors.now ≡ errors.old }
        ensures teller { result.teller ≡ teller }
        ensures well { result.well ≡ true }
    {
        Telling {
            alloc,
            teller,
            well: true,
            output,
            errors,
        }
    }
}

impl<T: Teller, W: Write, V: Write> SectionSink for Telling<'_, '_, T, W, V> {
    type Stop = ToolError;

    ghost takes = { λ s old result new. SaysSection T.speech T.knows s
        (work_of W.contents old) result (work_of W.contents new)
        × SaysSection (beside T.tells) T.knows s
        (beside_of V.contents old) result (beside_of V.contents new) };

    fn take(&mut self, section: &Section<'_>) -> Result<(), ToolError> {
        let (said, told) = self.teller.tell(self.alloc, section)?;
        let well = say_both(said, &told, self.output, self.errors)?;
        self.well = self.well && well;
        Ok(())
    }
}

/// Writes what is said at the end. Returns whether all is well, there and before.
fn say_end<T: Teller, W: Write>(
    alloc: Global,
    teller: T,
    well: bool,
    output: &mut W,
) -> Result<bool, ToolError>
    ensures { SaysRest T.speech T.knows teller well (Ok Whole) (W.contents output.old) result
        (W.contents output.new) }
{
    match teller.end(alloc) {
        Ok(said) => match say(said, output) {
            Ok(end_well) => Ok(end_well && well),
            Err(fault) => Err(fault),
        },
        Err(_) => Err(ToolError::OutOfMemory),
    }
}

/// Writes what is said after the sections. Returns whether all is well.
fn say_rest<T: Teller, W: Write>(
    alloc: Global,
    teller: T,
    well: bool,
    ended: Result<Ended<ToolError>, ToolError>,
    output: &mut W,
) -> Result<bool, ToolError>
    ensures { SaysRest T.speech T.knows teller well ended (W.contents output.old) result
        (W.contents output.new) }
{
    match ended? {
        Ended::Whole => say_end(alloc, teller, well, output),
        Ended::Stopped(fault) => Err(fault),
        Ended::Fault(line) => say((line, false), output),
    }
}

/// Writes what is said after the header, up to `extent` if given. Returns whether all is well.
fn say_sections<'de, T: Teller, R: Read, W: Write, V: Write>(
    alloc: Global,
    teller: T,
    input: &mut Input<'de, R>,
    extent: Option<u64>,
    output: &mut W,
    errors: &mut V,
) -> Result<bool, ToolError>
    ensures said { SaysSections T.speech T.knows
        (following extent (input_reading R.reading input.old)) teller
        (run (W.contents output.old) result (W.contents output.new)) }
    ensures told { SaysSections (beside T.tells) T.knows
        (following extent (input_reading R.reading input.old)) teller
        (run (V.contents errors.old) result (V.contents errors.new)) }
{
    let mut telling = Telling::new(alloc, teller, output, errors);
    let ended = take_sections(alloc, &mut telling, input, extent);
    let Telling {
        alloc: _,
        teller,
        well,
        output,
        errors,
    } = telling;
    // No effect at run time. The proof reads what `errors` holds from this use of it.
    let _ = &*errors;
    say_rest(alloc, teller, well, ended, output)
}

/// Writes `of_roots`, and then what is said after the header. Returns whether all is well.
fn say_header<'de, T: Teller, R: Read, W: Write, V: Write>(
    alloc: Global,
    teller: T,
    of_roots: &[u8],
    input: &mut Input<'de, R>,
    extent: Option<u64>,
    output: &mut W,
    errors: &mut V,
) -> Result<bool, ToolError>
    ensures said { SaysHeader T.speech T.knows
        (following extent (input_reading R.reading input.old)) of_roots.now teller
        (run (W.contents output.old) result (W.contents output.new)) }
    ensures told { SaysHeader (beside T.tells) T.knows
        (following extent (input_reading R.reading input.old)) [] teller
        (run (V.contents errors.old) result (V.contents errors.new)) }
{
    write_all(output, of_roots)?;
    say_sections(alloc, teller, input, extent, output, errors)
}

/// Writes what the teller says of the file, and if it is refused, a line that says why; and to
/// `errors` what it tells of sections. Returns whether all is well.
pub fn say_file<'de, T: Teller, R: Read, W: Write, V: Write>(
    alloc: Global,
    input: &mut Input<'de, R>,
    output: &mut W,
    errors: &mut V,
) -> Result<bool, ToolError>
    ensures said { SaysFile T.speech (input_reading R.reading input.old) (W.contents output.old)
        result (W.contents output.new) }
    ensures told { SaysFile (beside T.tells) (input_reading R.reading input.old)
        (V.contents errors.old) result (V.contents errors.new) }
{
    match pull_header(alloc, input) {
        Ok((roots, extent)) => match T::begin(alloc, &roots) {
            Ok((teller, of_roots)) => {
                say_header(alloc, teller, &of_roots, input, extent, output, errors)
            }
            Err(_) => Err(ToolError::OutOfMemory),
        },
        Err(error) => match fault_line(alloc, error) {
            Ok(line) => say((line, false), output),
            Err(fault) => Err(fault),
        },
    }
}
