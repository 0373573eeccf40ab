//! Each type, written and read, and the caller.

use serde_ipld_dagcbor::{from_reader, to_writer};
use std::alloc::{AllocError, Global};
use std::fs;
use std::fs::File;
use std::io::{BufReader, BufWriter, Write};
use std::test::Fail;
use tests_shared::{Sink, Source, agree, each_writes, is_told, writes};
use tests_shared_reads::{answers, each_answers};
use types_by_hand::{Color, Mascot, OptionalPerson, Person, year_of};

#[test]
fn the_year_of_a_note_is_read(rt: HostRuntime) -> Result<(), Fail> {
    agree(year_of(rt.alloc(), b"\xa2\x64text\x62hi\x64year\x17")?, 23)
}

fn grace(alloc: Global) -> Result<Person, AllocError> {
    let name = String::from_str(alloc, "Grace Hopper")?;
    let profession = String::from_str(alloc, "computer scientist")?;
    Ok(Person {
        name,
        year_of_birth: 1906,
        profession: Some(profession),
    })
}

/// 66 bytes.
const GRACE: &[u8] =
    b"\xa3\x64name\x6cGrace Hopper\x6aprofession\x72computer scientist\x6dyear_of_birth\x19\x07\x72";

fn ageless_grace(alloc: Global) -> Result<OptionalPerson, AllocError> {
    let name = String::from_str(alloc, "Grace Hopper")?;
    let profession = String::from_str(alloc, "computer scientist")?;
    Ok(OptionalPerson {
        name,
        year_of_birth: None,
        profession: Some(profession),
    })
}

/// 49 bytes.
const AGELESS_GRACE: &[u8] = b"\xa2\x64name\x6cGrace Hopper\x6aprofession\x72computer scientist";

fn ferris(alloc: Global) -> Result<Mascot, AllocError> {
    let name = String::from_str(alloc, "Ferris")?;
    let species = String::from_str(alloc, "crab")?;
    Ok(Mascot {
        name,
        species,
        year_of_birth: 2015,
    })
}

/// 43 bytes.
const FERRIS: &[u8] = b"\xa3\x64name\x66Ferris\x67species\x64crab\x6dyear_of_birth\x19\x07\xdf";

#[test]
fn fields_are_written_in_key_order(rt: HostRuntime) -> Result<(), Fail> {
    let alloc = rt.alloc();
    agree(
        (GRACE.len(), AGELESS_GRACE.len(), FERRIS.len()),
        (66, 49, 43),
    )?;
    writes(alloc, &grace(alloc)?, GRACE)?;
    let mut optional_grace = ageless_grace(alloc)?;
    writes(alloc, &optional_grace, AGELESS_GRACE)?;
    optional_grace.year_of_birth = Some(1906);
    writes(alloc, &optional_grace, GRACE)?;
    writes(alloc, &ferris(alloc)?, FERRIS)
}

const FERRIS_TOLD: &str = r#"Ok(Mascot { name: "Ferris", species: "crab", year_of_birth: 2015 })"#;

#[test]
fn fields_are_read(rt: HostRuntime) -> Result<(), Fail> {
    let alloc = rt.alloc();
    answers::<Person>(
        alloc,
        GRACE,
        r#"Ok(Person { name: "Grace Hopper", year_of_birth: 1906, profession: Some("computer scientist") })"#,
    )?;
    answers::<OptionalPerson>(
        alloc,
        AGELESS_GRACE,
        r#"Ok(OptionalPerson { name: "Grace Hopper", year_of_birth: None, profession: Some("computer scientist") })"#,
    )?;
    answers::<Mascot>(alloc, FERRIS, FERRIS_TOLD)
}

#[test]
fn a_mascot_goes_to_a_device_and_back(rt: HostRuntime) -> Result<(), Fail> {
    let mut sink = Sink::new(rt.alloc(), 3, 0);
    to_writer(rt.alloc(), &mut sink, &ferris(rt.alloc())?)?;
    agree(sink.held(), FERRIS)?;
    let back = from_reader::<Mascot, Source<'_>>(rt.alloc(), Source::new(FERRIS, 3));
    is_told(rt.alloc(), &back, FERRIS_TOLD)
}

/// A file, through the buffers of std.
#[test]
fn a_mascot_goes_to_a_file_and_back(rt: HostRuntime) -> Result<(), Fail> {
    let ferris = ferris(rt.alloc())?;
    let mut file = BufWriter::new(rt.alloc(), File::create(&rt, "ferris.cbor")?)?;
    to_writer(rt.alloc(), &mut file, &ferris)?;
    file.flush()?;

    let source = BufReader::new(rt.alloc(), File::open(&rt, "ferris.cbor")?)?;
    let back: Mascot = from_reader(rt.alloc(), source)?;
    fs::remove_file(&rt, "ferris.cbor")?;
    writes(rt.alloc(), &back, FERRIS)
}

#[test]
fn variants_go_both_ways_and_what_is_none_is_refused(rt: HostRuntime) -> Result<(), Fail> {
    each_writes::<Color>(
        rt.alloc(),
        &[
            (Color::Red, b"\x63Red"),
            (Color::Blue, b"\x64Blue"),
            (Color::Yellow, b"\x66Yellow"),
            (Color::Other(42), b"\xa1\x65Other\x18\x2a"),
            (
                Color::Alpha(234_567, 60),
                b"\xa1\x65Alpha\x82\x1a\x00\x03\x94\x47\x18\x3c",
            ),
        ],
    )?;
    each_answers::<Color>(
        rt.alloc(),
        &[
            (b"\x64Blue", "Ok(Blue)"),
            (b"\xa1\x65Other\x18\x2a", "Ok(Other(42))"),
            (
                b"\xa1\x65Alpha\x82\x1a\x00\x03\x94\x47\x18\x3c",
                "Ok(Alpha(234567, 60))",
            ),
            (
                b"\xa1\x64Blue",
                r#"Err(Mismatch { name: "enum", found: 161 })"#,
            ),
            (
                b"\xa2\x64Blue",
                r#"Err(Mismatch { name: "enum", found: 162 })"#,
            ),
            (
                b"\xb8\x01\x64Blue",
                r#"Err(Mismatch { name: "enum", found: 184 })"#,
            ),
            (b"\x61z", r#"Err(Msg("unknown variant"))"#),
        ],
    )
}
