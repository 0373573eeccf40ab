//! `filter` and `merge`: CAR files made of the sections of others.

use crate::{NOT_OPENED, end_output};
use dagcbor_heads::{Input, IoReader};
use ipld_tree::Cid;
use program_dagcar::OneFault;
use program_dagcar_files::{run_filter, run_listed, run_merged};
use program_parts::input_over;
use program_sections::{By, Filter, FilterWords, Kept};
use program_shared::give_up;
use std::fs::File;
use std::io::{BufReader, BufWriter, Read, Write};
use std::{fs, io};

/// Writes the sections of the source that are kept.
fn filter_over<S: Read + Drop, V: Write>(
    rt: &HostRuntime,
    asked: FilterWords<'_>,
    source: S,
    errors: &mut V,
) -> io::Result<u8> {
    let mut input = BufReader::new(rt.alloc(), source)?;
    let mut output = BufWriter::new(rt.alloc(), OneFault::new(rt.stdout().lock()))?;
    let status = match asked.by {
        By::Codec(codec) => {
            let kept = Kept::Codec(codec);
            let filter = Filter {
                roots: asked.roots,
                kept,
            };
            run_filter(rt.alloc(), &filter, &mut input, &mut output, errors)
        }
        By::Names(list) => {
            let Ok(list) = fs::open(rt, list) else {
                return Ok(give_up(errors, NOT_OPENED, 2));
            };
            let mut list = BufReader::new(rt.alloc(), list)?;
            run_listed(
                rt.alloc(),
                asked.roots,
                &mut list,
                &mut input,
                &mut output,
                errors,
            )
        }
    };
    Ok(end_output(&mut output, errors, status))
}

/// Writes the sections of the named file, or of standard input, that are kept.
pub(crate) fn filter_file<V: Write>(
    rt: &HostRuntime,
    asked: FilterWords<'_>,
    errors: &mut V,
) -> io::Result<u8> {
    let path = match asked.file {
        None | Some("-") => return filter_over(rt, asked, rt.reader(), errors),
        Some(path) => path,
    };
    match fs::open(rt, path) {
        Ok(source) => filter_over(rt, asked, source, errors),
        Err(_) => Ok(give_up(errors, NOT_OPENED, 2)),
    }
}

/// Opens the named files, each at its start. `None` if one cannot be opened.
fn open_all<'de>(
    rt: &HostRuntime,
    paths: &[String],
) -> io::Result<Option<Vec<Input<'de, IoReader<BufReader<File>>>>>> {
    let mut inputs = Vec::new(rt.alloc());
    for path in paths {
        let Ok(source) = fs::open(rt, path.as_str()) else {
            return Ok(None);
        };
        let input = BufReader::new(rt.alloc(), source)?;
        inputs.reserve(1)?;
        inputs.push_reserved(input_over(IoReader::new(input)));
    }
    Ok(Some(inputs))
}

/// Writes the CAR file of the sections of the named files.
pub(crate) fn merge_files<V: Write>(
    rt: &HostRuntime,
    roots: &[Cid],
    paths: &[String],
    errors: &mut V,
) -> io::Result<u8> {
    let Some(inputs) = open_all(rt, paths)? else {
        return Ok(give_up(errors, NOT_OPENED, 2));
    };
    let mut output = BufWriter::new(rt.alloc(), OneFault::new(rt.stdout().lock()))?;
    let status = run_merged(rt.alloc(), roots, inputs, &mut output, errors);
    Ok(end_output(&mut output, errors, status))
}
