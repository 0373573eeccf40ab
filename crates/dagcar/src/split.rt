//! `split`: CAR files of the parts of a file.

ghost use Rattle.std.specs.Prelude.{None};

use crate::NOT_OPENED;
use program_dagcar::OneFault;
use program_dagcar_files::run_split;
use program_sections::{NewFiles, NotBegun, Split};
use program_shared::{ToolError, give_up, write_all};
use std::alloc::Global;
use std::fs::{File, Files, OpenFile};
use std::io::{BufReader, BufWriter, ErrorKind, Read, Write};
use std::{fs, io};

/// Makes files in the file system, and writes the name of each finished one to a device.
#[derive(Drop)]
struct HostFiles<'r, R, W> {
    alloc: Global,
    host: &'r R,
    names: W,
    /// The name of the current file.
    begun: Option<String>,
}

impl<R: Files, W: Write> NewFiles for HostFiles<'_, R, W> {
    type File = BufWriter<R::File>;

    // No contract says what the files of a system hold.
    ghost whole = { λ _. None };

    ghost has = { λ _ _. None };

    fn begin(&mut self, name: &str) -> Result<BufWriter<R::File>, NotBegun> {
        let Ok(kept) = String::from_str(self.alloc, name) else {
            return Err(NotBegun::Failed(ToolError::OutOfMemory));
        };
        match File::create_new(self.host, name) {
            Ok(file) => {
                self.begun = Some(kept);
                // The clone is no standard stream, not even one that was closed: a name or a
                // message would go into the part.
                let Ok(file) = file.try_clone() else {
                    return Err(NotBegun::Failed(ToolError::Output));
                };
                match BufWriter::new(self.alloc, file) {
                    Ok(file) => Ok(file),
                    Err(_) => Err(NotBegun::Failed(ToolError::OutOfMemory)),
                }
            }
            Err(e) if e.kind() == ErrorKind::AlreadyExists => Err(NotBegun::Exists),
            Err(_) => Err(NotBegun::Failed(ToolError::Output)),
        }
    }

    fn finish(&mut self, name: &str, file: &mut BufWriter<R::File>) -> Result<(), ToolError> {
        if file.flush().is_err() || file.get_ref().sync_all().is_err() {
            return Err(ToolError::Output);
        }
        self.begun = None;
        write_all(&mut self.names, name.as_bytes())?;
        write_all(&mut self.names, b"\n")?;
        match self.names.flush() {
            Ok(()) => Ok(()),
            Err(_) => Err(ToolError::Output),
        }
    }
}

/// Makes the files of the source's parts. Removes one that was begun and not finished.
fn split_over<S: Read + Drop, V: Write>(
    rt: &HostRuntime,
    asked: &Split<'_>,
    source: S,
    errors: &mut V,
) -> io::Result<u8> {
    let mut input = BufReader::new(rt.alloc(), source)?;
    let mut files = HostFiles {
        alloc: rt.alloc(),
        host: rt,
        names: BufWriter::new(rt.alloc(), OneFault::new(rt.stdout().lock()))?,
        begun: None,
    };
    let status = run_split(rt.alloc(), asked, &mut input, &mut files, errors);
    if let Some(name) = &files.begun {
        let _ = fs::remove_file(rt, name.as_str());
    }
    Ok(status)
}

/// Makes the files of the parts of the named file, or of standard input.
pub(crate) fn split_file<V: Write>(
    rt: &HostRuntime,
    asked: &Split<'_>,
    errors: &mut V,
) -> io::Result<u8> {
    if asked.file == "-" {
        return split_over(rt, asked, rt.reader(), errors);
    }
    match fs::open(rt, asked.file) {
        Ok(source) => split_over(rt, asked, source, errors),
        Err(_) => Ok(give_up(errors, NOT_OPENED, 2)),
    }
}
