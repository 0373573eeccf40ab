//! Writes bytes to any writer. An interrupted write is not retried.

ghost use Rattle.std.specs.Prelude.{◌≡◌, IfErr, Result};
ghost use Rattle.program_shared.specs.declared.fault.ToolError.{ToolError};
ghost use Rattle.program_shared.specs.Writing.{WritesFront};
ghost use Rattle.program_shared.specs.declared.fault.ToolError.TheVariants.{Output};

use crate::fault::ToolError;
use std::io::Write;

/// Writes all of the bytes.
pub fn write_all<W: Write>(writer: &mut W, bytes: &[u8]) -> Result<(), ToolError>
    ensures fault { IfErr result (λ e. e ≡ Output) }
    ensures written { WritesFront (W.contents writer.old) (W.contents writer.new) result bytes.now }
{
    let mut rest = bytes;
    while !rest.is_empty() {
        match writer.write(rest) {
            Ok(0) | Err(_) => return Err(ToolError::Output),
            Ok(n) => rest = &rest[n..],
        }
    }
    Ok(())
}

/// Writes a line to `errors`, and returns the status. Ignores a fault of that write.
pub fn give_up<W: Write>(errors: &mut W, line: &str, status: u8) -> u8
    ensures status { result ≡ status }
    ensures told { (told : Result (Unit {0}) ToolError)
        × WritesFront (W.contents errors.old) (W.contents errors.new) told line.now }
{
    let _ = write_all(errors, line.as_bytes());
    status
}
