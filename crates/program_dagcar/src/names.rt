//! The names of the causes for which a text is refused, and their lines.

ghost use Rattle.std.specs.Prelude.{◌≡◌, IfOk};
ghost use Rattle.program_dagcar.specs.Lines.{cause_line};
ghost use Rattle.program_dagcar.specs.Names.{cause_name};

use program_parts::line_of;
use std::alloc::{AllocError, Global};
use text_dag_json::{DagJsonError, Refusal};

/// Returns the name of the cause's variant.
pub fn cause_name(cause: &DagJsonError) -> &'static str
    ensures { result.now ≡ cause_name cause.now }
{
    match cause {
        DagJsonError::NoText => "NoText",
        DagJsonError::NoJson => "NoJson",
        DagJsonError::TrailingData => "TrailingData",
        DagJsonError::TooDeep => "TooDeep",
        DagJsonError::Float => "Float",
        DagJsonError::OutOfRange => "OutOfRange",
        DagJsonError::RepeatedKey => "RepeatedKey",
        DagJsonError::ReservedKey => "ReservedKey",
        DagJsonError::NoCid(_) => "NoCid",
        DagJsonError::NoBase64 => "NoBase64",
        DagJsonError::OutOfMemory => "OutOfMemory",
    }
}

/// Returns the line of a refused text.
pub fn cause_line(alloc: Global, refusal: &Refusal) -> Result<Vec<u8>, AllocError>
    ensures { IfOk result (λ v. v.items ≡ cause_line refusal.now.cause refusal.now.offset) }
{
    let place = format!(in alloc; " {}", refusal.offset)?;
    line_of(
        alloc,
        b"refused ",
        cause_name(&refusal.cause).as_bytes(),
        place.as_bytes(),
    )
}
