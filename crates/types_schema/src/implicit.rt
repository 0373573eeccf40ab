//! Fields that have an implicit value if they are left out.

ghost use Rattle.std.specs.Prelude.{◌≡◌};
ghost use Rattle.types_schema.specs.Implicit.{unless_implicit};

/// Returns what is written for a field: `None` if its value is the implicit one.
pub fn omit_implicit<T: Copy + PartialEq>(value: &T, implicit: T) -> Option<T>
    ensures { result ≡ unless_implicit T.eq implicit value.now }
{
    if *value == implicit {
        None
    } else {
        Some(*value)
    }
}
