//! Reading the fields of a variant, with a contract about their values alone.

ghost use Rattle.dagcbor_read.specs.Deserializers.{AreOut, de_state, StaysFailed, Over};
ghost use Rattle.dagcbor_read.specs.Enums.{enum_state, ReadsFieldsHeld};
ghost use Rattle.dagcbor_read.specs.Collections.{struct_of};
ghost use Rattle.dagcbor_read.specs.Structs.{texts};

use serde_ipld_dagcbor::{
    Deserializer, EnumAccessor, Fields, Read, ReadResult, read_struct_variant,
};
use std::alloc::Global;

/// Does what `read_struct_variant` does, with the clauses from which an enum's law follows.
pub(crate) fn read_variant_fields<'de, F: Fields<'de>, R: Read>(
    alloc: Global,
    variant: EnumAccessor,
    names: &[&'de str],
    de: &mut Deserializer<'de, R>,
) -> ReadResult<F, R>
    requires { AreOut (enum_state variant).steps (de_state R.reading de.old) }
    ensures fields { Over R.reading (ReadsFieldsHeld F.meaning (struct_of (F.shape (texts names.now)) F.unread F.finish) (enum_state variant)) de.old result de.new }
    ensures failed { Over R.reading StaysFailed de.old result de.new }
{
    read_struct_variant(alloc, variant, names, de)
}
