//! DAG-CBOR as a `Serializer` of serde, which keeps the events for proofs.

ghost use Rattle.std.specs.Prelude.{◌≡◌, [], Some, IfOk, false};
ghost use Rattle.types_serde.specs.Holds.{FollowsUnless, IsGoodLog};

use crate::error::WriteError;
use crate::log::{Log, Note};
use crate::sink::Sink;
use dagcbor_core::Name;
use serde::{Case, Serializer};
use std::alloc::Global;
use std::fmt::Display;

/// Takes events, until one is refused.
#[derive(Drop)]
pub(crate) struct Writer {
    sink: Sink,
    log: Log,
    failed: bool,
    ghost follows: { ∥ FollowsUnless failed log.events sink ∥₁ },
}

impl Writer {
    pub(crate) fn new(alloc: Global, out: Vec<u8>) -> Writer
        requires { out.items ≡ [] }
        ensures { result.log.events ≡ Some [] }
    {
        Writer {
            sink: Sink::new(alloc, out),
            log: Log::new(),
            failed: false,
        }
    }

    /// Returns the bytes, if one whole value was sent and no event was refused.
    #[tactic(auto, using(crate::proofs::Logs::known_log))]
    pub(crate) fn into_bytes(self) -> Result<Vec<u8>, WriteError>
        ensures { IfOk result (λ v. IsGoodLog self.log.events v.items) }
    {
        let Writer { sink, failed, .. } = self;
        if failed {
            return Err(WriteError::Misplaced);
        }
        sink.into_bytes().map_err(|refusal| refusal.cause())
    }
}

/// Sends an event to the sink and notes it. After a refusal it takes no more events.
macro_rules! send {
    ($writer:ident, $sent:expr, $note:expr) => {{
        if $writer.failed {
            return Err(WriteError::Misplaced);
        }
        if let Err(refusal) = $sent {
            $writer.failed = true;
            return Err(refusal.cause());
        }
        $writer.log = $writer.log.then(&$note);
        Ok(())
    }};
}

impl Serializer for Writer {
    type Error = WriteError;

    ghost written = { λ w. w.log.events };

    #[inline(always)]
    fn bool(&mut self, v: bool) -> Result<(), WriteError> {
        send!(self, self.sink.bool(v), Note::Bool(v))
    }

    #[inline(always)]
    fn i64(&mut self, v: i64) -> Result<(), WriteError> {
        send!(self, self.sink.signed(v), Note::I64(v))
    }

    #[inline(always)]
    fn u64(&mut self, v: u64) -> Result<(), WriteError> {
        send!(self, self.sink.unsigned(v), Note::U64(v))
    }

    #[inline(always)]
    fn i128(&mut self, v: i128) -> Result<(), WriteError> {
        send!(self, self.sink.signed_wide(v), Note::I128(v))
    }

    #[inline(always)]
    fn u128(&mut self, v: u128) -> Result<(), WriteError> {
        send!(self, self.sink.unsigned_wide(v), Note::U128(v))
    }

    fn f32(&mut self, _v: f32) -> Result<(), WriteError> {
        self.failed = true;
        Err(WriteError::Float)
    }

    fn f64(&mut self, _v: f64) -> Result<(), WriteError> {
        self.failed = true;
        Err(WriteError::Float)
    }

    #[inline(always)]
    fn char(&mut self, v: char) -> Result<(), WriteError> {
        send!(self, self.sink.char(v), Note::Char(v))
    }

    #[inline(always)]
    fn str(&mut self, v: &str) -> Result<(), WriteError> {
        send!(self, self.sink.text(v), Note::Text(v))
    }

    #[inline(always)]
    fn bytes(&mut self, v: &[u8]) -> Result<(), WriteError> {
        send!(self, self.sink.bytes(v), Note::Bytes(v))
    }

    #[inline(always)]
    fn unit(&mut self) -> Result<(), WriteError> {
        send!(self, self.sink.unit(), Note::Unit)
    }

    #[inline(always)]
    fn str_cased(&mut self, name: &str, case: Case) -> Result<(), WriteError> {
        send!(
            self,
            self.sink.unit_variant(name, case),
            Note::UnitVariant(name, case)
        )
    }

    #[inline(always)]
    fn begin_seq(&mut self, len: Option<usize>) -> Result<(), WriteError> {
        send!(self, self.sink.begin_seq(), Note::BeginSeq(len))
    }

    #[inline(always)]
    fn end_seq(&mut self) -> Result<(), WriteError> {
        send!(self, self.sink.end_seq(), Note::EndSeq)
    }

    #[inline(always)]
    fn begin_map(&mut self, len: Option<usize>) -> Result<(), WriteError> {
        send!(self, self.sink.begin_map(), Note::BeginMap(len))
    }

    #[inline(always)]
    fn end_map(&mut self) -> Result<(), WriteError> {
        send!(self, self.sink.end_map(), Note::EndMap)
    }

    #[inline(always)]
    fn key_cased(&mut self, name: &str, case: Case) -> Result<(), WriteError> {
        send!(
            self,
            self.sink.field_key(name, case),
            Note::FieldKey(name, case)
        )
    }

    #[inline(always)]
    fn variant_key(&mut self, name: &str, case: Case) -> Result<(), WriteError> {
        send!(
            self,
            self.sink.variant_key(name, case),
            Note::VariantKey(name, case)
        )
    }

    #[inline(always)]
    fn begin_key(&mut self) -> Result<(), WriteError> {
        send!(self, self.sink.begin_key(), Note::BeginKey)
    }

    #[inline(always)]
    fn end_key(&mut self) -> Result<(), WriteError> {
        send!(self, self.sink.end_key(), Note::EndKey)
    }

    #[inline(always)]
    fn flatten_next(&mut self) -> Result<(), WriteError> {
        send!(self, self.sink.flatten(), Note::Flatten)
    }

    fn collect_str<T: Display>(&mut self, value: &T) -> Result<(), WriteError> {
        let Ok(text) = format!(in self.sink.alloc(); "{value}") else {
            self.failed = true;
            return Err(WriteError::OutOfMemory);
        };
        self.str(text.as_str())
    }

    fn custom(&self, message: &str) -> WriteError {
        WriteError::Custom(Name::new(message))
    }
}
