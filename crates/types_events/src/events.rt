//! The types of events.ipldsch, by ./dagcbor-types. Change that file, and run it again.

ghost use Rattle.std.specs.Prelude.{[], ◌∷◌, Option, Some, codes, string_bytes, true, false, refl};
ghost use Rattle.serde_ipld_dagcbor.specs.Cid.{cid_bytes};
ghost use Rattle.serde_ipld_dagcbor.specs.Tree.{text, boolean, integer, link, entries_tree};
ghost use Rattle.serde_ipld_dagcbor.specs.Trees.{field, optional};
ghost use Rattle.types_events.specs.Events.{FrameHeaderView, frame_header_shape};
ghost use Rattle.types_events.specs.Events.{action_variants, action_shape};
ghost use Rattle.types_events.specs.declared.events.Action.{Action};
ghost use Rattle.types_events.specs.declared.events.Action.TheVariants as in_action;
ghost use Rattle.types_events.specs.Events.{RepoOpView, repo_op_shape};
ghost use Rattle.types_events.specs.Events.{CommitEventView, commit_event_shape};
ghost use Rattle.types_events.specs.Events.{SyncEventView, sync_event_shape};
ghost use Rattle.types_events.specs.Events.{IdentityEventView, identity_event_shape};
ghost use Rattle.types_events.specs.Events.{AccountEventView, account_event_shape};
ghost use Rattle.types_events.specs.Events.{InfoEventView, info_event_shape};
ghost use Rattle.types_events.specs.Events.{ErrorEventView, error_event_shape};

use serde_ipld_dagcbor::{
    Cid, DecodeError, Deserialize, DeserializeOwned, Deserializer, EnumAccessor, Field, Omissible,
    Optional, Read, ReadResult, Required, Serialize, Serializer, Shown, Variants, Write,
    WriteResult, read_enum, read_struct, write_struct,
};
use std::alloc::Global;

/// The header of a frame of com.atproto.sync.subscribeRepos: 1 and a kind, or -1.
#[derive(Debug, Drop)]
pub struct FrameHeader {
    pub op: i64,
    pub t: Option<String>,
}

/// What is done with a record.
#[derive(Clone, Copy, Debug, PartialEq, Eq)]
pub enum Action {
    Create,
    Update,
    Delete,
}

/// What is done with the record of a path: the one after it, and the one before.
#[derive(Debug, Drop)]
pub struct RepoOp {
    pub action: Action,
    pub path: String,
    pub cid: Option<Cid>,
    pub prev: Option<Option<Cid>>,
}

/// A commit of a repository, but for its blocks.
#[derive(Debug, Drop)]
pub struct CommitEvent {
    pub seq: i64,
    pub rebase: bool,
    pub too_big: bool,
    pub repo: String,
    pub commit: Cid,
    pub rev: String,
    pub since: Option<String>,
    pub ops: Vec<RepoOp>,
    pub blobs: Vec<Cid>,
    pub prev_data: Option<Option<Cid>>,
    pub time: String,
}

/// A repository as it is, whatever came before, but for the block of its commit.
#[derive(Debug, Drop)]
pub struct SyncEvent {
    pub seq: i64,
    pub did: String,
    pub rev: String,
    pub time: String,
}

/// An account whose handle or key may be another.
#[derive(Debug, Drop)]
pub struct IdentityEvent {
    pub seq: i64,
    pub did: String,
    pub time: String,
    pub handle: Option<String>,
}

/// Whether a host serves the repository of an account, and why not.
#[derive(Debug, Drop)]
pub struct AccountEvent {
    pub seq: i64,
    pub did: String,
    pub time: String,
    pub active: bool,
    pub status: Option<String>,
}

/// What a host tells of the stream.
#[derive(Debug, Drop)]
pub struct InfoEvent {
    pub name: String,
    pub message: Option<String>,
}

/// Why a host ends the stream.
#[derive(Debug, Drop)]
pub struct ErrorEvent {
    pub error: String,
    pub message: Option<String>,
}

impl Serialize for FrameHeader {
    ghost tree = { λ v. entries_tree (
        optional (codes "t") (λ x. Some (text (string_bytes x))) v.t (
        field (codes "op") (Some (integer v.op)) ∷ [])) };

    ghost takes_memory = { true };

    fn serialize<W: Write>(&self, alloc: Global, ser: &mut Serializer<W>) -> WriteResult<(), W> {
        let row = ();
        let row = (Field("op", &self.op), row);
        let row = (Optional("t", &self.t), row);
        write_struct(alloc, row, ser)
    }
}

impl Shown for FrameHeader {
    ghost View = { FrameHeaderView };

    ghost meaning = { λ v. (v.op, (⟦<Option<String> as Shown>⟧.meaning v.t, tt)) };

    ghost shape = { frame_header_shape };
}

impl<'de> Deserialize<'de> for FrameHeader {
    fn deserialize<R: Read>(alloc: Global, de: &mut Deserializer<'de, R>) -> ReadResult<Self, R> {
        let names = &["op", "t"];
        let row = read_struct(alloc, "FrameHeader", names, de)?;
        let (Required(op), row) = row;
        let (Omissible(t), ()) = row;
        Ok(FrameHeader { op, t })
    }
}

impl<'de> DeserializeOwned<'de> for FrameHeader {
    ghost owned = { refl };
}

impl Serialize for Action {
    ghost tree = { λ v. elim v [
      | in_action.Create ↦ Some (text (codes "create"))
      | in_action.Update ↦ Some (text (codes "update"))
      | in_action.Delete ↦ Some (text (codes "delete"))
    ] };

    ghost takes_memory = { false };

    fn serialize<W: Write>(&self, _alloc: Global, ser: &mut Serializer<W>) -> WriteResult<(), W> {
        match self {
            Action::Create => ser.serialize_unit_variant("Action", 0, "create"),
            Action::Update => ser.serialize_unit_variant("Action", 1, "update"),
            Action::Delete => ser.serialize_unit_variant("Action", 2, "delete"),
        }
    }
}

impl Shown for Action {
    ghost View = { Action };

    ghost meaning = { λ v. v };

    ghost shape = { action_shape };
}

impl<'de> Variants<'de> for Action {
    ghost View = { Action };

    ghost meaning = { λ v. v };

    ghost shape = { action_variants };

    fn read_variant<R: Read>(
        _alloc: Global,
        name: &str,
        variant: EnumAccessor,
        de: &mut Deserializer<'de, R>,
    ) -> ReadResult<Action, R> {
        match name {
            "create" => {
                variant.unit_variant(de)?;
                Ok(Action::Create)
            }
            "update" => {
                variant.unit_variant(de)?;
                Ok(Action::Update)
            }
            "delete" => {
                variant.unit_variant(de)?;
                Ok(Action::Delete)
            }
            _ => Err(DecodeError::custom("unknown variant")),
        }
    }
}

impl<'de> Deserialize<'de> for Action {
    fn deserialize<R: Read>(alloc: Global, de: &mut Deserializer<'de, R>) -> ReadResult<Self, R> {
        let names = &["create", "update", "delete"];
        read_enum(alloc, "Action", names, de)
    }
}

impl<'de> DeserializeOwned<'de> for Action {
    ghost owned = { refl };
}

impl Serialize for RepoOp {
    ghost tree = { λ v. entries_tree (
        field (codes "cid") (⟦<Option<Cid> as Serialize>⟧.tree v.cid) ∷
        field (codes "path") (Some (text (string_bytes v.path))) ∷
        optional (codes "prev") ⟦<Option<Cid> as Serialize>⟧.tree v.prev (
        field (codes "action") (⟦<Action as Serialize>⟧.tree v.action) ∷ [])) };

    ghost takes_memory = { true };

    fn serialize<W: Write>(&self, alloc: Global, ser: &mut Serializer<W>) -> WriteResult<(), W> {
        let row = ();
        let row = (Field("action", &self.action), row);
        let row = (Optional("prev", &self.prev), row);
        let row = (Field("path", &self.path), row);
        let row = (Field("cid", &self.cid), row);
        write_struct(alloc, row, ser)
    }
}

impl Shown for RepoOp {
    ghost View = { RepoOpView };

    ghost meaning = { λ v. (
      v.action,
      (
        string_bytes v.path,
        (
          ⟦<Option<Cid> as Shown>⟧.meaning v.cid,
          (⟦<Option<Option<Cid>> as Shown>⟧.meaning v.prev, tt),
        ),
      ),
    ) };

    ghost shape = { repo_op_shape };
}

impl<'de> Deserialize<'de> for RepoOp {
    fn deserialize<R: Read>(alloc: Global, de: &mut Deserializer<'de, R>) -> ReadResult<Self, R> {
        let names = &["action", "path", "cid", "prev"];
        let row = read_struct(alloc, "RepoOp", names, de)?;
        let (Required(action), row) = row;
        let (Required(path), row) = row;
        let (Required(cid), row) = row;
        let (Omissible(prev), ()) = row;
        Ok(RepoOp {
            action,
            path,
            cid,
            prev,
        })
    }
}

impl<'de> DeserializeOwned<'de> for RepoOp {
    ghost owned = { refl };
}

impl Serialize for CommitEvent {
    ghost tree = { λ v. entries_tree (
        field (codes "ops") (⟦<Vec<RepoOp> as Serialize>⟧.tree v.ops) ∷
        field (codes "rev") (Some (text (string_bytes v.rev))) ∷
        field (codes "seq") (Some (integer v.seq)) ∷
        field (codes "repo") (Some (text (string_bytes v.repo))) ∷
        field (codes "time") (Some (text (string_bytes v.time))) ∷
        field (codes "blobs") (⟦<Vec<Cid> as Serialize>⟧.tree v.blobs) ∷
        field (codes "since") (⟦<Option<String> as Serialize>⟧.tree v.since) ∷
        field (codes "commit") (Some (link (cid_bytes v.commit))) ∷
        field (codes "rebase") (Some (boolean v.rebase)) ∷
        field (codes "tooBig") (Some (boolean v.too_big)) ∷
        optional (codes "prevData") ⟦<Option<Cid> as Serialize>⟧.tree v.prev_data []) };

    ghost takes_memory = { true };

    fn serialize<W: Write>(&self, alloc: Global, ser: &mut Serializer<W>) -> WriteResult<(), W> {
        let row = ();
        let row = (Optional("prevData", &self.prev_data), row);
        let row = (Field("tooBig", &self.too_big), row);
        let row = (Field("rebase", &self.rebase), row);
        let row = (Field("commit", &self.commit), row);
        let row = (Field("since", &self.since), row);
        let row = (Field("blobs", &self.blobs), row);
        let row = (Field("time", &self.time), row);
        let row = (Field("repo", &self.repo), row);
        let row = (Field("seq", &self.seq), row);
        let row = (Field("rev", &self.rev), row);
        let row = (Field("ops", &self.ops), row);
        write_struct(alloc, row, ser)
    }
}

impl Shown for CommitEvent {
    ghost View = { CommitEventView };

    ghost meaning = { λ v. (
      v.seq,
      (
        v.rebase,
        (
          v.too_big,
          (
            string_bytes v.repo,
            (
              cid_bytes v.commit,
              (
                string_bytes v.rev,
                (
                  ⟦<Option<String> as Shown>⟧.meaning v.since,
                  (
                    ⟦<Vec<RepoOp> as Shown>⟧.meaning v.ops,
                    (
                      ⟦<Vec<Cid> as Shown>⟧.meaning v.blobs,
                      (
                        ⟦<Option<Option<Cid>> as Shown>⟧.meaning v.prev_data,
                        (string_bytes v.time, tt),
                      ),
                    ),
                  ),
                ),
              ),
            ),
          ),
        ),
      ),
    ) };

    ghost shape = { commit_event_shape };
}

impl<'de> Deserialize<'de> for CommitEvent {
    fn deserialize<R: Read>(alloc: Global, de: &mut Deserializer<'de, R>) -> ReadResult<Self, R> {
        let names = &[
            "seq", "rebase", "tooBig", "repo", "commit", "rev", "since", "ops", "blobs",
            "prevData", "time",
        ];
        let row = read_struct(alloc, "CommitEvent", names, de)?;
        let (Required(seq), row) = row;
        let (Required(rebase), row) = row;
        let (Required(too_big), row) = row;
        let (Required(repo), row) = row;
        let (Required(commit), row) = row;
        let (Required(rev), row) = row;
        let (Required(since), row) = row;
        let (Required(ops), row) = row;
        let (Required(blobs), row) = row;
        let (Omissible(prev_data), row) = row;
        let (Required(time), ()) = row;
        Ok(CommitEvent {
            seq,
            rebase,
            too_big,
            repo,
            commit,
            rev,
            since,
            ops,
            blobs,
            prev_data,
            time,
        })
    }
}

impl<'de> DeserializeOwned<'de> for CommitEvent {
    ghost owned = { refl };
}

impl Serialize for SyncEvent {
    ghost tree = { λ v. entries_tree (
        field (codes "did") (Some (text (string_bytes v.did))) ∷
        field (codes "rev") (Some (text (string_bytes v.rev))) ∷
        field (codes "seq") (Some (integer v.seq)) ∷
        field (codes "time") (Some (text (string_bytes v.time))) ∷ []) };

    ghost takes_memory = { true };

    fn serialize<W: Write>(&self, alloc: Global, ser: &mut Serializer<W>) -> WriteResult<(), W> {
        let row = ();
        let row = (Field("time", &self.time), row);
        let row = (Field("seq", &self.seq), row);
        let row = (Field("rev", &self.rev), row);
        let row = (Field("did", &self.did), row);
        write_struct(alloc, row, ser)
    }
}

impl Shown for SyncEvent {
    ghost View = { SyncEventView };

    ghost meaning = { λ v. (
      v.seq,
      (string_bytes v.did, (string_bytes v.rev, (string_bytes v.time, tt))),
    ) };

    ghost shape = { sync_event_shape };
}

impl<'de> Deserialize<'de> for SyncEvent {
    fn deserialize<R: Read>(alloc: Global, de: &mut Deserializer<'de, R>) -> ReadResult<Self, R> {
        let names = &["seq", "did", "rev", "time"];
        let row = read_struct(alloc, "SyncEvent", names, de)?;
        let (Required(seq), row) = row;
        let (Required(did), row) = row;
        let (Required(rev), row) = row;
        let (Required(time), ()) = row;
        Ok(SyncEvent {
            seq,
            did,
            rev,
            time,
        })
    }
}

impl<'de> DeserializeOwned<'de> for SyncEvent {
    ghost owned = { refl };
}

impl Serialize for IdentityEvent {
    ghost tree = { λ v. entries_tree (
        field (codes "did") (Some (text (string_bytes v.did))) ∷
        field (codes "seq") (Some (integer v.seq)) ∷
        field (codes "time") (Some (text (string_bytes v.time))) ∷
        optional (codes "handle") (λ x. Some (text (string_bytes x))) v.handle []) };

    ghost takes_memory = { true };

    fn serialize<W: Write>(&self, alloc: Global, ser: &mut Serializer<W>) -> WriteResult<(), W> {
        let row = ();
        let row = (Optional("handle", &self.handle), row);
        let row = (Field("time", &self.time), row);
        let row = (Field("seq", &self.seq), row);
        let row = (Field("did", &self.did), row);
        write_struct(alloc, row, ser)
    }
}

impl Shown for IdentityEvent {
    ghost View = { IdentityEventView };

    ghost meaning = { λ v. (
      v.seq,
      (
        string_bytes v.did,
        (string_bytes v.time, (⟦<Option<String> as Shown>⟧.meaning v.handle, tt)),
      ),
    ) };

    ghost shape = { identity_event_shape };
}

impl<'de> Deserialize<'de> for IdentityEvent {
    fn deserialize<R: Read>(alloc: Global, de: &mut Deserializer<'de, R>) -> ReadResult<Self, R> {
        let names = &["seq", "did", "time", "handle"];
        let row = read_struct(alloc, "IdentityEvent", names, de)?;
        let (Required(seq), row) = row;
        let (Required(did), row) = row;
        let (Required(time), row) = row;
        let (Omissible(handle), ()) = row;
        Ok(IdentityEvent {
            seq,
            did,
            time,
            handle,
        })
    }
}

impl<'de> DeserializeOwned<'de> for IdentityEvent {
    ghost owned = { refl };
}

impl Serialize for AccountEvent {
    ghost tree = { λ v. entries_tree (
        field (codes "did") (Some (text (string_bytes v.did))) ∷
        field (codes "seq") (Some (integer v.seq)) ∷
        field (codes "time") (Some (text (string_bytes v.time))) ∷
        field (codes "active") (Some (boolean v.active)) ∷
        optional (codes "status") (λ x. Some (text (string_bytes x))) v.status []) };

    ghost takes_memory = { true };

    fn serialize<W: Write>(&self, alloc: Global, ser: &mut Serializer<W>) -> WriteResult<(), W> {
        let row = ();
        let row = (Optional("status", &self.status), row);
        let row = (Field("active", &self.active), row);
        let row = (Field("time", &self.time), row);
        let row = (Field("seq", &self.seq), row);
        let row = (Field("did", &self.did), row);
        write_struct(alloc, row, ser)
    }
}

impl Shown for AccountEvent {
    ghost View = { AccountEventView };

    ghost meaning = { λ v. (
      v.seq,
      (
        string_bytes v.did,
        (string_bytes v.time, (v.active, (⟦<Option<String> as Shown>⟧.meaning v.status, tt))),
      ),
    ) };

    ghost shape = { account_event_shape };
}

impl<'de> Deserialize<'de> for AccountEvent {
    fn deserialize<R: Read>(alloc: Global, de: &mut Deserializer<'de, R>) -> ReadResult<Self, R> {
        let names = &["seq", "did", "time", "active", "status"];
        let row = read_struct(alloc, "AccountEvent", names, de)?;
        let (Required(seq), row) = row;
        let (Required(did), row) = row;
        let (Required(time), row) = row;
        let (Required(active), row) = row;
        let (Omissible(status), ()) = row;
        Ok(AccountEvent {
            seq,
            did,
            time,
            active,
            status,
        })
    }
}

impl<'de> DeserializeOwned<'de> for AccountEvent {
    ghost owned = { refl };
}

impl Serialize for InfoEvent {
    ghost tree = { λ v. entries_tree (
        field (codes "name") (Some (text (string_bytes v.name))) ∷
        optional (codes "message") (λ x. Some (text (string_bytes x))) v.message []) };

    ghost takes_memory = { true };

    fn serialize<W: Write>(&self, alloc: Global, ser: &mut Serializer<W>) -> WriteResult<(), W> {
        let row = ();
        let row = (Optional("message", &self.message), row);
        let row = (Field("name", &self.name), row);
        write_struct(alloc, row, ser)
    }
}

impl Shown for InfoEvent {
    ghost View = { InfoEventView };

    ghost meaning = { λ v. (string_bytes v.name, (⟦<Option<String> as Shown>⟧.meaning v.message, tt)) };

    ghost shape = { info_event_shape };
}

impl<'de> Deserialize<'de> for InfoEvent {
    fn deserialize<R: Read>(alloc: Global, de: &mut Deserializer<'de, R>) -> ReadResult<Self, R> {
        let names = &["name", "message"];
        let row = read_struct(alloc, "InfoEvent", names, de)?;
        let (Required(name), row) = row;
        let (Omissible(message), ()) = row;
        Ok(InfoEvent { name, message })
    }
}

impl<'de> DeserializeOwned<'de> for InfoEvent {
    ghost owned = { refl };
}

impl Serialize for ErrorEvent {
    ghost tree = { λ v. entries_tree (
        field (codes "error") (Some (text (string_bytes v.error))) ∷
        optional (codes "message") (λ x. Some (text (string_bytes x))) v.message []) };

    ghost takes_memory = { true };

    fn serialize<W: Write>(&self, alloc: Global, ser: &mut Serializer<W>) -> WriteResult<(), W> {
        let row = ();
        let row = (Optional("message", &self.message), row);
        let row = (Field("error", &self.error), row);
        write_struct(alloc, row, ser)
    }
}

impl Shown for ErrorEvent {
    ghost View = { ErrorEventView };

    ghost meaning = { λ v. (
      string_bytes v.error,
      (⟦<Option<String> as Shown>⟧.meaning v.message, tt),
    ) };

    ghost shape = { error_event_shape };
}

impl<'de> Deserialize<'de> for ErrorEvent {
    fn deserialize<R: Read>(alloc: Global, de: &mut Deserializer<'de, R>) -> ReadResult<Self, R> {
        let names = &["error", "message"];
        let row = read_struct(alloc, "ErrorEvent", names, de)?;
        let (Required(error), row) = row;
        let (Omissible(message), ()) = row;
        Ok(ErrorEvent { error, message })
    }
}

impl<'de> DeserializeOwned<'de> for ErrorEvent {
    ghost owned = { refl };
}
