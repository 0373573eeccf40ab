//! What a store replies to each request.

ghost use Rattle.std.specs.Prelude.{◌≡◌, ◌⊎◌};
ghost use Rattle.sqlite_trees.specs.View.{IsClean};
ghost use Rattle.store_on_disk.specs.Ends.{Quiet};
ghost use Rattle.store_on_disk.specs.Stored.{IsKeptBy, IsAddedTo};
ghost use Rattle.program_dagstore.specs.Changes.{name_as};
ghost use Rattle.program_serve.specs.Answers.{RepliesGet, RepliesHas, RepliesNext, RepliesCount, RepliesRoots, RepliesPut, RepliesAdd, RepliesRemove, RepliesAddRoot, RepliesDropRoot, RepliesCommit, RepliesRollback, Replies, Leaves};

use crate::asked::Request;
use crate::reply::Reply;
use ipld_tree::Cid;
use program_dagstore::name_as;
use store_on_disk::{BlockStore, Store};

/// Reads the block under the name.
fn reply_get<S: Store>(store: &mut BlockStore<S>, name: &Cid) -> Reply
    ensures replies { RepliesGet S.Store name.now store.old result store.new }
    ensures quiet { Quiet S.Store store.old store.new }
{
    match store.get_block(name) {
        Ok(Some(block)) => Reply::Block(block),
        Ok(None) => Reply::Nothing,
        Err(refusal) => Reply::Refused(refusal),
    }
}

/// Looks up whether something is listed under the name.
fn reply_has<S: Store>(store: &mut BlockStore<S>, name: &Cid) -> Reply
    ensures replies { RepliesHas S.Store name.now store.old result store.new }
    ensures quiet { Quiet S.Store store.old store.new }
{
    match store.contains(name) {
        Ok(true) => Reply::Done,
        Ok(false) => Reply::Nothing,
        Err(refusal) => Reply::Refused(refusal),
    }
}

/// Looks up the first name after the last one.
fn reply_next<S: Store>(store: &mut BlockStore<S>, last: Option<Cid>) -> Reply
    ensures replies { RepliesNext S.Store last store.old result store.new }
    ensures quiet { Quiet S.Store store.old store.new }
{
    match store.next_name(last) {
        Ok(Some(name)) => Reply::Name(name),
        Ok(None) => Reply::Nothing,
        Err(refusal) => Reply::Refused(refusal),
    }
}

/// Counts the names that are listed.
fn reply_count<S: Store>(store: &mut BlockStore<S>) -> Reply
    ensures replies { RepliesCount S.Store store.old result store.new }
    ensures quiet { Quiet S.Store store.old store.new }
{
    match store.len() {
        Ok(count) => Reply::Count(count),
        Err(refusal) => Reply::Refused(refusal),
    }
}

/// Lists the roots.
fn reply_roots<S: Store>(store: &mut BlockStore<S>) -> Reply
    ensures replies { RepliesRoots S.Store store.old result store.new }
    ensures quiet { Quiet S.Store store.old store.new }
{
    match store.roots() {
        Ok(names) => Reply::Names(names),
        Err(refusal) => Reply::Refused(refusal),
    }
}

/// Stores the block, commits all, and replies with the block's name.
fn reply_put<S: Store>(store: &mut BlockStore<S>, codec: u64, block: &[u8]) -> Reply
    ensures replies { RepliesPut S.Store codec block.now store.old result store.new }
    ensures kept { IsKeptBy S.Store store.old store.new }
    ensures crash { (db : _) → S.Store.recovers store.new db → S.Store.recovers store.old db
        ⊎ (IsClean (S.Store.view store.new)
        → IsAddedTo (S.Store.view store.old).trees db (name_as codec block.now) block.now) }
{
    let name = name_as(codec, block);
    match store.put_block(&name, block) {
        Ok(()) => Reply::Name(name),
        Err(refusal) => Reply::Refused(refusal),
    }
}

/// Stores the block as of the next commit, and replies with its name.
fn reply_add<S: Store>(store: &mut BlockStore<S>, codec: u64, block: &[u8]) -> Reply
    ensures replies { RepliesAdd S.Store codec block.now store.old result store.new }
    ensures quiet { Quiet S.Store store.old store.new }
{
    let name = name_as(codec, block);
    match store.add_block(&name, block) {
        Ok(()) => Reply::Name(name),
        Err(refusal) => Reply::Refused(refusal),
    }
}

/// Removes what is listed under the name, if anything is.
fn reply_remove<S: Store>(store: &mut BlockStore<S>, name: &Cid) -> Reply
    ensures replies { RepliesRemove S.Store name.now store.old result store.new }
    ensures quiet { Quiet S.Store store.old store.new }
{
    match store.remove(name) {
        Ok(true) => Reply::Done,
        Ok(false) => Reply::Nothing,
        Err(refusal) => Reply::Refused(refusal),
    }
}

/// Makes the name a root.
fn reply_add_root<S: Store>(store: &mut BlockStore<S>, name: &Cid) -> Reply
    ensures replies { RepliesAddRoot S.Store name.now store.old result store.new }
    ensures quiet { Quiet S.Store store.old store.new }
{
    match store.add_root(name) {
        Ok(()) => Reply::Done,
        Err(refusal) => Reply::Refused(refusal),
    }
}

/// Removes the name from the roots, if it is one.
fn reply_drop_root<S: Store>(store: &mut BlockStore<S>, name: &Cid) -> Reply
    ensures replies { RepliesDropRoot S.Store name.now store.old result store.new }
    ensures quiet { Quiet S.Store store.old store.new }
{
    match store.remove_root(name) {
        Ok(true) => Reply::Done,
        Ok(false) => Reply::Nothing,
        Err(refusal) => Reply::Refused(refusal),
    }
}

/// Commits what waited for a commit.
fn reply_commit<S: Store>(store: &mut BlockStore<S>) -> Reply
    ensures replies { RepliesCommit S.Store store.old result store.new }
    ensures kept { IsKeptBy S.Store store.old store.new }
    ensures crash { (db : _) → S.Store.recovers store.new db
        → (db ≡ (S.Store.view store.old).trees) ⊎ S.Store.recovers store.old db }
{
    match store.commit() {
        Ok(()) => Reply::Done,
        Err(refusal) => Reply::Refused(refusal),
    }
}

/// Undoes what waited for a commit.
fn reply_rollback<S: Store>(store: &mut BlockStore<S>) -> Reply
    ensures replies { RepliesRollback S.Store store.old result store.new }
    ensures quiet { Quiet S.Store store.old store.new }
{
    store.rollback();
    Reply::Done
}

/// Returns the store's reply to the request. `block` is the block of the request, if it has one.
pub fn reply_to<S: Store>(store: &mut BlockStore<S>, request: &Request, block: &[u8]) -> Reply
    ensures replies { Replies S.Store request.now block.now store.old result store.new }
    ensures leaves { Leaves S.Store request.now block.now store.old store.new }
{
    match request {
        Request::Get(name) => reply_get(store, name),
        Request::Has(name) => reply_has(store, name),
        Request::Put(codec, _) => reply_put(store, *codec, block),
        Request::Add(codec, _) => reply_add(store, *codec, block),
        Request::Remove(name) => reply_remove(store, name),
        Request::Next(last) => reply_next(store, *last),
        Request::Count => reply_count(store),
        Request::Roots => reply_roots(store),
        Request::AddRoot(name) => reply_add_root(store, name),
        Request::DropRoot(name) => reply_drop_root(store, name),
        Request::Commit => reply_commit(store),
        Request::Rollback => reply_rollback(store),
    }
}
