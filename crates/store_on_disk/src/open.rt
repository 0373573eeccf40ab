//! Opening a store.

ghost use Rattle.std.specs.Prelude.{◌≡◌, ◌⊎◌, ◌↔◌, true, false, map, IsTrue, IfOk, IfErr, IfSome, OnOk};
ghost use Rattle.sqlite_value.specs.declared.value.Value.TheVariants.{Text};
ghost use Rattle.sqlite_value.specs.Value.{owned};
ghost use Rattle.sqlite_trees.specs.View.{IsClean};
ghost use Rattle.sqlite_std_file.specs.File.{file_is_usable, IsFresh as IsFileFresh};
ghost use Rattle.sqlite_wal.specs.Files.{image_at, seen_image};
ghost use Rattle.sqlite_wal.specs.PageSize.{bytes_of};
ghost use Rattle.sqlite_wal.specs.Reads.{are_clean, AreClean, OnlyReads};
ghost use Rattle.sqlite_store.specs.Calls.{IsQuietCall};
ghost use Rattle.sqlite_store.specs.Catalog.{text_or_null, wanted_of};
ghost use Rattle.sqlite_store.specs.FileStore.{view, recovers};
ghost use Rattle.sqlite_store.specs.Unopened.{AreUsable, files_of, state_of, wanted_by};
ghost use Rattle.store_on_disk.specs.Stored.{IsKeptBy};
ghost use Rattle.store_on_disk.specs.Opened.{HasTrees, IsChecked, IsMoved, IsOpened, IsSettled, OnlyMarks};
ghost use Rattle.store_on_disk.specs.Leaving.{IsStoreSchema, LeavesStore, LeavesAsListed, IsSpared};
ghost use Rattle.store_on_disk.specs.Left.{store_objects, IsRowOfObject, ListsObjects, NamesSize};
ghost use Rattle.store_on_disk.specs.Left.{IsLeft, IsFresh, HoldsLeft, HasStore};

use crate::error::StoreRefusal;
use crate::store::{BlockStore, bad_entry, bad_root};
use sqlite_disk::{Disk, Files, Start};
use sqlite_pager::{Options, Pager};
use sqlite_std_file::{FileFrom, OpenError as PathError};
use sqlite_store::{FileStore, OpenError, Unopened};
use sqlite_trees::error::StoreError;
use sqlite_trees::schema::Object;
use sqlite_trees::store::{Alter, Shape, Store};
use sqlite_value::keys::Order;
use sqlite_value::order::is_same;
use sqlite_value::row::Row;
use sqlite_value::value::ValueRef;
use sqlite_wal::{PageSize, probe_first_page, probe_page_size};
use std::alloc::{AllocFailed, Global};
use std::hash::{BuildHasher, RandomState};
use std::rt::HostRuntime;
use store_rows::entries::{BLOCKS, NAMES};
use store_rows::roots::{self, ROOTS};
use store_rows::survey::survey;

/// The version of the schema, SQLite's `user_version`.
const VERSION: u32 = 2;

/// The version of a schema without roots.
const EARLIER: u32 = 1;

const BLOCK_TABLE: &str =
    "CREATE TABLE block (cid BLOB NOT NULL PRIMARY KEY, bytes BLOB NOT NULL) STRICT";

const ROOT_TABLE: &str = "CREATE TABLE root (cid BLOB NOT NULL) STRICT";

/// The page size of a new file, in bytes.
const PAGE_SIZE: usize = 4096;

/// How many pages that wait for a commit stay in memory before they go to the log: 128 MB of 4096
/// bytes. Names come in no order, so each time most pages of a large index go too.
const SPILL_PAGES: usize = 32_768;

/// Returns the version of the schema that has these trees, or `None` if none has.
fn version_of<S: Store>(store: &S) -> Option<u32>
    ensures { IfSome result (λ _. HasTrees (S.Store.view store.now)) }
{
    if store.shape(BLOCKS) != Shape::Table || store.shape(NAMES) != Shape::Index(Order::PLAIN) {
        return None;
    }
    match store.shape(ROOTS) {
        Shape::Table => Some(VERSION),
        Shape::Absent => Some(EARLIER),
        _ => None,
    }
}

/// Checks that the database holds blocks and roots, and nothing else. The inner error says what
/// else it holds. A database that was just made gets its version.
fn check<S: Alter>(
    alloc: Global,
    store: &mut S,
    row: &mut Row,
) -> Result<Result<(), StoreRefusal>, StoreError>
    ensures ok { IfOk result (λ judged. IsClean (S.Store.view store.new)
        → OnOk judged (IsChecked (S.Store.view store.old) (S.Store.view store.new))) }
    ensures crash { (db : _) → S.Store.recovers store.new db → S.Store.recovers store.old db
        ⊎ (IsClean (S.Store.view store.new)
        → IsTrue (S.Store.view store.old).is_open × OnlyMarks (S.Store.view store.old).trees db) }
    ensures kept { IsKeptBy S.Store store.old store.new }
{
    let Some(version) = version_of(store) else {
        return Ok(Err(StoreRefusal::NotAStore));
    };
    let Some(count) = survey(alloc, store, row)? else {
        return Ok(Err(bad_entry(row)));
    };
    let Some(names) = roots::list(alloc, store, row)? else {
        return Ok(Err(bad_root(row)));
    };
    match store.version() {
        found if found == version => Ok(Ok(())),
        0 if count == 0 && names.is_empty() => {
            store.set_version(version)?;
            store.commit()?;
            Ok(Ok(()))
        }
        _ => Ok(Err(StoreRefusal::NotAStore)),
    }
}

impl<S: Alter + Drop> BlockStore<S> {
    /// Takes a database, and undoes what is not committed in it. One that is not a store is given
    /// back with `NotAStore`, `BadEntry` or `BadRoot`.
    pub fn over(alloc: Global, mut store: S) -> Result<BlockStore<S>, (StoreRefusal, S)>
        ensures ok { IfOk result (λ it. IsClean (S.Store.view it)
            → IsOpened (S.Store.view store) (S.Store.view it)) }
        ensures kept { IfOk result (IsKeptBy S.Store store) }
        ensures leaves { IfOk result (LeavesAsListed S.Store store) }
        ensures unharmed { IfErr result (λ e. IsKeptBy S.Store store e.1) }
        ensures spared { IfErr result (λ e. IsSpared S.Store store e.1) }
    {
        let mut row = Row::new(alloc);
        store.rollback();
        match check(alloc, &mut store, &mut row) {
            Ok(Ok(())) => Ok(BlockStore::of(alloc, store, row)),
            Ok(Err(refusal)) => Err((refusal, store)),
            Err(error) => {
                store.rollback();
                Err((StoreRefusal::of_store(error), store))
            }
        }
    }
}

/// Takes a database as `over` does, and drops it if it is refused.
fn opened<S: Alter + Drop>(alloc: Global, store: S) -> Result<BlockStore<S>, StoreRefusal>
    ensures ok { IfOk result (λ it. IsClean (S.Store.view it)
        → IsOpened (S.Store.view store) (S.Store.view it)) }
    ensures leaves { IfOk result (LeavesAsListed S.Store store) }
{
    let taken = BlockStore::over(alloc, store);
    match taken {
        Ok(store) => Ok(store),
        Err((refusal, left)) => {
            drop(left);
            Err(refusal)
        }
    }
}

/// Takes a database that was just opened and is known to be a store's. It is checked if its version
/// is not that of its trees.
fn trusted<S: Alter + Drop>(alloc: Global, store: S) -> Result<BlockStore<S>, StoreRefusal>
    requires fresh { IsClean (S.Store.view store) → IsFresh (S.Store.view store) }
    ensures ok { IfOk result (λ it. IsClean (S.Store.view it)
        → IsOpened (S.Store.view store) (S.Store.view it)) }
    ensures leaves { IfOk result (LeavesAsListed S.Store store) }
{
    let Some(version) = version_of(&store) else {
        return Err(StoreRefusal::NotAStore);
    };
    if store.version() == version {
        return Ok(BlockStore::of(alloc, store, Row::new(alloc)));
    }
    opened(alloc, store)
}

/// Returns the table of blocks, the index of their names, and the table of roots.
fn schema() -> [Object<'static>; 3]
    ensures { map wanted_of result ≡ store_objects }
{
    [
        Object {
            shape: Shape::Table,
            kind: "table",
            name: "block",
            table: "block",
            reals: 0,
            sql: Some(BLOCK_TABLE),
        },
        Object {
            shape: Shape::Index(Order::PLAIN),
            kind: "index",
            name: "sqlite_autoindex_block_1",
            table: "block",
            reals: 0,
            sql: None,
        },
        Object {
            shape: Shape::Table,
            kind: "table",
            name: "root",
            table: "root",
            reals: 0,
            sql: Some(ROOT_TABLE),
        },
    ]
}

/// Returns whether the value is this text.
fn is_text(value: ValueRef<'_>, text: &str) -> bool
    ensures { IsTrue result ↔ (owned value.entry ≡ Text text.now) }
{
    is_same(value, ValueRef::Text(text.as_bytes()))
}

/// Returns whether the value is the SQL text of an object, or null if it has none.
fn is_sql(value: ValueRef<'_>, sql: Option<&str>) -> bool
    ensures { IsTrue result ↔ (owned value.entry ≡ text_or_null sql.entry) }
{
    match sql {
        Some(text) => is_text(value, text),
        None => is_same(value, ValueRef::Null),
    }
}

/// Returns whether the row of `sqlite_schema` is that of the object.
fn is_row_of(row: &Row, object: &Object<'_>) -> bool
    ensures { IsTrue result → IsRowOfObject (wanted_of object.now) row.now }
{
    is_text(row.get(1), object.kind)
        && is_text(row.get(2), object.name)
        && is_text(row.get(3), object.table)
        && is_sql(row.get(5), object.sql)
}

/// Returns whether the rows are those of these objects, in this order.
fn lists(rows: &[Row], objects: &[Object<'_>]) -> bool
    ensures { IsTrue result → ListsObjects (map wanted_of objects.now) rows.now }
{
    let [row, rows @ ..] = rows else {
        return objects.is_empty();
    };
    let [object, objects @ ..] = objects else {
        return false;
    };
    is_row_of(row, object) && lists(rows, objects)
}

/// Returns whether the rows are those of the schema.
fn lists_schema(rows: &[Row]) -> bool
    ensures { IsTrue result → ListsObjects store_objects rows.now }
{
    lists(rows, &schema())
}

/// Returns the page size, and whether the files begin as a database does.
fn page_size<D: Disk>(alloc: Global, files: &mut Files<D>) -> Result<(PageSize, bool), StoreRefusal>
    requires log { IsTrue (D.Disk.is_usable files.old.log) }
    requires db { IsTrue (D.Disk.is_usable files.old.db) }
    ensures log { OnlyReads D.Disk files.old.log files.new.log }
    ensures db { OnlyReads D.Disk files.old.db files.new.db }
    ensures names { IfOk result (λ p. AreClean D.Disk files.new.log files.new.db → IsTrue p.1
        → NamesSize (seen_image D.Disk files.old.log files.old.db) (bytes_of p.0)) }
{
    let size = match probe_page_size(files) {
        Ok(Some(size)) => size,
        Ok(None) => return Ok((PageSize::new(PAGE_SIZE).unwrap(), false)),
        Err(_) => return Err(StoreRefusal::Disk(StoreError::Io)),
    };
    match probe_first_page(alloc, files, size) {
        Ok((first, _)) => Ok((size, first == b'S')),
        Err(sqlite_wal::Error::OutOfMemory) => Err(StoreRefusal::OutOfMemory),
        Err(sqlite_wal::Error::Io(_)) => Err(StoreRefusal::Disk(StoreError::Io)),
        Err(_) => Ok((size, false)),
    }
}

/// Returns a database of this schema over the files, not yet opened.
fn over_files<D: Disk + Drop>(
    alloc: Global,
    files: Files<D>,
    size: PageSize,
    seed: u64,
    schema: &[Object<'_>],
) -> Result<Unopened<D>, StoreRefusal>
    requires log { IsTrue (D.Disk.is_usable files.log) }
    requires db { IsTrue (D.Disk.is_usable files.db) }
    ensures usable { IfOk result (λ it. AreUsable it) }
    ensures files { IfOk result (λ it. files_of it ≡ (files.log, files.db)) }
    ensures size { IfOk result (λ it. (state_of it).page_size ≡ bytes_of size) }
    ensures schema { IfOk result (λ it. wanted_by it ≡ map wanted_of schema.now) }
    ensures clean { IfOk result (λ it. (state_of it).is_clean ≡ are_clean D.Disk files.log files.db) }
{
    let options = Options {
        spill_pages: SPILL_PAGES,
        ..Options::new(seed)
    };
    let Ok(pager) = Pager::new(alloc, files, size, options) else {
        return Err(StoreRefusal::OutOfMemory);
    };
    match Unopened::new(alloc, pager, schema) {
        Ok(unopened) => Ok(unopened),
        Err(_) => Err(StoreRefusal::OutOfMemory),
    }
}

/// Makes the database, or resumes one whose making was cut off.
fn create<D: Disk + Drop>(
    alloc: Global,
    unopened: Unopened<D>,
) -> Result<BlockStore<FileStore<D>>, StoreRefusal>
    requires usable { AreUsable unopened }
    requires schema { IsStoreSchema (wanted_by unopened) }
    ensures settled { IfOk result (λ it. IsClean (view it) → IsSettled (view it)) }
    ensures leaves { IfOk result (λ it. IsClean (view it) → LeavesStore recovers it) }
{
    match unopened.create() {
        Ok(store) => opened(alloc, store),
        Err((error, _)) => Err(StoreRefusal::of_opening(error)),
    }
}

/// Opens the database, and checks each page and each listed name.
fn open_whole<D: Disk + Drop>(
    alloc: Global,
    found: Unopened<D>,
) -> Result<BlockStore<FileStore<D>>, StoreRefusal>
    requires usable { AreUsable found }
    requires schema { IsStoreSchema (wanted_by found) }
    ensures settled { IfOk result (λ it. IsClean (view it) → IsSettled (view it)) }
    ensures leaves { IfOk result (λ it. IsClean (view it) → LeavesStore recovers it) }
{
    match found.open_numbered() {
        Ok(store) => opened(alloc, store),
        Err((error, _)) => Err(StoreRefusal::of_opening(error)),
    }
}

/// Opens a database that is known to be a store's.
fn open_trusted<D: Disk + Drop>(
    alloc: Global,
    found: Unopened<D>,
) -> Result<BlockStore<FileStore<D>>, StoreRefusal>
    requires usable { AreUsable found }
    requires schema { IsStoreSchema (wanted_by found) }
    requires ours { IsTrue (state_of found).is_clean → HasStore found }
    ensures settled { IfOk result (λ it. IsClean (view it) → IsSettled (view it)) }
    ensures leaves { IfOk result (λ it. IsClean (view it) → LeavesStore recovers it) }
{
    match found.open_trusted() {
        Ok(store) => trusted(alloc, store),
        Err((error, _)) => Err(StoreRefusal::of_opening(error)),
    }
}

/// How much of a database is checked as it is opened.
#[derive(Clone, Copy, Debug, PartialEq, Eq)]
enum Depth {
    /// The header, the list of free pages, and the schema.
    Schema,
    /// Each page, and each listed name.
    Whole,
}

/// Opens a database whose `sqlite_schema` has these rows.
fn open_listed<D: Disk + Drop>(
    alloc: Global,
    found: Unopened<D>,
    rows: &[Row],
    depth: Depth,
) -> Result<BlockStore<FileStore<D>>, StoreRefusal>
    requires usable { AreUsable found }
    requires schema { IsStoreSchema (wanted_by found) }
    requires ours { depth ≡ Depth.Schema → IsTrue (state_of found).is_clean
        → ListsObjects store_objects rows.now → HasStore found }
    ensures settled { IfOk result (λ it. IsClean (view it) → IsSettled (view it)) }
    ensures leaves { IfOk result (λ it. IsClean (view it) → LeavesStore recovers it) }
{
    if rows.is_empty() {
        return create(alloc, found);
    }
    if !lists_schema(rows) {
        return Err(StoreRefusal::NotAStore);
    }
    match depth {
        Depth::Schema => open_trusted(alloc, found),
        Depth::Whole => open_whole(alloc, found),
    }
}

/// Opens the database in files that begin as one. A database of the earlier version is checked
/// whole.
fn open_found<D: Disk + Drop>(
    alloc: Global,
    mut found: Unopened<D>,
    size: PageSize,
    seed: u64,
    depth: Depth,
) -> Result<BlockStore<FileStore<D>>, StoreRefusal>
    requires usable { AreUsable found }
    requires schema { wanted_by found ≡ store_objects }
    requires ours { depth ≡ Depth.Schema → IsTrue (state_of found).is_clean → HoldsLeft found }
    ensures settled { IfOk result (λ it. IsClean (view it) → IsSettled (view it)) }
    ensures leaves { IfOk result (λ it. IsClean (view it) → LeavesStore recovers it) }
{
    let rows = match found.read_catalog() {
        Ok(rows) => rows,
        Err(error) => return Err(StoreRefusal::of_opening(error)),
    };
    if rows.len() == 2 {
        let earlier = over_files(alloc, found.close(), size, seed, &schema()[..2])?;
        return open_whole(alloc, earlier);
    }
    open_listed(alloc, found, rows.as_slice(), depth)
}

/// Recovers the database in the files, or makes one if there is none.
fn recover<D: Disk + Drop>(
    alloc: Global,
    mut files: Files<D>,
    seed: u64,
    depth: Depth,
) -> Result<BlockStore<FileStore<D>>, StoreRefusal>
    requires log { IsTrue (D.Disk.is_usable files.log) }
    requires db { IsTrue (D.Disk.is_usable files.db) }
    requires ours { depth ≡ Depth.Schema → IsLeft (seen_image D.Disk files.log files.db) }
    ensures settled { IfOk result (λ it. IsClean (view it) → IsSettled (view it)) }
    ensures leaves { IfOk result (λ it. IsClean (view it) → LeavesStore recovers it) }
{
    let (size, is_begun) = page_size(alloc, &mut files)?;
    let unopened = over_files(alloc, files, size, seed, &schema())?;
    if is_begun {
        open_found(alloc, unopened, size, seed, depth)
    } else {
        create(alloc, unopened)
    }
}

/// Opens the files at the path, or makes them if there are none. Returns them with a random number.
fn files_at<S: Start>(
    rt: &HostRuntime,
    path: &str,
    start: S,
) -> Result<(Files<FileFrom<S>>, u64), StoreRefusal>
    ensures log { IfOk result (λ p. IsTrue (file_is_usable S.Start p.0.log)) }
    ensures db { IfOk result (λ p. IsTrue (file_is_usable S.Start p.0.db)) }
    ensures fresh { IfOk result (λ p. IsFileFresh true p.0.log × IsFileFresh false p.0.db) }
{
    let files = match sqlite_std_file::open(rt, path, start) {
        Ok(files) => files,
        Err(PathError::OutOfMemory) => return Err(StoreRefusal::OutOfMemory),
        Err(PathError::Busy) => return Err(StoreRefusal::Locked),
        Err(_) => return Err(StoreRefusal::CannotOpen),
    };
    match RandomState::new(rt) {
        Ok(state) => Ok((files, state.hash_one(&0u8))),
        Err(_) => Err(StoreRefusal::CannotOpen),
    }
}

impl<S: Start> BlockStore<FileStore<FileFrom<S>>> {
    /// Opens the store in the file, or makes it if there is no file, or an empty one. The file is
    /// locked until the store is dropped. A file that is not a store is refused, and left as it is.
    ///
    /// It reads the header, the schema and the list of free pages, whatever the size of the file,
    /// and the whole log. So it trusts that a file with the schema of a store is what a store left,
    /// even after a crash; `open_whole` checks that.
    pub fn open(
        rt: &HostRuntime,
        path: &str,
        start: S,
    ) -> Result<BlockStore<FileStore<FileFrom<S>>>, StoreRefusal>
        requires ours { IsLeft (image_at S.Start) }
        ensures settled { IfOk result (λ it. IsClean (view it) → IsSettled (view it)) }
        ensures leaves { IfOk result (λ it. IsClean (view it) → LeavesStore recovers it) }
    {
        let (files, seed) = files_at(rt, path, start)?;
        recover(rt.alloc(), files, seed, Depth::Schema)
    }

    /// Opens a file that may be damaged, as `open` does. It reads each page, and refuses a file if
    /// its trees are unsound, or it lists a name twice or one that is not a CID.
    pub fn open_whole(
        rt: &HostRuntime,
        path: &str,
        start: S,
    ) -> Result<BlockStore<FileStore<FileFrom<S>>>, StoreRefusal>
        ensures settled { IfOk result (λ it. IsClean (view it) → IsSettled (view it)) }
        ensures leaves { IfOk result (λ it. IsClean (view it) → LeavesStore recovers it) }
    {
        let (files, seed) = files_at(rt, path, start)?;
        recover(rt.alloc(), files, seed, Depth::Whole)
    }
}

impl<D: Disk> BlockStore<FileStore<D>> {
    /// Moves all that was committed from the log into the database file, cuts the log to its
    /// header, and returns the database: so the next open reads no log. Uncommitted changes are
    /// undone. If it fails, the log stays as it is, and has what the file lacks.
    pub fn into_file(self) -> Result<FileStore<D>, (StoreRefusal, FileStore<D>)>
        ensures moved { IfOk result (λ it. IsClean (view it) → IsMoved self it) }
        ensures kept { IfOk result (IsQuietCall self) }
        ensures unharmed { IfErr result (λ e. IsQuietCall self e.1) }
    {
        let BlockStore {
            alloc: _,
            mut store,
            row: _,
        } = self;
        store.rollback();
        match store.checkpoint() {
            Ok(()) => Ok(store),
            Err(error) => Err((StoreRefusal::of_store(error), store)),
        }
    }
}
