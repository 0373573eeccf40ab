//! For each number, how many blocks have it, and their total length.

ghost use Rattle.std.specs.Prelude.{◌≡◌, ◌+◌, [], IfOk, OnOk};
ghost use Rattle.program_inspect.specs.Rows.{joins, row_at, counts_in, no_row};

use std::alloc::{AllocError, Global};
use std::collections::BTreeMap;

/// The number of blocks, and their total length in bytes.
#[derive(Clone, Copy, Drop)]
pub struct Row {
    pub count: u64,
    pub bytes: u64,
}

/// Returns the sum, which never gets large enough to overflow.
fn sum(first: u64, second: u64) -> Result<u64, AllocError>
    ensures { IfOk result (λ n. n ≡ first + second) }
{
    first.checked_add(second).ok_or(AllocError)
}

impl Row {
    /// Returns the row of no blocks.
    pub fn new() -> Row
        ensures { result ≡ no_row }
    {
        Row { count: 0, bytes: 0 }
    }

    /// Returns the row with one more block, `bytes` long.
    pub fn with(self, bytes: u64) -> Result<Row, AllocError>
        ensures { IfOk result (λ row. row ≡ joins bytes self) }
    {
        let count = sum(self.count, 1)?;
        let bytes = sum(self.bytes, bytes)?;
        Ok(Row { count, bytes })
    }
}

/// A row for each number.
#[derive(Drop)]
pub struct Rows {
    rows: BTreeMap<u64, Row>,
}

impl Rows {
    /// Returns no rows.
    pub fn new(alloc: Global) -> Rows
        ensures { result.rows.entries ≡ [] }
    {
        Rows {
            rows: BTreeMap::new(alloc),
        }
    }

    /// Returns the row of the number.
    fn row(&self, number: u64) -> Row
        ensures { result ≡ row_at number self.now.rows.entries }
    {
        match self.rows.get(&number) {
            Some(row) => *row,
            None => Row::new(),
        }
    }

    /// Counts a block of this length in the row of the number. After an error the rows are as
    /// before.
    pub fn count(&mut self, number: u64, bytes: u64) -> Result<(), AllocError>
        ensures { OnOk result
            (self.new.rows.entries ≡ counts_in self.old.rows.entries number bytes) }
    {
        let row = self.row(number).with(bytes)?;
        match self.rows.insert(number, row) {
            Ok(_before) => Ok(()),
            Err(_) => Err(AllocError),
        }
    }

    /// Returns the rows, in the order of their numbers.
    pub fn into_vec(self, alloc: Global) -> Result<Vec<(u64, Row)>, AllocError>
        ensures { IfOk result (λ v. v.items ≡ self.rows.entries) }
    {
        let mut list = Vec::new(alloc);
        for entry in self.rows {
            list.push(entry)?;
        }
        Ok(list)
    }
}
