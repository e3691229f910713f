//! The rows of a table by place.

ghost use Rattle.std.specs.Prelude.{◌≡◌, ◌<◌, ◌≤◌, [], IfOk, vec_len, slice_index_or};
ghost use Rattle.sheet.specs.Standings.{nobody};
ghost use Rattle.sheet.specs.contracts.row.Row.{the_row as row_of};
ghost use Rattle.sheet.specs.contracts.table.Table.{the_row as table_of};
ghost use Rattle.std.specs.Vec.{with_item};
ghost use Rattle.std.specs.List.{insert, remove};
ghost use Rattle.std.specs.Borrow.{follows, sem};

use crate::bounds::MOST_GROUPS;
use crate::row::Row;
use crate::table::Table;
use std::alloc::{AllocError, Global};

impl Table {
    /// No rows, and memory for as many as a sheet holds.
    pub fn empty(heap: Global) -> Result<Table, AllocError>
        ensures { IfOk result (λ t. t.rows.items ≡ []) }
    {
        let rows = Vec::with_capacity(heap, MOST_GROUPS)?;
        Ok(Table { rows })
    }

    /// The rows by place.
    pub fn rows(&self) -> &[Row]
        ensures { result.now ≡ self.now.rows.items }
    {
        self.rows.as_slice()
    }

    /// Lends the row at a place to be changed.
    pub fn row_mut(&mut self, place: usize) -> &mut Row
        requires { place < vec_len self.old.rows }
        ensures* follows { sem 𝓛 (follows table_of row_of self.entry.ghost_name result.ghost_name (λ w. record { rows = with_item self.old.rows place w; short = self.old.short; roomy = self.old.roomy })) }
        ensures value { result.now ≡ slice_index_or self.old.rows.items place nobody }
    {
        &mut self.rows[place]
    }

    /// Puts a row in at a place. There is memory for it.
    pub fn insert(&mut self, place: usize, row: Row)
        requires inside { place ≤ vec_len self.old.rows }
        requires room { vec_len self.old.rows < 64 }
        ensures { self.new.rows.items ≡ insert self.old.rows.items place row }
    {
        self.rows.insert(place, row).unwrap();
    }

    /// Takes the row at a place out. Its memory serves again.
    pub fn remove(&mut self, place: usize)
        requires { place < vec_len self.old.rows }
        ensures { self.new.rows.items ≡ remove self.old.rows.items place }
    {
        let _ = self.rows.remove(place);
    }

    /// Takes all rows out. Their memory serves again.
    pub fn clear(&mut self)
        ensures { self.new.rows.items ≡ [] }
    {
        self.rows.clear();
    }

    /// Puts another table's rows into an empty one. There is memory for them.
    pub fn fill(&mut self, other: &Table)
        requires { self.old.rows.items ≡ [] }
        ensures { self.new.rows.items ≡ other.now.rows.items }
    {
        self.rows.extend_from_slice(other.rows()).unwrap();
    }
}
