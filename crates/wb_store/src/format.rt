//! The formats of an office's tables.
ghost use Rattle.std.specs.Prelude.{◌≡◌, IfOk, IfSome, IfNone};
ghost use Rattle.wb_states.specs.Lookups.{entry_of};
ghost use Rattle.wb_store.specs.Queries.{IsTextOfQuery};
ghost use Rattle.wb_store.specs.Schemas.{IsKeptIn, IsNoneIn, cells_in, number_of, query_of_records, table_of_records};

use sqlite::Row;
use std::alloc::AllocError;
use wb_rows::{first_record_of, record_of};
use wb_sql::{first_schema, statements};
use wb_states::{KeyedRecord, Table};

/// A format of an office's tables, by the schema that they have.
#[derive(Clone, Copy, Debug, PartialEq, Eq)]
pub enum Format {
    /// That of the first schema, whose records have no build priority and none of which was attempted. It is read alone.
    One,
    /// That of the second schema, in which all is written.
    Two,
}

impl Format {
    /// Its number in the table of the office: 1 or 2.
    pub fn number(self) -> u64
        ensures value { result ≡ number_of self }
    {
        match self {
            Format::One => 1,
            Format::Two => 2,
        }
    }

    /// The table of its records.
    pub(crate) fn table_of_records(self) -> Table
        ensures value { result ≡ table_of_records self }
    {
        match self {
            Format::One => Table::SourceState,
            Format::Two => Table::SourceRecord,
        }
    }

    /// The query for all its records, by architecture and then by source package.
    pub(crate) fn all_records(self) -> &'static str
        ensures text { IsTextOfQuery (query_of_records self) result.now }
    {
        match self {
            Format::One => first_schema::all_states(),
            Format::Two => statements::all_records(),
        }
    }

    /// The record, with its key, whose row this is. None if it is not the row of a record. The only error is that memory ran
    /// out.
    pub(crate) fn record_in(self, row: &Row) -> Result<Option<KeyedRecord>, AllocError>
        ensures value { IfOk result (λ found. IfSome found (λ made.
            (row.now ≡ cells_in self (entry_of made)) × IsKeptIn self made.current)) }
        ensures none { IfOk result (λ found. IfNone found (IsNoneIn self row.now)) }
    {
        match self {
            Format::One => first_record_of(row),
            Format::Two => record_of(row),
        }
    }
}
