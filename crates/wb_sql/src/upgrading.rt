//! The tables and indexes of the second schema, made in a transaction beside the tables of the first; and where that can
//! be done.

ghost use Rattle.std.specs.Prelude.{◌≡◌, ◌↔◌, IsTrue, [], ◌∷◌};
ghost use Rattle.sqlite.specs.Change.{is_used};
ghost use Rattle.sqlite.specs.Schema.{Schema};
ghost use Rattle.wb_sql.specs.Among.{IsNumbered};
ghost use Rattle.wb_sql.specs.Making.{Makes, MakesTables};
ghost use Rattle.wb_sql.specs.Tables.{source_record};
ghost use Rattle.wb_sql.specs.Upgrading.{HasFirstOffice, has_second_name, with_second, with_second_take};

use crate::beside::{are_quiet, are_unreferred, has_sequence};
use crate::create;
use crate::definitions::{create_index, create_table};
use crate::first_schema::has_first_tables;
use sqlite::{Alter, Connection, Error};
use sqlite_schema::schema::Schema;

// No name of the index of a key is looked at, since SQLite gives it to no other index.
/// Whether [`make_second_tables`] can make the tables and indexes of the second schema in the schema: it has the tables of
/// the first, as [`crate::has_first_tables`] says; no table, index or view has a name of what is made, where ASCII letters of
/// either case are the same; no table of others refers to a table of either schema, and no foreign key that refers to one
/// of them has an action. A schema with a table that counts its rowids (AUTOINCREMENT) must also have the table
/// `sqlite_sequence`, as SQLite makes it. The schema of a connection is `Connection::schema` (this project's own).
pub fn has_first_office_tables(schema: &Schema) -> bool
    ensures value { IsTrue result ↔ HasFirstOffice schema.now }
{
    has_first_tables(schema)
        && !has_second_name(schema)
        && are_unreferred(schema)
        && are_quiet(schema)
        && has_sequence(schema)
}

// The old table of records stays, without a row, and its rows are those of others for every
// command: the statements that are proved cannot drop a table. It refers to `arch`, so the tables
// of the office are those of both schemas in `are_unreferred` and `are_quiet`. The indexes of the
// scratch tables are made now, since an opening compares all of them.
/// Makes the table of records of the second schema, its indexes, and those of the scratch tables, in a database of the
/// first schema, as [`has_first_office_tables`] says; the schema has an office's tables then, as
/// [`crate::has_office_tables`] says. The new table has no row, and all other tables keep theirs. It fails as `execute` does,
/// and the caller then rolls back.
pub fn make_second_tables<S: Alter>(conn: &mut Connection<S>) -> Result<(), Error>
    ensures makes { (base : Schema) → HasFirstOffice base → IsNumbered base
        → Makes S.Store base [] (MakesTables base.tables (with_second base) (source_record ∷ []))
        conn.old conn.new result }
{
    make_second_records(conn)?;
    index_scratch_tables(conn)
}

/// Makes the table of records of the second schema and its indexes.
fn make_second_records<S: Alter>(conn: &mut Connection<S>) -> Result<(), Error>
    ensures makes { (base : Schema) → HasFirstOffice base → IsNumbered base
        → Makes S.Store base [] (MakesTables base.tables (with_second_take base) (source_record ∷ []))
        conn.old conn.new result }
{
    create_table(conn, create::source_record())?;
    create_index(conn, create::record_order())?;
    create_index(conn, create::record_take())
}

/// Makes the indexes of the scratch tables, which those of the first schema lack.
fn index_scratch_tables<S: Alter>(conn: &mut Connection<S>) -> Result<(), Error>
    ensures makes { (base : Schema) → HasFirstOffice base → IsNumbered base
        → Makes S.Store (with_second_take base) (source_record ∷ [])
        (MakesTables base.tables (with_second base) (source_record ∷ []))
        conn.old conn.new result }
{
    create_index(conn, create::source_name())?;
    create_index(conn, create::binary_source())?;
    create_index(conn, create::binary_name())
}

/// Whether a table, an index or a view has a name of what the second schema adds to the first.
fn has_second_name(schema: &Schema) -> bool
    ensures value { result ≡ has_second_name schema.now }
{
    is_used(schema, b"source_record")
        || is_used(schema, b"record_order")
        || is_used(schema, b"record_take")
        || is_used(schema, b"source_name")
        || is_used(schema, b"binary_source")
        || is_used(schema, b"binary_name")
}

/// Whether a table, an index or a view has this name.
fn is_used(schema: &Schema, name: &[u8]) -> bool
    ensures value { result ≡ is_used schema.now name.now }
{
    schema.table_named(name).is_some()
        || schema.index_named(name).is_some()
        || schema.view_named(name).is_some()
}
