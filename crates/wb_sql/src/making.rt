//! The office's tables and indexes, made in a transaction.

ghost use Rattle.std.specs.Prelude.{◌≡◌, [], ◌∷◌};
ghost use Rattle.sqlite.specs.Schema.{Schema};
ghost use Rattle.wb_sql.specs.Among.{LacksOffice, IsNumbered};
ghost use Rattle.wb_sql.specs.Making.{Makes, MakesTables, MakesOffice, tables_after_office};
ghost use Rattle.wb_sql.specs.Making.{with_builder, with_record_take, with_source_name, with_tables};
ghost use Rattle.wb_sql.specs.Tables.{office, arch, builder, source_record, scratch_source, scratch_binary};

use crate::changes::replace;
use crate::create;
use crate::definitions::{create_index, create_table};
use sqlite::{Alter, Connection, Error};

/// Makes the tables of the office, of architectures and of builders.
fn make_people<S: Alter>(conn: &mut Connection<S>) -> Result<(), Error>
    ensures makes { (base : Schema) → LacksOffice base → IsNumbered base
        → Makes S.Store base [] (MakesTables base.tables (with_builder base) (office ∷ arch ∷ builder ∷ []))
        conn.old conn.new result }
{
    create_table(conn, create::office())?;
    create_table(conn, create::arch())?;
    create_table(conn, create::builder())
}

/// Makes the table of records and its indexes.
fn make_records<S: Alter>(conn: &mut Connection<S>) -> Result<(), Error>
    ensures makes { (base : Schema) → LacksOffice base → IsNumbered base
        → Makes S.Store (with_builder base) (office ∷ arch ∷ builder ∷ [])
        (MakesTables base.tables (with_record_take base) (office ∷ arch ∷ builder ∷ source_record ∷ []))
        conn.old conn.new result }
{
    create_table(conn, create::source_record())?;
    create_index(conn, create::record_order())?;
    create_index(conn, create::record_take())
}

/// Makes the scratch table of source packages and its index.
fn make_sources<S: Alter>(conn: &mut Connection<S>) -> Result<(), Error>
    ensures makes { (base : Schema) → LacksOffice base → IsNumbered base
        → Makes S.Store (with_record_take base) (office ∷ arch ∷ builder ∷ source_record ∷ [])
        (MakesTables base.tables (with_source_name base) (office ∷ arch ∷ builder ∷ source_record ∷ scratch_source ∷ []))
        conn.old conn.new result }
{
    create_table(conn, create::scratch_source())?;
    create_index(conn, create::source_name())
}

/// Makes the scratch table of binary packages and its indexes.
fn make_binaries<S: Alter>(conn: &mut Connection<S>) -> Result<(), Error>
    ensures makes { (base : Schema) → LacksOffice base → IsNumbered base
        → Makes S.Store (with_source_name base) (office ∷ arch ∷ builder ∷ source_record ∷ scratch_source ∷ [])
        (MakesTables base.tables (with_tables base) (office ∷ tables_after_office))
        conn.old conn.new result }
{
    create_table(conn, create::scratch_binary())?;
    create_index(conn, create::binary_source())?;
    create_index(conn, create::binary_name())
}

/// Makes all tables and indexes of the office in a database that lacks them, as [`crate::lacks_office`] says. They have
/// no row, and the tables of others keep theirs. It fails as `execute` does, and the caller then rolls back.
pub fn make_tables<S: Alter>(conn: &mut Connection<S>) -> Result<(), Error>
    ensures makes { (base : Schema) → LacksOffice base → IsNumbered base
        → Makes S.Store base [] (MakesTables base.tables (with_tables base) (office ∷ tables_after_office))
        conn.old conn.new result }
{
    make_people(conn)?;
    make_records(conn)?;
    make_sources(conn)?;
    make_binaries(conn)
}

/// Puts in the row of an empty office.
fn put_first_row<S: Alter>(conn: &mut Connection<S>) -> Result<(), Error>
    ensures makes { (base : Schema) → LacksOffice base → IsNumbered base
        → Makes S.Store (with_tables base) (office ∷ tables_after_office) (MakesOffice base)
        conn.old conn.new result }
{
    replace(
        conn,
        "INSERT OR REPLACE INTO office(id, format, handed, accepted) VALUES (1, 2, 0, 0)",
        &[],
    )
}

/// Makes the tables of an empty office, with its row, in a database that lacks them, as [`crate::lacks_office`] says. The
/// tables of others keep their rows. It fails as `execute` does, and the caller then rolls back.
pub fn make_empty_office<S: Alter>(conn: &mut Connection<S>) -> Result<(), Error>
    ensures makes { (base : Schema) → LacksOffice base → IsNumbered base
        → Makes S.Store base [] (MakesOffice base) conn.old conn.new result }
{
    make_tables(conn)?;
    put_first_row(conn)
}
