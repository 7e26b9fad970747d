//! The rows that are found in the files.

ghost use Rattle.std.specs.Prelude.{◌≡◌, false, IfOk, IfSome};

use crate::images::{Images, Stopping};
use anyhow::{Result, anyhow};
use sqlite::types::ValueRef;
use sqlite::{Alter, Connection, FileStore, Options, Row};
use sqlite_disk::Disk;
use std::alloc::Global;
use std::io::Write;
use std::str;
use wb_store::{laws, opening_fault};

/// Each table of an office with the statement that reads it.
const TABLES: [(&str, &str); 6] = [
    ("office", "SELECT id, format, handed, accepted FROM office"),
    ("arch", "SELECT name, os, cpu FROM arch ORDER BY name"),
    (
        "builder",
        "SELECT name, arch FROM builder ORDER BY name, arch",
    ),
    (
        "source_record",
        "SELECT arch, source, state, version, priority, section, earlier, number, holder, take, waits, depends, note, message, build_priority, rank FROM source_record ORDER BY arch, source",
    ),
    ("scratch_source", "SELECT seq FROM scratch_source"),
    ("scratch_binary", "SELECT seq FROM scratch_binary"),
];

/// The table of the records of the first schema, with the statement that reads it.
const FIRST_RECORDS: (&str, &str) = (
    "source_state",
    "SELECT arch, source, state, version, priority, section, earlier, number, holder, take, waits, depends, note, message, rank FROM source_state ORDER BY arch, source",
);

/// Writes each row of the office in the files, or why there is none.
pub(crate) fn show_rows<W: Write>(alloc: Global, images: &Images, output: &mut W) -> Result<()> {
    let Some(mut conn) = opened(alloc, images, output)? else {
        return Ok(());
    };
    if let Err(fault) = laws::prepare(&mut conn) {
        writeln!(output, "fault {}", fault.name())?;
        return Ok(());
    }
    show_tables(&mut conn, output)
}

/// Writes each row of the tables of both schemas that the files hold, or why there is none; no office is opened.
pub(crate) fn show_unopened_rows<W: Write>(
    alloc: Global,
    images: &Images,
    output: &mut W,
) -> Result<()> {
    let Some(mut conn) = opened(alloc, images, output)? else {
        return Ok(());
    };
    show_tables(&mut conn, output)?;
    let (table, statement) = FIRST_RECORDS;
    show_table(&mut conn, table, statement, output)
}

/// The database in the files; none if it cannot be opened, whose fault is then written.
fn opened<W: Write>(
    alloc: Global,
    images: &Images,
    output: &mut W,
) -> Result<Option<Connection<FileStore<Stopping>>>>
    ensures idle { IfOk result (λ found. IfSome found (λ conn. conn.in_transaction ≡ false)) }
{
    let files = images.files(alloc, u64::MAX, u64::MAX)?;
    if !files.log.may_be_used() || !files.db.may_be_used() {
        return Err(anyhow!("a file cannot be used"));
    }
    match wb_sql::open(alloc, files, Options::new(2)) {
        Ok(conn) => Ok(Some(conn)),
        Err((error, _)) => {
            writeln!(output, "fault {}", opening_fault(error).name())?;
            Ok(None)
        }
    }
}

/// Writes the rows of each table of an office.
fn show_tables<S: Alter, W: Write>(conn: &mut Connection<S>, output: &mut W) -> Result<()> {
    for (table, statement) in &TABLES {
        show_table(conn, table, statement, output)?;
    }
    Ok(())
}

/// Writes the rows that a statement reads, or that its table cannot be read.
fn show_table<S: Alter, W: Write>(
    conn: &mut Connection<S>,
    table: &str,
    statement: &str,
    output: &mut W,
) -> Result<()> {
    let Ok(rows) = wb_sql::read(conn, statement, &[]) else {
        writeln!(output, "none {table}")?;
        return Ok(());
    };
    for row in &rows {
        show_row(row, table, output)?;
    }
    Ok(())
}

/// Writes a row: the name of its table and its values.
fn show_row<W: Write>(row: &Row, table: &str, output: &mut W) -> Result<()> {
    write!(output, "{table}")?;
    for at in 0..row.column_count() {
        match row.get_ref(at) {
            Ok(ValueRef::Null) => write!(output, " null")?,
            Ok(ValueRef::Int(number)) => write!(output, " {number}")?,
            Ok(ValueRef::Text(bytes)) => write!(output, " {:?}", str::from_utf8(bytes)?)?,
            _ => return Err(anyhow!("a value of {table} is neither a number nor a text")),
        }
    }
    writeln!(output)?;
    Ok(())
}
