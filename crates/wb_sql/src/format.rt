//! Whether the format of an office can be read, whatever else a database has.
ghost use Rattle.std.specs.Prelude.{◌↔◌, IsTrue};
ghost use Rattle.wb_sql.specs.Format.{HasColumn, HasFormatColumn};

use crate::beside::find_table;
use crate::comparison::is_name;
use sqlite_schema::schema::{Schema, Table};

/// Whether the schema has a table `office` with a column `format`, both in these letters: the format of an office can be
/// read from it by [`crate::statements::office_format`]. What other columns and tables there are does not matter, nor
/// what the rows are. The answer is false where the table is not alone in its tree, as it is in no sound database. The
/// schema of a connection is `Connection::schema` (this project's own).
pub fn has_format_column(schema: &Schema) -> bool
    ensures value { IsTrue result ↔ HasFormatColumn schema.now }
{
    match find_table(schema, "office") {
        Some(table) => is_name(&table.name, "office") && has_column(table, "format"),
        None => false,
    }
}

/// Whether the first of the table's columns with this name, where ASCII letters of either case are the same, has it in
/// these letters.
fn has_column(table: &Table, name: &str) -> bool
    ensures value { IsTrue result ↔ HasColumn table.now name.now }
{
    let Some(at) = table.column_named(name.as_bytes()) else {
        return false;
    };
    match table.columns.as_slice().get(at) {
        Some(column) => is_name(&column.name, name),
        None => false,
    }
}
