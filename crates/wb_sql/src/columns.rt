//! What defines a column and an index of the office's tables, short enough to be written in a list.
ghost use Rattle.std.specs.Prelude.{◌≡◌, ℕ, false};
ghost use Rattle.wb_sql.specs.Tables as tables;
ghost use Rattle.wb_sql.specs.Recognition.{column_of, index_of, key_on};

use sqlite_schema::schema::Kind;

/// A column of a STRICT table, without a default.
#[derive(Clone, Copy)]
pub(crate) struct ColumnDefinition<'a> {
    pub(crate) name: &'a str,
    pub(crate) kind: Kind,
    pub(crate) not_null: bool,
}

/// An index by the bytes of its columns, which all ascend, on whatever table. The columns are those of the table's rows,
/// where the id has place 0.
#[derive(Clone, Copy)]
pub(crate) struct IndexDefinition<'a> {
    pub(crate) name: &'a str,
    pub(crate) columns: &'a [usize],
    pub(crate) is_unique: bool,
}

/// A column of texts, never NULL.
pub(crate) fn text(name: &str) -> ColumnDefinition<'_>
    ensures value { column_of result ≡ tables.text name.now }
{
    ColumnDefinition {
        name,
        kind: Kind::Text,
        not_null: true,
    }
}

/// A column of whole numbers, never NULL.
pub(crate) fn number(name: &str) -> ColumnDefinition<'_>
    ensures value { column_of result ≡ tables.number name.now }
{
    ColumnDefinition {
        name,
        kind: Kind::Integer,
        not_null: true,
    }
}

/// A column whose value may be NULL.
pub(crate) fn optional(name: &str, kind: Kind) -> ColumnDefinition<'_>
    ensures value { column_of result ≡ tables.typed kind false name.now }
{
    ColumnDefinition {
        name,
        kind,
        not_null: false,
    }
}

/// The index of a key, which comes once.
pub(crate) fn key_on<'a>(name: &'a str, columns: &'a [usize]) -> IndexDefinition<'a>
    ensures value { (table : ℕ) → index_of table result ≡ key_on name.now table columns.now }
{
    IndexDefinition {
        name,
        columns,
        is_unique: true,
    }
}

/// An index that lets a key come twice.
pub(crate) fn index_on<'a>(name: &'a str, columns: &'a [usize]) -> IndexDefinition<'a>
    ensures value { (table : ℕ) → index_of table result ≡ tables.index_on name.now 0 table columns.now }
{
    IndexDefinition {
        name,
        columns,
        is_unique: false,
    }
}
