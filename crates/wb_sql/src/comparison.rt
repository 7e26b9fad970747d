//! Whether the parts of a schema are the ones that are wanted, each compared field by field.
ghost use Rattle.std.specs.Prelude.{◌≡◌, ◌↔◌, IsTrue, [], ◌∷◌, map, codes};
ghost use Rattle.sqlite_value.specs.Keys.{plain};
ghost use Rattle.wb_sql.specs.FirstSchema.{IsKeyedBeside};
ghost use Rattle.wb_sql.specs.Tables.{names_arch, office};
ghost use Rattle.wb_sql.specs.Recognition.{column_of, columns_of, index_of, indexes_of};
ghost use Rattle.wb_sql.specs.Among.{indexes_on, treeless};
ghost use Rattle.wb_sql.specs.Recognition.{IsTable, IsKeyedById, IsKeyedBy};

use crate::columns::{ColumnDefinition, IndexDefinition};
use sqlite_schema::code::Terms;
use sqlite_schema::schema::{Action, Column, Index, Reference, Stamps, Table};
use sqlite_value::keys::{Collation, Order};
use sqlite_value::value::{Bytes, Value};

/// Whether these are the name and the columns of the table, and nothing of a row is computed. It says nothing of the
/// table's tree, keys, checks and references.
pub(crate) fn is_table(table: &Table, name: &str, columns: &[ColumnDefinition<'_>]) -> bool
    ensures value { IsTrue result ↔ IsTable table.now name.now (columns_of columns.now) }
{
    is_name(&table.name, name)
        && are_columns(table.columns.as_slice(), columns)
        && table.computed.is_empty()
        && are_no_stamps(&table.stamps)
        && !table.is_counted
}

/// Whether the table's first column is its INTEGER PRIMARY KEY, and it has no UNIQUE.
pub(crate) fn is_keyed_by_id(table: &Table) -> bool
    ensures value { IsTrue result ↔ IsKeyedById table.now }
{
    table.key == Some(0)
        && are_places(table.primary.as_slice(), &[0])
        && table.uniques.is_empty()
        && table.orders.is_empty()
}

/// Whether the table's PRIMARY KEY has these places, with an index in their order, and it has no other UNIQUE.
pub(crate) fn is_keyed_by(table: &Table, places: &[usize]) -> bool
    ensures value { IsTrue result ↔ IsKeyedBy table.now places.now }
{
    table.key.is_none()
        && are_places(table.primary.as_slice(), places)
        && has_one_unique(table, places)
        && is_one_order(table.orders.as_slice())
}

/// Whether the table's PRIMARY KEY has these places, beside a UNIQUE of those, which comes first, each with an index in its
/// order.
pub(crate) fn is_keyed_beside(table: &Table, unique: &[usize], places: &[usize]) -> bool
    ensures value { IsTrue result ↔ IsKeyedBeside table.now unique.now places.now }
{
    table.key.is_none()
        && are_places(table.primary.as_slice(), places)
        && has_two_uniques(table, unique, places)
        && are_two_orders(table.orders.as_slice())
}

/// Whether the table has neither a check nor a reference.
pub(crate) fn is_free(table: &Table) -> bool
    ensures value { IsTrue result ↔ ((table.now.checks ≡ []) × (table.now.references ≡ [])) }
{
    are_no_terms(&table.checks) && table.references.is_empty()
}

/// Whether the table has no check, and one reference: the column at this place, to an architecture.
pub(crate) fn refers_to_arch(table: &Table, place: usize) -> bool
    ensures value { IsTrue result
        ↔ ((table.now.checks ≡ []) × (table.now.references ≡ names_arch place ∷ [])) }
{
    are_no_terms(&table.checks) && is_one_reference(table.references.as_slice(), place)
}

/// Whether those of the indexes that are on the table in this tree are the ones that are defined so, in this order. In
/// which trees they are themselves, and which indexes other tables have, does not matter.
pub(crate) fn are_indexes(
    indexes: &[Index],
    table: u32,
    definitions: &[IndexDefinition<'_>],
) -> bool
    ensures value { IsTrue result
        ↔ (map treeless (indexes_on table indexes.now) ≡ indexes_of table definitions.now) }
{
    let [index, indexes @ ..] = indexes else {
        return definitions.is_empty();
    };
    if index.table != table {
        return are_indexes(indexes, table, definitions);
    }
    let [definition, definitions @ ..] = definitions else {
        return false;
    };
    is_index(index, definition) && are_indexes(indexes, table, definitions)
}

/// Whether the columns are the ones that are defined so, in this order.
fn are_columns(columns: &[Column], definitions: &[ColumnDefinition<'_>]) -> bool
    ensures value { IsTrue result ↔ (columns.now ≡ columns_of definitions.now) }
{
    let [column, columns @ ..] = columns else {
        return definitions.is_empty();
    };
    let [definition, definitions @ ..] = definitions else {
        return false;
    };
    is_column(column, definition) && are_columns(columns, definitions)
}

/// Whether the column is the one that is defined so.
fn is_column(column: &Column, definition: &ColumnDefinition<'_>) -> bool
    ensures value { IsTrue result ↔ (column.now ≡ column_of definition.now) }
{
    is_name(&column.name, definition.name)
        && column.kind == definition.kind
        && column.is_strict
        && column.not_null == definition.not_null
        && is_null(&column.default)
        && column.collation == Collation::Binary
}

/// Whether the index is the one that is defined so, in whatever tree and on whatever table.
fn is_index(index: &Index, definition: &IndexDefinition<'_>) -> bool
    ensures value { IsTrue result
        ↔ (treeless index.now ≡ index_of index.now.table definition.now) }
{
    is_name(&index.name, definition.name)
        && are_places(index.columns.as_slice(), definition.columns)
        && index.order.digits == 0
        && index.is_unique == definition.is_unique
}

/// Whether the table has one UNIQUE, with these places.
fn has_one_unique(table: &Table, places: &[usize]) -> bool
    ensures value { IsTrue result ↔ (table.now.uniques ≡ places.now ∷ []) }
{
    match table.uniques.as_slice() {
        [key] => are_places(key.as_slice(), places),
        _ => false,
    }
}

/// Whether the table has two UNIQUEs, first one with these places and then one with those.
fn has_two_uniques(table: &Table, first: &[usize], second: &[usize]) -> bool
    ensures value { IsTrue result ↔ (table.now.uniques ≡ first.now ∷ second.now ∷ []) }
{
    match table.uniques.as_slice() {
        [one, other] => are_places(one.as_slice(), first) && are_places(other.as_slice(), second),
        _ => false,
    }
}

/// Whether the two orders are by the bytes of the columns, which ascend.
fn are_two_orders(orders: &[Order]) -> bool
    ensures value { IsTrue result ↔ (orders.now ≡ plain ∷ plain ∷ []) }
{
    match orders {
        [one, other] => one.digits == 0 && other.digits == 0,
        _ => false,
    }
}

/// Whether the one order is by the bytes of the columns, which ascend.
fn is_one_order(orders: &[Order]) -> bool
    ensures value { IsTrue result ↔ (orders.now ≡ plain ∷ []) }
{
    match orders {
        [order] => order.digits == 0,
        _ => false,
    }
}

/// Whether the one reference is that of the column at this place to an architecture.
fn is_one_reference(references: &[Reference], place: usize) -> bool
    ensures value { IsTrue result ↔ (references.now ≡ names_arch place ∷ []) }
{
    match references {
        [reference] => is_reference_to_arch(reference, place),
        _ => false,
    }
}

/// Whether the reference is that of the column at this place to an architecture by its name.
fn is_reference_to_arch(reference: &Reference, place: usize) -> bool
    ensures value { IsTrue result ↔ (reference.now ≡ names_arch place) }
{
    are_places(reference.columns.as_slice(), &[place])
        && is_name(&reference.parent, "arch")
        && is_one_name(reference.parent_columns.as_slice())
        && reference.on_delete == Action::NoAction
        && reference.on_update == Action::NoAction
        && !reference.is_deferred
}

/// Whether the one name is that of the column `name`.
fn is_one_name(names: &[Bytes]) -> bool
    ensures value { IsTrue result ↔ (names.now ≡ codes "name" ∷ []) }
{
    match names {
        [name] => is_name(name, "name"),
        _ => false,
    }
}

/// Whether no default reads the time.
fn are_no_stamps(stamps: &Stamps) -> bool
    ensures value { IsTrue result ↔ (stamps.now ≡ office.stamps) }
{
    stamps.places.is_empty() && are_no_terms(&stamps.terms) && stamps.formats.is_empty()
}

/// Whether there is no expression.
fn are_no_terms(terms: &Terms) -> bool
    ensures value { IsTrue result ↔ (terms.now ≡ []) }
{
    terms.roots.is_empty()
}

/// Whether a name is this text.
pub(crate) fn is_name(name: &Bytes, text: &str) -> bool
    ensures value { IsTrue result ↔ (name.now ≡ text.now) }
{
    name.as_slice() == text.as_bytes()
}

/// Whether these places are those.
fn are_places(places: &[usize], wanted: &[usize]) -> bool
    ensures value { IsTrue result ↔ (places.now ≡ wanted.now) }
{
    places == wanted
}

/// Whether a value is NULL.
fn is_null(value: &Value) -> bool
    ensures value { IsTrue result ↔ (value.now ≡ Value.Null) }
{
    matches!(value, Value::Null)
}
