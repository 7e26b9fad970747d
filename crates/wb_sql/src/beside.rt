//! What a database may have beside the office's tables, and how one of them is found among others.
ghost use Rattle.std.specs.Prelude.{◌≡◌, ◌↔◌, ◌==◌, not, IsTrue, MatchOption, [], ◌∷◌, length, filter};
ghost use Rattle.std.specs.List.{list_all, list_any};
ghost use Rattle.sqlite.specs.Does.{lacks_sequence};
ghost use Rattle.sqlite.specs.Table.{Table};
ghost use Rattle.sqlite_schema.specs.Names.{same_name};
ghost use Rattle.wb_sql.specs.Changes.{does_nothing, is_no_action};
ghost use Rattle.wb_sql.specs.Among.{names_either, names_office, is_office_name, HasFreeNames};
ghost use Rattle.wb_sql.specs.Among.{refers_to_none, are_unreferred, is_quiet, are_quiet};
ghost use Rattle.wb_sql.specs.Recognition.{IsFound, IsAlone};
ghost use Rattle.wb_sql.specs.Tables.{keys, record_order, record_take, source_name, binary_source, binary_name, state_order};

use sqlite_schema::names::same_name;
use sqlite_schema::schema::{Action, Reference, Schema, Table};

/// The trees that a database stores have numbers below this.
const TREES: u32 = 1 << 31;

/// The first table with this name, if it is the only one in its tree, and the tree is one that a database stores. ASCII
/// letters of either case are the same in a name.
pub(crate) fn find_table<'a>(schema: &'a Schema, name: &str) -> Option<&'a Table>
    ensures value { MatchOption result
        ((table : Table) → ¬ IsFound schema.now name.now table)
        (λ table. IsFound schema.now name.now table.now) }
{
    let tables = schema.tables.as_slice();
    let at = schema.table_named(name.as_bytes())?;
    let table = tables.get(at)?;
    if is_alone(tables, table.tree) {
        Some(table)
    } else {
        None
    }
}

/// Whether one of the tables alone is in this tree, and the tree is one that a database stores.
fn is_alone(tables: &[Table], tree: u32) -> bool
    ensures value { IsTrue result ↔ IsAlone tables.now tree }
{
    count_in_tree(tables, tree) == 1 && tree < TREES
}

/// How many of the tables are in this tree.
fn count_in_tree(tables: &[Table], tree: u32) -> usize
    ensures value { result ≡ length (filter (λ table. table.tree == tree) tables.now) }
{
    tables.iter().filter(|table| table.tree == tree).count()
}

/// Whether no table but the office's, of either schema, refers to one of them.
pub(crate) fn are_unreferred(schema: &Schema) -> bool
    ensures value { result ≡ are_unreferred schema.now }
{
    let tables = schema.tables.as_slice();
    tables.iter().all(|table| names_either(table.name.as_slice()) || refers_to_none(table))
}

/// Whether each foreign key that refers to one of the office's tables, of either schema, does nothing where the row that it
/// names is deleted or gets another key.
pub(crate) fn are_quiet(schema: &Schema) -> bool
    ensures value { result ≡ are_quiet schema.now }
{
    schema.tables.as_slice().iter().all(is_quiet)
}

/// Whether no table, index or view has one of the office's names, of either schema.
pub(crate) fn has_free_names(schema: &Schema) -> bool
    ensures value { IsTrue result ↔ HasFreeNames schema.now }
{
    !has_table(schema) && !has_index(schema) && !has_view(schema)
}

/// Whether no table refers to one of the office's, of either schema.
pub(crate) fn refers_nowhere(schema: &Schema) -> bool
    ensures value { result ≡ list_all refers_to_none schema.now.tables }
{
    schema.tables.as_slice().iter().all(refers_to_none)
}

/// Whether the schema has the table of the counts of rowids, if one of its tables counts them (AUTOINCREMENT).
pub(crate) fn has_sequence(schema: &Schema) -> bool
    ensures value { result ≡ not (lacks_sequence schema.now) }
{
    schema.table_named(b"sqlite_sequence").is_some() || !counts_rowids(schema)
}

/// Whether a table of the schema counts its rowids.
fn counts_rowids(schema: &Schema) -> bool
    ensures value { result ≡ list_any (λ table. table.is_counted) schema.now.tables }
{
    schema
        .tables
        .as_slice()
        .iter()
        .any(|table| table.is_counted)
}

/// Whether a table has one of the office's names.
fn has_table(schema: &Schema) -> bool
    ensures value { result ≡ list_any (λ table. is_office_name table.name) schema.now.tables }
{
    let tables = schema.tables.as_slice();
    tables
        .iter()
        .any(|table| is_office_name(table.name.as_slice()))
}

/// Whether an index has one of the office's names.
fn has_index(schema: &Schema) -> bool
    ensures value { result ≡ list_any (λ index. is_office_name index.name) schema.now.indexes }
{
    let indexes = schema.indexes.as_slice();
    indexes
        .iter()
        .any(|index| is_office_name(index.name.as_slice()))
}

/// Whether a view has one of the office's names.
fn has_view(schema: &Schema) -> bool
    ensures value { result ≡ list_any (λ view. is_office_name view.name) schema.now.views }
{
    let views = schema.views.as_slice();
    views
        .iter()
        .any(|view| is_office_name(view.name.as_slice()))
}

/// Whether the table refers to none of the office's, of either schema.
fn refers_to_none(table: &Table) -> bool
    ensures value { result ≡ refers_to_none table.now }
{
    let references = table.references.as_slice();
    references
        .iter()
        .all(|reference| !names_either(reference.parent.as_slice()))
}

/// Whether it is the name of one of the office's tables.
fn names_office(name: &[u8]) -> bool
    ensures value { result ≡ names_office name.now }
{
    same_name(b"office", name)
        || same_name(b"arch", name)
        || same_name(b"builder", name)
        || same_name(b"source_record", name)
        || same_name(b"scratch_source", name)
        || same_name(b"scratch_binary", name)
}

/// Whether it is the name of one of the office's tables, of the first schema or of the second.
fn names_either(name: &[u8]) -> bool
    ensures value { result ≡ names_either name.now }
{
    names_office(name) || same_name(b"source_state", name)
}

/// Whether it is the name of one of the office's tables or of their indexes, of either schema.
fn is_office_name(name: &[u8]) -> bool
    ensures value { result ≡ is_office_name name.now }
{
    names_either(name) || names_key(name) || names_index(name)
}

/// Whether it is the name of the index of a key of one of the office's tables.
fn names_key(name: &[u8]) -> bool
    ensures value { result ≡ list_any (λ index. same_name index.name name.now) keys }
{
    same_name(b"sqlite_autoindex_arch_1", name)
        || same_name(b"sqlite_autoindex_builder_1", name)
        || same_name(b"sqlite_autoindex_source_record_1", name)
}

/// Whether it is the name of another index of one of the office's tables, of either schema.
fn names_index(name: &[u8]) -> bool
    ensures value { result ≡ list_any (λ index. same_name index.name name.now)
        (record_order ∷ record_take ∷ source_name ∷ binary_source ∷ binary_name ∷ state_order ∷ []) }
{
    same_name(b"record_order", name)
        || same_name(b"record_take", name)
        || same_name(b"source_name", name)
        || same_name(b"binary_source", name)
        || same_name(b"binary_name", name)
        || same_name(b"queue_order", name)
}

/// Whether each foreign key of the table that refers to one of the office's, of either schema, does nothing.
fn is_quiet(table: &Table) -> bool
    ensures value { result ≡ is_quiet table.now }
{
    let references = table.references.as_slice();
    references.iter().all(|reference| {
        !names_either(reference.parent.as_slice()) || does_nothing(reference)
    })
}

/// Whether the foreign key does nothing.
fn does_nothing(reference: &Reference) -> bool
    ensures value { result ≡ does_nothing reference.now }
{
    is_no_action(reference.on_delete) && is_no_action(reference.on_update)
}

/// Whether the action is none.
fn is_no_action(action: Action) -> bool
    ensures value { result ≡ is_no_action action }
{
    matches!(action, Action::NoAction)
}
