//! Which tables a database has.
ghost use Rattle.std.specs.Prelude.{◌≡◌, ◌↔◌, IsTrue, [], ◌∷◌};
ghost use Rattle.sqlite_catalog.specs.Listing.{automatic};
ghost use Rattle.wb_sql.specs.Tables.{office, arch, builder, source_record, scratch_source, scratch_binary};
ghost use Rattle.wb_sql.specs.Tables.{record_order, record_take, source_name, binary_source, binary_name};
ghost use Rattle.wb_sql.specs.Among.{HasIndexed, HasOffice, LacksOffice, MayHaveStates, table_at};
ghost use Rattle.wb_sql.specs.Recognition.{HasTables};

use crate::beside::{
    are_quiet, are_unreferred, find_table, has_free_names, has_sequence, refers_nowhere,
};
use crate::columns::{index_on, key_on, number, optional, text};
use crate::comparison::{
    are_indexes, is_free, is_keyed_by, is_keyed_by_id, is_table, refers_to_arch,
};
use crate::first_schema::has_states;
use crate::id_check::is_id_check;
use sqlite_schema::schema::{Kind, Schema, Table};

/// Whether an office can be made in the schema by [`crate::make_empty_office`]: it has no table, index or view of a name that the
/// office's tables or their indexes have, in the first schema or in the second, where ASCII letters of either case are the
/// same, and no table that refers to one of the office's. A schema with a table that counts its rowids (AUTOINCREMENT) must also have the table
/// `sqlite_sequence`, as SQLite makes it. The schema of a connection is `Connection::schema` (this project's own).
pub fn lacks_office(schema: &Schema) -> bool
    ensures value { IsTrue result ↔ LacksOffice schema.now }
{
    has_free_names(schema) && refers_nowhere(schema) && has_sequence(schema)
}

/// Whether the schema has the office's six tables, `office`, `arch`, `builder`, `source_record`, `scratch_source` and
/// `scratch_binary`, each as [`crate::make_empty_office`] makes it and with the indexes that it makes. In which order and in which
/// trees they are does not matter, nor what their rows are, and other tables, indexes and views may stand beside them. A
/// table `source_state` is the one of the first schema, which stays where a store of that schema was upgraded
/// ([`crate::make_second_tables`]). The answer is false where another index is on one of them, and where a table of others
/// refers to one of them. The schema of a connection is `Connection::schema` (this project's own).
pub fn has_office_tables(schema: &Schema) -> bool
    ensures value { IsTrue result ↔ HasOffice schema.now }
{
    has_own_tables(schema) && are_unreferred(schema) && are_quiet(schema)
}

/// Whether the schema has each of the office's tables, with its indexes alone, and so that of the records of the first
/// schema, if there is one of its name.
fn has_own_tables(schema: &Schema) -> bool
    ensures value { IsTrue result ↔ (HasTables schema.now × MayHaveStates schema.now) }
{
    has_tables(schema) && may_have_states(schema)
}

/// Whether the schema has no table of the records of the first schema, or has it with its indexes alone.
fn may_have_states(schema: &Schema) -> bool
    ensures value { IsTrue result ↔ MayHaveStates schema.now }
{
    schema.table_named(b"source_state").is_none() || has_states(schema)
}

/// Whether the schema has each of the office's tables, with its indexes alone.
fn has_tables(schema: &Schema) -> bool
    ensures value { IsTrue result ↔ HasTables schema.now }
{
    has_office(schema)
        && has_archs(schema)
        && has_builders(schema)
        && has_records(schema)
        && has_sources(schema)
        && has_binaries(schema)
}

/// Whether the schema has the table of the office, which has no index.
pub(crate) fn has_office(schema: &Schema) -> bool
    ensures value { IsTrue result ↔ HasIndexed schema.now office [] }
{
    let Some(table) = find_table(schema, "office") else {
        return false;
    };
    is_office(table) && are_indexes(schema.indexes.as_slice(), table.tree, &[])
}

/// Whether the schema has the table of architectures, with the index of its key alone.
pub(crate) fn has_archs(schema: &Schema) -> bool
    ensures value { IsTrue result ↔ HasIndexed schema.now arch (automatic arch 0 (1 ∷ []) 2 ∷ []) }
{
    let Some(table) = find_table(schema, "arch") else {
        return false;
    };
    let definitions = [key_on("sqlite_autoindex_arch_1", &[1])];
    is_arch(table) && are_indexes(schema.indexes.as_slice(), table.tree, &definitions)
}

/// Whether the schema has the table of builders, with the index of its key alone.
pub(crate) fn has_builders(schema: &Schema) -> bool
    ensures value { IsTrue result
        ↔ HasIndexed schema.now builder (automatic builder 0 (1 ∷ 2 ∷ []) 4 ∷ []) }
{
    let Some(table) = find_table(schema, "builder") else {
        return false;
    };
    let definitions = [key_on("sqlite_autoindex_builder_1", &[1, 2])];
    is_builder(table) && are_indexes(schema.indexes.as_slice(), table.tree, &definitions)
}

/// Whether the schema has the table of records, with its three indexes alone.
fn has_records(schema: &Schema) -> bool
    ensures value { IsTrue result
        ↔ HasIndexed schema.now source_record
        (automatic source_record 0 (1 ∷ 2 ∷ []) 6 ∷ record_order ∷ record_take ∷ []) }
{
    let Some(table) = find_table(schema, "source_record") else {
        return false;
    };
    let definitions = [
        key_on("sqlite_autoindex_source_record_1", &[1, 2]),
        index_on("record_order", &[1, 3, 16, 2]),
        index_on("record_take", &[10]),
    ];
    is_source_record(table) && are_indexes(schema.indexes.as_slice(), table.tree, &definitions)
}

/// Whether the schema has the table of the source packages of a merge, with its index alone.
fn has_sources(schema: &Schema) -> bool
    ensures value { IsTrue result ↔ HasIndexed schema.now scratch_source (source_name ∷ []) }
{
    let Some(table) = find_table(schema, "scratch_source") else {
        return false;
    };
    let definitions = [index_on("source_name", &[2, 0])];
    is_scratch_source(table) && are_indexes(schema.indexes.as_slice(), table.tree, &definitions)
}

/// Whether the schema has the table of the binary packages of a merge, with its two indexes alone.
fn has_binaries(schema: &Schema) -> bool
    ensures value { IsTrue result
        ↔ HasIndexed schema.now scratch_binary (binary_source ∷ binary_name ∷ []) }
{
    let Some(table) = find_table(schema, "scratch_binary") else {
        return false;
    };
    let definitions = [
        index_on("binary_source", &[4, 0]),
        index_on("binary_name", &[2, 0]),
    ];
    is_scratch_binary(table) && are_indexes(schema.indexes.as_slice(), table.tree, &definitions)
}

/// Whether it is the table of the office, in whatever tree.
fn is_office(table: &Table) -> bool
    ensures value { IsTrue result ↔ (table.now ≡ table_at table.now.tree office) }
{
    let columns = [
        optional("id", Kind::Integer),
        number("format"),
        number("handed"),
        number("accepted"),
    ];
    is_table(table, "office", &columns)
        && is_keyed_by_id(table)
        && is_id_check(&table.checks)
        && table.references.is_empty()
}

/// Whether it is the table of architectures, in whatever tree.
fn is_arch(table: &Table) -> bool
    ensures value { IsTrue result ↔ (table.now ≡ table_at table.now.tree arch) }
{
    let columns = [text("name"), text("os"), text("cpu")];
    is_table(table, "arch", &columns) && is_keyed_by(table, &[1]) && is_free(table)
}

/// Whether it is the table of builders, in whatever tree.
fn is_builder(table: &Table) -> bool
    ensures value { IsTrue result ↔ (table.now ≡ table_at table.now.tree builder) }
{
    let columns = [text("name"), text("arch")];
    is_table(table, "builder", &columns) && is_keyed_by(table, &[1, 2]) && refers_to_arch(table, 2)
}

/// Whether it is the table of records, in whatever tree.
fn is_source_record(table: &Table) -> bool
    ensures value { IsTrue result ↔ (table.now ≡ table_at table.now.tree source_record) }
{
    let columns = [
        text("arch"),
        text("source"),
        number("state"),
        text("version"),
        text("priority"),
        text("section"),
        number("earlier"),
        number("number"),
        optional("holder", Kind::Text),
        optional("take", Kind::Integer),
        text("waits"),
        optional("depends", Kind::Text),
        text("note"),
        text("message"),
        number("build_priority"),
        number("rank"),
    ];
    is_table(table, "source_record", &columns)
        && is_keyed_by(table, &[1, 2])
        && refers_to_arch(table, 1)
}

/// Whether it is the table of the source packages of a merge, in whatever tree.
pub(crate) fn is_scratch_source(table: &Table) -> bool
    ensures value { IsTrue result ↔ (table.now ≡ table_at table.now.tree scratch_source) }
{
    let columns = [
        optional("seq", Kind::Integer),
        text("name"),
        text("version"),
        text("architecture"),
        number("extra"),
        text("priority"),
        text("section"),
        text("depends"),
        text("depends_arch"),
    ];
    is_table(table, "scratch_source", &columns) && is_keyed_by_id(table) && is_free(table)
}

/// Whether it is the table of the binary packages of a merge, in whatever tree.
pub(crate) fn is_scratch_binary(table: &Table) -> bool
    ensures value { IsTrue result ↔ (table.now ≡ table_at table.now.tree scratch_binary) }
{
    let columns = [
        optional("seq", Kind::Integer),
        text("name"),
        text("version"),
        text("source"),
        text("source_version"),
        number("number"),
        number("own"),
    ];
    is_table(table, "scratch_binary", &columns) && is_keyed_by_id(table) && is_free(table)
}
