//! The tables of the first schema, which a store of format 1 has: how they are recognized, and the statements on them.
//! None of these tables is made by this program.

// The two texts that made the table of the records and its index stand here, so that it can be
// proved that they make what is known as that table. `has_states` compares it column by column, as
// the tables of an office are compared.

ghost use Rattle.std.specs.Prelude.{◌≡◌, ◌↔◌, IsTrue, []};
ghost use Rattle.wb_sql.specs.Among.{AsksAmong, DeletesAmong, HasIndexed, HasStates, UpdatesAmong, table_at};
ghost use Rattle.wb_sql.specs.FirstSchema.{HasFirstTables, all_states, first_state, second_format};
ghost use Rattle.wb_sql.specs.Making.{CreatesAmong, IndexesAmong};
ghost use Rattle.wb_sql.specs.Tables.{office, source_state, state_order, scratch_source, scratch_binary};

use crate::beside::find_table;
use crate::columns::{index_on, key_on, number, optional, text};
use crate::comparison::{are_indexes, is_keyed_beside, is_table, refers_to_arch};
use crate::recognition::{
    has_archs, has_builders, has_office, is_scratch_binary, is_scratch_source,
};
use sqlite_schema::schema::{Kind, Schema, Table};

/// Whether the schema has the office's tables as the first schema has them: `office`, `arch`, `builder`, `source_state`,
/// `scratch_source` and `scratch_binary`, each with the indexes of that schema alone, which the scratch tables do not have.
/// In which order and in which trees they are does not matter, nor what their rows are, and other tables, indexes and views
/// may stand beside them. The schema of a connection is `Connection::schema` (this project's own).
pub fn has_first_tables(schema: &Schema) -> bool
    ensures value { IsTrue result ↔ HasFirstTables schema.now }
{
    has_office(schema)
        && has_archs(schema)
        && has_builders(schema)
        && has_states(schema)
        && has_bare_sources(schema)
        && has_bare_binaries(schema)
}

/// Whether the schema has the table `source_state`, of the records of the first schema, with its three indexes alone. In
/// which trees they are does not matter, nor what its rows are. An office that was upgraded keeps that table. The schema of
/// a connection is `Connection::schema` (this project's own).
pub fn has_states(schema: &Schema) -> bool
    ensures value { IsTrue result ↔ HasStates schema.now }
{
    let Some(table) = find_table(schema, "source_state") else {
        return false;
    };
    let definitions = [
        key_on("sqlite_autoindex_source_state_1", &[10]),
        key_on("sqlite_autoindex_source_state_2", &[1, 2]),
        index_on("queue_order", &[1, 3, 15, 2]),
    ];
    is_source_state(table) && are_indexes(schema.indexes.as_slice(), table.tree, &definitions)
}

/// Whether the schema has the scratch table of source packages, without an index.
fn has_bare_sources(schema: &Schema) -> bool
    ensures value { IsTrue result ↔ HasIndexed schema.now scratch_source [] }
{
    let Some(table) = find_table(schema, "scratch_source") else {
        return false;
    };
    is_scratch_source(table) && are_indexes(schema.indexes.as_slice(), table.tree, &[])
}

/// Whether the schema has the scratch table of binary packages, without an index.
fn has_bare_binaries(schema: &Schema) -> bool
    ensures value { IsTrue result ↔ HasIndexed schema.now scratch_binary [] }
{
    let Some(table) = find_table(schema, "scratch_binary") else {
        return false;
    };
    is_scratch_binary(table) && are_indexes(schema.indexes.as_slice(), table.tree, &[])
}

/// Whether it is the table of the records of the first schema, in whatever tree.
fn is_source_state(table: &Table) -> bool
    ensures value { IsTrue result ↔ (table.now ≡ table_at table.now.tree source_state) }
{
    let columns = [
        text("arch"),
        text("source"),
        number("state"),
        text("version"),
        text("priority"),
        text("section"),
        number("earlier"),
        number("number"),
        optional("holder", Kind::Text),
        optional("take", Kind::Integer),
        text("waits"),
        optional("depends", Kind::Text),
        text("note"),
        text("message"),
        number("rank"),
    ];
    is_table(table, "source_state", &columns)
        && is_keyed_beside(table, &[10], &[1, 2])
        && refers_to_arch(table, 1)
}

/// The text that makes the table of the records of the first schema, for who writes such a store.
pub fn source_state() -> &'static str
    ensures { CreatesAmong source_state result.now }
{
    "CREATE TABLE source_state(arch TEXT NOT NULL REFERENCES arch(name), source TEXT NOT NULL, \
     state INTEGER NOT NULL, version TEXT NOT NULL, priority TEXT NOT NULL, section TEXT NOT NULL, \
     earlier INTEGER NOT NULL, number INTEGER NOT NULL, holder TEXT, take INTEGER UNIQUE, waits TEXT NOT NULL, \
     depends TEXT, note TEXT NOT NULL, message TEXT NOT NULL, rank INTEGER NOT NULL, \
     PRIMARY KEY(arch, source)) STRICT"
}

/// The text that makes the index of these records by architecture, state, rank and source package.
pub fn queue_order() -> &'static str
    ensures { IndexesAmong source_state state_order result.now }
{
    "CREATE INDEX queue_order ON source_state(arch, state, rank, source)"
}

/// All records of the first schema, by architecture and then by source package.
pub fn all_states() -> &'static str
    ensures { AsksAmong source_state result.now all_states 0 }
{
    "SELECT arch, source, state, version, priority, section, earlier, number, holder, take, waits, \
     depends, note, message, rank \
     FROM source_state ORDER BY arch, source"
}

/// The architecture of one record of the first schema, if there is one.
pub fn first_state() -> &'static str
    ensures { AsksAmong source_state result.now first_state 0 }
{
    "SELECT arch FROM source_state LIMIT 1"
}

/// Takes out all records of the first schema.
pub fn clear_states() -> &'static str
    ensures { DeletesAmong source_state result.now [] 0 }
{
    "DELETE FROM source_state"
}

/// Sets the format of the office to that of the second schema. The two counts stay.
pub fn set_second_format() -> &'static str
    ensures { UpdatesAmong office result.now [] second_format 0 }
{
    "UPDATE office SET format = 2"
}
