//! The SQL texts that make the office's tables and indexes, over whatever schema has no such names yet.

ghost use Rattle.wb_sql.specs.Making.{CreatesAmong, IndexesAmong};
ghost use Rattle.wb_sql.specs.Tables.{office, arch, builder, source_record, scratch_source, scratch_binary};
ghost use Rattle.wb_sql.specs.Tables.{record_order, record_take, source_name, binary_source, binary_name};

/// The table of the office.
pub(crate) fn office() -> &'static str
    ensures { CreatesAmong office result.now }
{
    "CREATE TABLE office(id INTEGER PRIMARY KEY CHECK(id = 1), format INTEGER NOT NULL, \
     handed INTEGER NOT NULL, accepted INTEGER NOT NULL) STRICT"
}

/// The table of architectures.
pub(crate) fn arch() -> &'static str
    ensures { CreatesAmong arch result.now }
{
    "CREATE TABLE arch(name TEXT NOT NULL PRIMARY KEY, os TEXT NOT NULL, cpu TEXT NOT NULL) STRICT"
}

/// The table of builders.
pub(crate) fn builder() -> &'static str
    ensures { CreatesAmong builder result.now }
{
    "CREATE TABLE builder(name TEXT NOT NULL, arch TEXT NOT NULL REFERENCES arch(name), \
     PRIMARY KEY(name, arch)) STRICT"
}

/// The table of records.
pub(crate) fn source_record() -> &'static str
    ensures { CreatesAmong source_record result.now }
{
    "CREATE TABLE source_record(arch TEXT NOT NULL REFERENCES arch(name), source TEXT NOT NULL, \
     state INTEGER NOT NULL, version TEXT NOT NULL, priority TEXT NOT NULL, section TEXT NOT NULL, \
     earlier INTEGER NOT NULL, number INTEGER NOT NULL, holder TEXT, take INTEGER, waits TEXT NOT NULL, \
     depends TEXT, note TEXT NOT NULL, message TEXT NOT NULL, build_priority INTEGER NOT NULL, \
     rank INTEGER NOT NULL, PRIMARY KEY(arch, source)) STRICT"
}

/// The index of records by architecture, state, rank and source package.
pub(crate) fn record_order() -> &'static str
    ensures { IndexesAmong source_record record_order result.now }
{
    "CREATE INDEX record_order ON source_record(arch, state, rank, source)"
}

// Not UNIQUE: the kit's `sqlite` tests the NULLs of such a column one by one, which made 35,000
// records without a take number take 100 s to insert and 98 s to open, and 0.4 s and 0.2 s without.
// That take numbers are distinct is the office's invariant.
/// The index of records by take number.
pub(crate) fn record_take() -> &'static str
    ensures { IndexesAmong source_record record_take result.now }
{
    "CREATE INDEX record_take ON source_record(take)"
}

/// The table of the source packages of a merge.
pub(crate) fn scratch_source() -> &'static str
    ensures { CreatesAmong scratch_source result.now }
{
    "CREATE TABLE scratch_source(seq INTEGER PRIMARY KEY, name TEXT NOT NULL, version TEXT NOT NULL, \
     architecture TEXT NOT NULL, extra INTEGER NOT NULL, priority TEXT NOT NULL, section TEXT NOT NULL, \
     depends TEXT NOT NULL, depends_arch TEXT NOT NULL) STRICT"
}

// Without an index a look-up by name visits every row: 2.5 ms of 35,000 rows, and 1.5 microseconds
// with it.
/// The index of the source packages of a merge by name.
pub(crate) fn source_name() -> &'static str
    ensures { IndexesAmong scratch_source source_name result.now }
{
    "CREATE INDEX source_name ON scratch_source(name, seq)"
}

/// The table of the binary packages of a merge.
pub(crate) fn scratch_binary() -> &'static str
    ensures { CreatesAmong scratch_binary result.now }
{
    "CREATE TABLE scratch_binary(seq INTEGER PRIMARY KEY, name TEXT NOT NULL, version TEXT NOT NULL, \
     source TEXT NOT NULL, source_version TEXT NOT NULL, number INTEGER NOT NULL, own INTEGER NOT NULL) STRICT"
}

/// The index of the binary packages of a merge by source package.
pub(crate) fn binary_source() -> &'static str
    ensures { IndexesAmong scratch_binary binary_source result.now }
{
    "CREATE INDEX binary_source ON scratch_binary(source, seq)"
}

/// The index of the binary packages of a merge by name.
pub(crate) fn binary_name() -> &'static str
    ensures { IndexesAmong scratch_binary binary_name result.now }
{
    "CREATE INDEX binary_name ON scratch_binary(name, seq)"
}
