//! The SQL texts that work on the office's tables, with what each means over every schema that has
//! its table.

ghost use Rattle.std.specs.Prelude.{[]};
ghost use Rattle.wb_sql.specs.Tables.{office, arch, builder, source_record, scratch_source};
ghost use Rattle.wb_sql.specs.Tables.{scratch_binary};
ghost use Rattle.wb_sql.specs.Among.{AsksAmong, InsertsAmong, UpsertsRecords, UpdatesAmong};
ghost use Rattle.wb_sql.specs.Among.{DeletesAmong};
ghost use Rattle.wb_sql.specs.Format.{AsksFormat};
ghost use Rattle.wb_sql.specs.OfficeStatements.{has_record_key, record_sets, record_of_key};
ghost use Rattle.wb_sql.specs.OfficeStatements.{queue_of, head_of};
ghost use Rattle.wb_sql.specs.OfficeStatements.{record_of_take, held_by, records_in_state};
ghost use Rattle.wb_sql.specs.OfficeStatements.{records_of_arch, states_of_arch, names_of_arch};
ghost use Rattle.wb_sql.specs.OfficeStatements.{all_records};
ghost use Rattle.wb_sql.specs.OfficeStatements.{arch_row, arch_of_name, all_archs, has_arch_name};
ghost use Rattle.wb_sql.specs.OfficeStatements.{office_sets, office_counts, office_row};
ghost use Rattle.wb_sql.specs.OfficeStatements.{builder_row, has_pair, pair_of_builder};
ghost use Rattle.wb_sql.specs.OfficeStatements.{pairs_of_builder, all_builders, first_source};
ghost use Rattle.wb_sql.specs.OfficeStatements.{first_binary};

// For a merge and an entry. REPLACE would move the row to the end of the table and write all its
// trees anew: over 35,000 records a hand-out costs a sixth less so, and a report of a build a
// third.
/// Puts a record in, or writes it over the one with its key. The parameters are its 16 columns.
pub fn put_record() -> &'static str
    ensures { UpsertsRecords result.now }
{
    "INSERT INTO source_record(arch, source, state, version, priority, section, earlier, number, \
     holder, take, waits, depends, note, message, build_priority, rank) \
     VALUES (?1, ?2, ?3, ?4, ?5, ?6, ?7, ?8, ?9, ?10, ?11, ?12, ?13, ?14, ?15, ?16) \
     ON CONFLICT(arch, source) DO UPDATE SET state = ?3, version = ?4, priority = ?5, section = ?6, earlier = ?7, \
     number = ?8, holder = ?9, take = ?10, waits = ?11, depends = ?12, note = ?13, message = ?14, \
     build_priority = ?15, rank = ?16"
}

// For every other command, of which it is proved that its record is there. It costs a fifth fewer
// instructions than `put_record`. To set only the columns that a command changes saves 2 % more,
// and takes a text for each kind of command.
/// Writes a record over the one with its key, which is there. The parameters are its 16 columns.
pub fn replace_record() -> &'static str
    ensures { UpdatesAmong source_record result.now has_record_key record_sets 16 }
{
    "UPDATE source_record SET state = ?3, version = ?4, priority = ?5, section = ?6, earlier = ?7, number = ?8, \
     holder = ?9, take = ?10, waits = ?11, depends = ?12, note = ?13, message = ?14, build_priority = ?15, rank = ?16 \
     WHERE arch = ?1 AND source = ?2"
}

/// Takes out the record of an architecture and a source package.
pub fn remove_record() -> &'static str
    ensures { DeletesAmong source_record result.now has_record_key 2 }
{
    "DELETE FROM source_record WHERE arch = ?1 AND source = ?2"
}

/// The record of an architecture and a source package.
pub fn record() -> &'static str
    ensures { AsksAmong source_record result.now record_of_key 2 }
{
    "SELECT arch, source, state, version, priority, section, earlier, number, holder, take, waits, \
     depends, note, message, build_priority, rank \
     FROM source_record WHERE arch = ?1 AND source = ?2"
}

/// The records of an architecture in a state, by rank and then by source package.
pub fn queue() -> &'static str
    ensures { AsksAmong source_record result.now queue_of 2 }
{
    "SELECT arch, source, state, version, priority, section, earlier, number, holder, take, waits, \
     depends, note, message, build_priority, rank \
     FROM source_record WHERE arch = ?1 AND state = ?2 ORDER BY rank, source"
}

/// The first record of an architecture in a state, by rank and then by source package.
pub fn head() -> &'static str
    ensures { AsksAmong source_record result.now head_of 2 }
{
    "SELECT arch, source, state, version, priority, section, earlier, number, holder, take, waits, \
     depends, note, message, build_priority, rank \
     FROM source_record WHERE arch = ?1 AND state = ?2 ORDER BY rank, source LIMIT 1"
}

/// The record with a take number.
pub fn record_of_take() -> &'static str
    ensures { AsksAmong source_record result.now record_of_take 1 }
{
    "SELECT arch, source, state, version, priority, section, earlier, number, holder, take, waits, \
     depends, note, message, build_priority, rank \
     FROM source_record WHERE take = ?1"
}

// No index has the holders, and one more would make each command of a builder dearer. Exactly the
// records that are held have a take number: each is at least 0, and NULL is not. Of the two tests
// the
// kit's `sqlite` takes the second for a range of `record_take`, so it reads what all builders hold,
// and no other record. That it takes the range is not proved; the answer would be the same.
/// The records that a builder holds under a take number, by architecture and then by source
/// package.
pub fn held_by() -> &'static str
    ensures { AsksAmong source_record result.now held_by 1 }
{
    "SELECT arch, source, state, version, priority, section, earlier, number, holder, take, waits, \
     depends, note, message, build_priority, rank \
     FROM source_record WHERE holder = ?1 AND take >= 0 ORDER BY arch, source"
}

/// The records of an architecture, by source package.
pub fn records_of_arch() -> &'static str
    ensures { AsksAmong source_record result.now records_of_arch 1 }
{
    "SELECT arch, source, state, version, priority, section, earlier, number, holder, take, waits, \
     depends, note, message, build_priority, rank \
     FROM source_record WHERE arch = ?1 ORDER BY source"
}

// As `queue`, a range of the index `record_order`, so a list costs what it answers.
/// The records of an architecture in a state, by source package.
pub fn records_in_state() -> &'static str
    ensures { AsksAmong source_record result.now records_in_state 2 }
{
    "SELECT arch, source, state, version, priority, section, earlier, number, holder, take, waits, \
     depends, note, message, build_priority, rank \
     FROM source_record WHERE arch = ?1 AND state = ?2 ORDER BY source"
}

// One look-up, whose answer is counted, for `summary`: ten statements with COUNT would be ten
// questions, and each command would have to keep a table of counts in step.
/// The state of each record of an architecture, in no order. The index `record_order` has both
/// columns, so no record is read.
pub fn states_of_arch() -> &'static str
    ensures { AsksAmong source_record result.now states_of_arch 1 }
{
    "SELECT state FROM source_record WHERE arch = ?1"
}

/// The source package of each record of an architecture, by name. The index of the key has both
/// columns, so no record is read.
pub fn names_of_arch() -> &'static str
    ensures { AsksAmong source_record result.now names_of_arch 1 }
{
    "SELECT source FROM source_record WHERE arch = ?1 ORDER BY source"
}

/// All records, by architecture and then by source package.
pub fn all_records() -> &'static str
    ensures { AsksAmong source_record result.now all_records 0 }
{
    "SELECT arch, source, state, version, priority, section, earlier, number, holder, take, waits, \
     depends, note, message, build_priority, rank \
     FROM source_record ORDER BY arch, source"
}

/// All architectures with their two words, by name.
pub fn all_archs() -> &'static str
    ensures { AsksAmong arch result.now all_archs 0 }
{
    "SELECT name, os, cpu FROM arch ORDER BY name"
}

/// The architecture of a name with its two words.
pub fn arch_words() -> &'static str
    ensures { AsksAmong arch result.now arch_of_name 1 }
{
    "SELECT name, os, cpu FROM arch WHERE name = ?1"
}

/// The pair of a builder and an architecture, if the builder was added for it.
pub fn builder_pair() -> &'static str
    ensures { AsksAmong builder result.now pair_of_builder 2 }
{
    "SELECT name, arch FROM builder WHERE name = ?1 AND arch = ?2"
}

/// A builder with the architectures for which it was added, by architecture.
pub fn builder_pairs() -> &'static str
    ensures { AsksAmong builder result.now pairs_of_builder 1 }
{
    "SELECT name, arch FROM builder WHERE name = ?1 ORDER BY arch"
}

/// All builders with the architectures for which they were added, by builder and then by
/// architecture.
pub fn all_builders() -> &'static str
    ensures { AsksAmong builder result.now all_builders 0 }
{
    "SELECT name, arch FROM builder ORDER BY name, arch"
}

/// The format and the two counts of the office.
pub fn office_counts() -> &'static str
    ensures { AsksAmong office result.now office_counts 0 }
{
    "SELECT format, handed, accepted FROM office"
}

/// The row of the office: its id, the format and the two counts.
pub fn office_row() -> &'static str
    ensures { AsksAmong office result.now office_row 0 }
{
    "SELECT id, format, handed, accepted FROM office"
}

/// The format of the office, in each row of a table `office` that has such a column, whatever else
/// the database has, as [`crate::has_format_column`] says.
pub fn office_format() -> &'static str
    ensures { AsksFormat result.now }
{
    "SELECT format FROM office"
}

/// The place of one source package of a merge, if there is one.
pub fn first_scratch_source() -> &'static str
    ensures { AsksAmong scratch_source result.now first_source 0 }
{
    "SELECT seq FROM scratch_source LIMIT 1"
}

/// The place of one binary package of a merge, if there is one.
pub fn first_scratch_binary() -> &'static str
    ensures { AsksAmong scratch_binary result.now first_binary 0 }
{
    "SELECT seq FROM scratch_binary LIMIT 1"
}

/// Puts an architecture in. The parameters are its name and its two words.
pub fn add_arch() -> &'static str
    ensures { InsertsAmong arch result.now arch_row 3 }
{
    "INSERT INTO arch(name, os, cpu) VALUES (?1, ?2, ?3)"
}

/// Puts a builder in, for an architecture. The parameters are the two names.
pub fn add_builder() -> &'static str
    ensures { InsertsAmong builder result.now builder_row 2 }
{
    "INSERT INTO builder(name, arch) VALUES (?1, ?2)"
}

/// Takes out the architecture of a name.
pub fn remove_arch() -> &'static str
    ensures { DeletesAmong arch result.now has_arch_name 1 }
{
    "DELETE FROM arch WHERE name = ?1"
}

/// Takes out the pair of a builder and an architecture.
pub fn remove_builder() -> &'static str
    ensures { DeletesAmong builder result.now has_pair 2 }
{
    "DELETE FROM builder WHERE name = ?1 AND arch = ?2"
}

/// Sets the two counts of the office, which are the parameters: take numbers handed out, and
/// commands accepted.
pub fn set_counts() -> &'static str
    ensures { UpdatesAmong office result.now [] office_sets 2 }
{
    "UPDATE office SET handed = ?1, accepted = ?2"
}
