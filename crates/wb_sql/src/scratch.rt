//! The SQL texts that work on the scratch tables of a merge, with what each means over every schema that has its table. The
//! place of a package in its list is the key `seq`, which is the rowid.

ghost use Rattle.std.specs.Prelude.{[]};
ghost use Rattle.wb_sql.specs.Tables.{scratch_source, scratch_binary};
ghost use Rattle.wb_sql.specs.Among.{AsksAmong, InsertsAmong, DeletesAmong};
ghost use Rattle.wb_sql.specs.ScratchStatements.{all_binaries, all_sources, source_row, binary_row, sources_named, source_names, binaries_of_source, binaries_named, is_up_to_place};

/// Puts a source package in. The parameters are its 9 columns.
pub fn add_source() -> &'static str
    ensures { InsertsAmong scratch_source result.now source_row 9 }
{
    "INSERT INTO scratch_source(seq, name, version, architecture, extra, priority, section, depends, depends_arch) \
     VALUES (?1, ?2, ?3, ?4, ?5, ?6, ?7, ?8, ?9)"
}

/// Puts a binary package in. The parameters are its 7 columns.
pub fn add_binary() -> &'static str
    ensures { InsertsAmong scratch_binary result.now binary_row 7 }
{
    "INSERT INTO scratch_binary(seq, name, version, source, source_version, number, own) \
     VALUES (?1, ?2, ?3, ?4, ?5, ?6, ?7)"
}

/// All source packages, by their place in the list.
pub fn all_sources() -> &'static str
    ensures { AsksAmong scratch_source result.now all_sources 0 }
{
    "SELECT seq, name, version, architecture, extra, priority, section, depends, depends_arch \
     FROM scratch_source ORDER BY seq"
}

/// All binary packages, by their place in the list.
pub fn all_binaries() -> &'static str
    ensures { AsksAmong scratch_binary result.now all_binaries 0 }
{
    "SELECT seq, name, version, source, source_version, number, own FROM scratch_binary ORDER BY seq"
}

/// The source packages of a name, by their place in the list.
pub fn sources_named() -> &'static str
    ensures { AsksAmong scratch_source result.now sources_named 1 }
{
    "SELECT seq, name, version, architecture, extra, priority, section, depends, depends_arch \
     FROM scratch_source WHERE name = ?1 ORDER BY seq"
}

/// The name of each source package, by name and then by place in the list. The index `source_name` has both columns, so
/// nothing is sorted.
pub fn source_names() -> &'static str
    ensures { AsksAmong scratch_source result.now source_names 0 }
{
    "SELECT name FROM scratch_source ORDER BY name, seq"
}

/// The binary packages that were built from a source package, by their place in the list.
pub fn binaries_of_source() -> &'static str
    ensures { AsksAmong scratch_binary result.now binaries_of_source 1 }
{
    "SELECT seq, name, version, source, source_version, number, own FROM scratch_binary WHERE source = ?1 ORDER BY seq"
}

/// The binary packages of a name, by their place in the list.
pub fn binaries_named() -> &'static str
    ensures { AsksAmong scratch_binary result.now binaries_named 1 }
{
    "SELECT seq, name, version, source, source_version, number, own FROM scratch_binary WHERE name = ?1 ORDER BY seq"
}

/// Takes out the source packages up to a place in the list.
pub fn remove_sources() -> &'static str
    ensures { DeletesAmong scratch_source result.now is_up_to_place 1 }
{
    "DELETE FROM scratch_source WHERE seq <= ?1"
}

/// Takes out the binary packages up to a place in the list.
pub fn remove_binaries() -> &'static str
    ensures { DeletesAmong scratch_binary result.now is_up_to_place 1 }
{
    "DELETE FROM scratch_binary WHERE seq <= ?1"
}

/// Takes out all source packages.
pub fn clear_sources() -> &'static str
    ensures { DeletesAmong scratch_source result.now [] 0 }
{
    "DELETE FROM scratch_source"
}

/// Takes out all binary packages.
pub fn clear_binaries() -> &'static str
    ensures { DeletesAmong scratch_binary result.now [] 0 }
{
    "DELETE FROM scratch_binary"
}
