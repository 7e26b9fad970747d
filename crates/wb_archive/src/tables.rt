//! What a merge asks of the tables in which it runs.
ghost use Rattle.std.specs.Prelude.{◌≡◌, ◌≢◌, ◌++◌, ◌∷◌, [], ◌<◌, ◌^◌, Some, None, filter};
ghost use Rattle.std.specs.Prelude.{map as each, bytes_eq, IfOk, IfErr, IfSome, OnOk};
ghost use Rattle.std.specs.FinMap as finite;
ghost use Rattle.wb_merge.specs.Merged.{recorded_names};
ghost use Rattle.wb_merge.specs.Scratch.{versions_in};
ghost use Rattle.wb_archive.specs.Tables.{Contents, Tables, AreNamesOf, HasFittingTake};
ghost use Rattle.wb_archive.specs.Tables.{HaveWaiting, IsAfterBinaries, IsAfterSources, back_at};
ghost use Rattle.wb_archive.specs.Tables.{with_binaries, with_records, with_savepoint};
ghost use Rattle.wb_archive.specs.Tables.{with_sources, without_savepoint};

use deb_text::Text;
use deb_version::Version;
use wb_states::{BinaryRow, KeyedRecord, Record, SourceRow};

// The functions of a merge say by one record (`Advances`) what they follow and how they fail, since
// memory may run out between two calls. These calls fail with the tables' own fault, of which out
// of memory is one, so each says both by itself.
/// The tables in which a merge runs, within a transaction that its caller began: the state of the
/// office, and what is kept of the archive's lists. Each clause speaks of what stands in the tables
/// before a call and says what stands in them after it (this project's own).
pub trait MergeTables {
    /// Why a call fails.
    type Fault: Drop;

    // What was read of the tables is what was written to them.
    ghost is_clean: { Self → Type 0 };

    // This stands in the tables.
    ghost holds: { Self → Tables → Type 0 };

    // Calls that succeeded went from the first to the second.
    ghost follows: { Self → Self → Type 0 };

    // Calls that succeeded went from the first on, and then one failed with this fault and left the
    // second.
    ghost fails: { Self → Self → Self.Fault → Type 0 };

    /// The record of the source package `source` on the architecture `arch`, or none if it has no
    /// record there. Whatever stands in the tables, its take number, if it has one, is at most
    /// [`wb_states::COUNT_LIMIT`].
    fn record(&mut self, arch: &Text, source: &Text) -> Result<Option<Record>, Self::Fault>
        ensures value { (tables : Tables) → is_clean self.new → holds self.old tables
            → IfOk result (λ found. found ≡ finite.get tables.now.machine.records (arch.now, source.now)) }
        ensures given { IfOk result (λ found. IfSome found HasFittingTake) }
        ensures same { (tables : Tables) → is_clean self.new → holds self.old tables → OnOk result (holds self.new tables) }
        ensures follows { OnOk result (follows self.old self.new) }
        ensures fails { IfErr result (fails self.old self.new) };

    /// The source packages of the architecture that have a record, by name.
    fn recorded_names(&mut self, arch: &Text) -> Result<Vec<Text>, Self::Fault>
        ensures value { (tables : Tables) → is_clean self.new → holds self.old tables
            → IfOk result (λ names. names.items ≡ recorded_names tables.now.machine.records arch.now) }
        ensures same { (tables : Tables) → is_clean self.new → holds self.old tables → OnOk result (holds self.new tables) }
        ensures follows { OnOk result (follows self.old self.new) }
        ensures fails { IfErr result (fails self.old self.new) };

    /// The records of the architecture that are in Dep-Wait.
    fn waiting(&mut self, arch: &Text) -> Result<Vec<KeyedRecord>, Self::Fault>
        ensures value { (tables : Tables) → is_clean self.new → holds self.old tables
            → IfOk result (λ rows. HaveWaiting tables.now.machine.records arch.now rows.items) }
        ensures same { (tables : Tables) → is_clean self.new → holds self.old tables → OnOk result (holds self.new tables) }
        ensures follows { OnOk result (follows self.old self.new) }
        ensures fails { IfErr result (fails self.old self.new) };

    /// The source packages of which a paragraph of Sources is kept, each once.
    fn listed_names(&mut self) -> Result<Vec<Text>, Self::Fault>
        ensures value { (tables : Tables) → is_clean self.new → holds self.old tables
            → IfOk result (λ names. AreNamesOf tables.now.sources names.items) }
        ensures same { (tables : Tables) → is_clean self.new → holds self.old tables → OnOk result (holds self.new tables) }
        ensures follows { OnOk result (follows self.old self.new) }
        ensures fails { IfErr result (fails self.old self.new) };

    /// What is kept of the paragraphs of a source package in Sources, by their numbers.
    fn sources_named(&mut self, name: &Text) -> Result<Vec<SourceRow>, Self::Fault>
        ensures value { (tables : Tables) → is_clean self.new → holds self.old tables
            → IfOk result (λ rows. rows.items ≡ filter (λ row. bytes_eq name.now row.name) tables.now.sources) }
        ensures same { (tables : Tables) → is_clean self.new → holds self.old tables → OnOk result (holds self.new tables) }
        ensures follows { OnOk result (follows self.old self.new) }
        ensures fails { IfErr result (fails self.old self.new) };

    /// The rows that are kept of Packages and were built from a source package, by their numbers.
    fn binaries_of(&mut self, source: &Text) -> Result<Vec<BinaryRow>, Self::Fault>
        ensures value { (tables : Tables) → is_clean self.new → holds self.old tables
            → IfOk result (λ rows. rows.items ≡ filter (λ row. bytes_eq source.now row.source) tables.now.binaries) }
        ensures same { (tables : Tables) → is_clean self.new → holds self.old tables → OnOk result (holds self.new tables) }
        ensures follows { OnOk result (follows self.old self.new) }
        ensures fails { IfErr result (fails self.old self.new) };

    /// The versions in which a name is available by what is kept of Packages, by the numbers of the
    /// rows; none where it is provided without one (Debian Policy 7.5).
    fn versions_named(&mut self, name: &Text) -> Result<Vec<Option<Version>>, Self::Fault>
        ensures value { (tables : Tables) → is_clean self.new → holds self.old tables
            → IfOk result (λ versions. versions.items ≡ versions_in tables.now.binaries name.now) }
        ensures same { (tables : Tables) → is_clean self.new → holds self.old tables → OnOk result (holds self.new tables) }
        ensures follows { OnOk result (follows self.old self.new) }
        ensures fails { IfErr result (fails self.old self.new) };

    /// Keeps a paragraph of Sources, whose number is above those that are kept and below 2^63; all
    /// else stays.
    fn add_source(&mut self, row: &SourceRow) -> Result<(), Self::Fault>
        requires fits { row.now.seq < 2 ^ 63 }
        ensures value { (tables : Tables) → is_clean self.new → holds self.old tables
            → IsAfterSources row.now.seq tables.now.sources
            → OnOk result (holds self.new (with_sources (tables.now.sources ++ row.now ∷ []) tables)) }
        ensures follows { OnOk result (follows self.old self.new) }
        ensures fails { IfErr result (fails self.old self.new) };

    /// Keeps a row of Packages, whose number is above those that are kept and below 2^63; all else
    /// stays.
    fn add_binary(&mut self, row: &BinaryRow) -> Result<(), Self::Fault>
        requires fits { row.now.seq < 2 ^ 63 }
        ensures value { (tables : Tables) → is_clean self.new → holds self.old tables
            → IsAfterBinaries row.now.seq tables.now.binaries
            → OnOk result (holds self.new (with_binaries (tables.now.binaries ++ row.now ∷ []) tables)) }
        ensures follows { OnOk result (follows self.old self.new) }
        ensures fails { IfErr result (fails self.old self.new) };

    /// Gives the source package `source` on the architecture `arch` this record, whose take number,
    /// if it has one, is at most [`wb_states::COUNT_LIMIT`], in place of the one that it had, if
    /// any; all else stays.
    fn put(&mut self, arch: &Text, source: &Text, current: &Record) -> Result<(), Self::Fault>
        requires given { HasFittingTake current.now }
        ensures value { (tables : Tables) → is_clean self.new → holds self.old tables → OnOk result (holds self.new
            (with_records (finite.insert tables.now.machine.records (arch.now, source.now) current.now) tables)) }
        ensures follows { OnOk result (follows self.old self.new) }
        ensures fails { IfErr result (fails self.old self.new) };

    /// Takes out the record of the source package `source` on the architecture `arch`, if it has
    /// one; all else stays.
    fn remove(&mut self, arch: &Text, source: &Text) -> Result<(), Self::Fault>
        ensures value { (tables : Tables) → is_clean self.new → holds self.old tables → OnOk result (holds self.new
            (with_records (finite.remove tables.now.machine.records (arch.now, source.now)) tables)) }
        ensures follows { OnOk result (follows self.old self.new) }
        ensures fails { IfErr result (fails self.old self.new) };

    /// Sets the savepoint, if there is none.
    fn save(&mut self) -> Result<(), Self::Fault>
        ensures value { (tables : Tables) → is_clean self.new → holds self.old tables → tables.saved ≡ None
            → OnOk result (holds self.new (with_savepoint tables)) }
        ensures follows { OnOk result (follows self.old self.new) }
        ensures fails { IfErr result (fails self.old self.new) };

    /// Goes back to what stood in the tables at the savepoint, which stays.
    fn back_to(&mut self) -> Result<(), Self::Fault>
        ensures value { (tables : Tables) (saved : Contents) → is_clean self.new → holds self.old tables
            → tables.saved ≡ Some saved → OnOk result (holds self.new (back_at saved tables)) }
        ensures follows { OnOk result (follows self.old self.new) }
        ensures fails { IfErr result (fails self.old self.new) };

    /// Gives up the savepoint; what stands in the tables stays.
    fn release(&mut self) -> Result<(), Self::Fault>
        ensures value { (tables : Tables) → is_clean self.new → holds self.old tables → tables.saved ≢ None
            → OnOk result (holds self.new (without_savepoint tables)) }
        ensures follows { OnOk result (follows self.old self.new) }
        ensures fails { IfErr result (fails self.old self.new) };

    /// Takes out all that is kept of Packages; all else stays.
    fn clear_binaries(&mut self) -> Result<(), Self::Fault>
        ensures value { (tables : Tables) → is_clean self.new → holds self.old tables
            → OnOk result (holds self.new (with_binaries [] tables)) }
        ensures follows { OnOk result (follows self.old self.new) }
        ensures fails { IfErr result (fails self.old self.new) };

    /// Takes out all that is kept of Sources and of Packages; all else stays.
    fn clear_scratch(&mut self) -> Result<(), Self::Fault>
        ensures value { (tables : Tables) → is_clean self.new → holds self.old tables
            → OnOk result (holds self.new (with_sources [] (with_binaries [] tables))) }
        ensures follows { OnOk result (follows self.old self.new) }
        ensures fails { IfErr result (fails self.old self.new) };

    // Tables from which no call went on.
    ghost follows_itself: { (tables : Self) → follows tables tables };

    // Calls after calls.
    ghost follows_on: { (first second third : Self) → follows first second → follows second third → follows first third };

    // A failure after calls.
    ghost fails_on: { (first second third : Self) (fault : Self.Fault) → follows first second → fails second third fault → fails first third fault };

    // What is clean was clean before.
    ghost clean: { (first second : Self) → follows first second → is_clean second → is_clean first };
}
