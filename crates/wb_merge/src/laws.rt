//! Laws of the listing and of the merge, each on a function that does nothing.
ghost use Rattle.std.specs.Prelude.{◌≡◌, ◌≢◌, ℕ, Bool, pos, ◌+◌, ◌≤◌, List, [], ◌∷◌, ◌++◌, length};
ghost use Rattle.std.specs.Prelude.{filter, map as each, bytes_eq, codes, Option, option_map, Some};
ghost use Rattle.std.specs.Prelude.{None, Ok, Err, ◌↔◌, ◌⊎◌, IfSome, IsTrue, true, false};
ghost use Rattle.std.specs.List.{list_all, list_any};
ghost use Rattle.std.specs.Char.{is_ascii_digit};
ghost use Rattle.std.specs.Str.{IsUtf8};
ghost use Rattle.std.specs.declared.cmp.Ordering.TheVariants.{Less, Equal};
ghost use Rattle.std.specs.FinMap as map;
ghost use Rattle.deb_version.specs.Order.{version_cmp};
ghost use Rattle.deb_version.specs.Syntax.{is_version_text, value_of};
ghost use Rattle.deb_control.specs.Lines.{lines_of, paragraphs_in};
ghost use Rattle.deb_relations.specs.declared.arch.ArchWords.{ArchWords};
ghost use Rattle.deb_relations.specs.Examples.{amd64, hurd_i386};
ghost use Rattle.deb_relations.specs.declared.relations.Alternative.{Alternative};
ghost use Rattle.deb_relations.specs.Reading.{reading_of};
ghost use Rattle.deb_relations.specs.Satisfaction.{HaveSamePairs, Pairs, names_of, versions_of};
ghost use Rattle.wb_merge.specs.declared.listing.Listed.{Listed};
ghost use Rattle.wb_merge.specs.declared.listing.Built.{Built};
ghost use Rattle.wb_merge.specs.Rows.{AreRows, IsFirstFault, NamesSource, SourceParagraph};
ghost use Rattle.wb_merge.specs.Rows.{BinaryParagraph, binary_paragraph, binary_rows};
ghost use Rattle.wb_merge.specs.Rows.{is_source_text, rebuild_number, source_name};
ghost use Rattle.wb_merge.specs.Rows.{source_paragraph, source_rows, with_version};
ghost use Rattle.wb_merge.specs.Listing.{IsGreatest, available_of, built_of, installable_versions};
ghost use Rattle.wb_merge.specs.Listing.{is_candidate, is_listed, listed_cmp, candidates};
ghost use Rattle.wb_merge.specs.Listing.{built_cmp, builds, listing_of, listing_of_rows};
ghost use Rattle.wb_merge.specs.Listing.{ArchiveListing};
ghost use Rattle.wb_states.specs.declared.record.Record.{Record};
ghost use Rattle.wb_states.specs.declared.refusal.Refusal.{Refusal};
ghost use Rattle.wb_states.specs.declared.refusal.ListKind.TheVariants.{Sources, Packages};
ghost use Rattle.wb_states.specs.declared.state.State.TheVariants.{BdUninstallable, Building};
ghost use Rattle.wb_states.specs.declared.state.State.TheVariants.{DepWait, Failed, Installed};
ghost use Rattle.wb_states.specs.declared.state.State.TheVariants.{NeedsBuild, NotForUs, Uploaded};
ghost use Rattle.wb_states.specs.Limits.{note_limit, rebuild_limit};
ghost use Rattle.wb_states.specs.Moves.{build_text_of};
ghost use Rattle.deb_relations.specs.Names.{is_package_name};
ghost use Rattle.wb_states.specs.Record.{FitsState, IsWellFormed};
ghost use Rattle.wb_states.specs.State.{is_held};
ghost use Rattle.deb_text.specs.Text.{IsTextWithin};
ghost use Rattle.wb_merge.specs.Merge.{are_waits_met, ends_hold, HasSameHold, SaysWaitsMet};
ghost use Rattle.wb_merge.specs.Changes.{changes_between, record_change};
ghost use Rattle.wb_merge.specs.Examples.{Becomes, BecomesBeside, BecomesByReport, binary_of};
ghost use Rattle.wb_merge.specs.Examples.{built_at, held_in, listed_at, provider_of, record_in};
ghost use Rattle.wb_merge.specs.Examples.{reported_of, source_of, version_listed};
ghost use Rattle.wb_merge.specs.Merged.{Records, BecomesAt, record_after_at, all_kept};
ghost use Rattle.wb_merge.specs.Merged.{is_same_record, merge_counts, merged, record_after_named};
ghost use Rattle.wb_merge.specs.Merged.{recorded_names};
ghost use Rattle.wb_merge.specs.Scratch.{built_in, is_build_of, kept_binaries, kept_sources};
ghost use Rattle.wb_merge.specs.Scratch.{listed_in, listing_kept, listing_of_kept, record_found};
ghost use Rattle.wb_merge.specs.Scratch.{row_of_kept, versions_in};
ghost use Rattle.wb_states.specs.declared.scratch.SourceRow.{SourceRow as KeptSource};
ghost use Rattle.wb_states.specs.declared.scratch.BinaryRow.{BinaryRow as KeptBinary};
ghost use Rattle.wb_merge.specs.Steps.{Key, record_at};
ghost use Rattle.wb_merge.specs.declared.report.ReportLine.{ReportLine};
ghost use Rattle.wb_merge.specs.declared.report.ReportFault.TheVariants.{BadReport};
ghost use Rattle.wb_merge.specs.Report.{AreGoodLines, IsFirstBadLine, IsWellFormedLine, IsWritten};
ghost use Rattle.wb_merge.specs.Report.{Lines, by_source, is_reported, line_of, lines_in};
ghost use Rattle.wb_merge.specs.Report.{read_lines, record_after_report, report_of};
ghost use Rattle.wb_merge.specs.Reported.{records_reported, rows_reported, with_rows};
ghost use Rattle.deb_text.specs.Lists.{IsIn};

/// A list is read as the rows of its paragraphs, one for each, or refused for the first paragraph
/// that has a fault, with its number from 1: that of its lines, or else the first of its fields
/// (Debian Policy 5.1; the numbers are this project's own).
pub fn the_first_faulty_paragraph_decides()
    ensures sources { (text : List ℕ) (rows : List SourceParagraph) → (source_rows text ≡ Ok rows)
        ↔ AreRows source_paragraph (paragraphs_in (lines_of text)) rows }
    ensures sources_fault { (text : List ℕ) (refusal : Refusal) → (source_rows text ≡ Err refusal)
        ↔ IsFirstFault Sources source_paragraph (paragraphs_in (lines_of text)) refusal }
    ensures packages { (text : List ℕ) (rows : List BinaryParagraph) → (binary_rows text ≡ Ok rows)
        ↔ AreRows binary_paragraph (paragraphs_in (lines_of text)) rows }
    ensures packages_fault { (text : List ℕ) (refusal : Refusal) → (binary_rows text ≡ Err refusal)
        ↔ IsFirstFault Packages binary_paragraph (paragraphs_in (lines_of text)) refusal }
{}

/// What a listing has of a source package is the paragraph of its greatest version among those that
/// list it, and of equal ones the first; nothing else is. Takes no memory (Debian Policy 5.6.12;
/// that the first wins is this project's own).
pub fn listed_is_greatest()
    ensures is { (arch : ArchWords) (sources : List SourceParagraph) (packages : List BinaryParagraph)
        (name : List ℕ) → IsGreatest listed_cmp (candidates arch sources name)
        (map.get (listing_of_rows arch sources packages).listed name) }
    ensures only { (arch : ArchWords) (sources : List SourceParagraph) (packages : List BinaryParagraph)
        (name : List ℕ) (found : Option Listed)
        → IsGreatest listed_cmp (candidates arch sources name) found
        → found ≡ map.get (listing_of_rows arch sources packages).listed name }
{}

/// What a listing has of the builds of a source package is the greatest by source version and
/// rebuild number among those of the architecture, and of equal ones the first; nothing else is.
/// Takes no memory (Debian Policy 5.6.12; that the first wins is this project's own).
pub fn built_is_greatest()
    ensures is { (arch : ArchWords) (sources : List SourceParagraph) (packages : List BinaryParagraph)
        (name : List ℕ) → IsGreatest built_cmp (builds arch packages name)
        (map.get (listing_of_rows arch sources packages).built name) }
    ensures only { (arch : ArchWords) (sources : List SourceParagraph) (packages : List BinaryParagraph)
        (name : List ℕ) (found : Option Built)
        → IsGreatest built_cmp (builds arch packages name) found
        → found ≡ map.get (listing_of_rows arch sources packages).built name }
{}

/// What is available of a name are all versions in which the packages offer it that can be
/// installed on the architecture, as their own name or as one that they provide, in the order of
/// the list; a name that is provided without a version has none (Debian Policy 5.6.8 and 7.5).
pub fn available_is_each_pair()
    ensures versions { (arch : ArchWords) (rows : List BinaryParagraph) (name : List ℕ)
        → versions_of (available_of arch rows) name ≡ installable_versions arch rows name }
{}

/// What a merge keeps of two lists while it runs has their listing: it is refused as they are, and
/// what is listed and built of a source package, and in which versions a name is available, is what
/// the rows of that name have.
pub fn kept_rows_are_the_listing()
    ensures listing { (sources packages : List ℕ) (arch : ArchWords) → listing_of sources packages arch
        ≡ listing_kept arch (kept_sources sources) (kept_binaries arch packages) }
    ensures listed { (arch : ArchWords) (sources : List KeptSource) (binaries : List KeptBinary) (name : List ℕ)
        → map.get (listing_of_kept arch sources binaries).listed name ≡ listed_in arch sources name }
    ensures built { (arch : ArchWords) (sources : List KeptSource) (binaries : List KeptBinary) (name : List ℕ)
        → map.get (listing_of_kept arch sources binaries).built name ≡ built_in binaries name }
    ensures available { (arch : ArchWords) (sources : List KeptSource) (binaries : List KeptBinary)
        (name : List ℕ)
        → versions_of (listing_of_kept arch sources binaries).available name ≡ versions_in binaries name }
    // a name that no row has is not listed
    ensures unnamed { (arch : ArchWords) (sources : List KeptSource) (name : List ℕ)
        → list_any (bytes_eq name) (each (λ row. row.name) sources) ≡ false
        → listed_in arch sources name ≡ None }
{}

/// Whether the waits of a record are met depends only on the versions in which the names are
/// available that they have (Debian Policy 7.1 and 7.5).
pub fn waits_are_met_by_names()
    ensures same { (one other : Pairs) (waits : List ℕ) (relations : List (List Alternative))
        → reading_of waits ≡ Ok relations → HaveSamePairs one other (names_of relations)
        → are_waits_met one waits ≡ are_waits_met other waits }
{}

/// Rows for which no question asks may be left out: what is listed and built of a source package,
/// and the versions of a name, are the same among the rows that pass a test, if each row that
/// counts for them passes it.
pub fn rows_left_out_change_nothing()
    ensures listed { (arch : ArchWords) (keep : KeptSource → Bool) (rows : List KeptSource) (name : List ℕ)
        → ((row : KeptSource) → is_candidate arch name (row_of_kept row) ≡ true → keep row ≡ true)
        → listed_in arch (filter keep rows) name ≡ listed_in arch rows name }
    ensures built { (keep : KeptBinary → Bool) (rows : List KeptBinary) (name : List ℕ)
        → ((row : KeptBinary) → is_build_of name row ≡ true → keep row ≡ true)
        → built_in (filter keep rows) name ≡ built_in rows name }
    ensures versions { (keep : KeptBinary → Bool) (rows : List KeptBinary) (name : List ℕ)
        → ((row : KeptBinary) → bytes_eq name row.name ≡ true → keep row ≡ true)
        → versions_in (filter keep rows) name ≡ versions_in rows name }
{}

/// The record of a source package after a merge of a listing is the one that is found by the rows
/// of that source package among what is kept of the lists, if it is said of a record in Dep-Wait
/// whether its waits are met by what is available.
pub fn records_are_found_by_rows()
    ensures rows { (arch : ArchWords) (sources : List KeptSource) (binaries : List KeptBinary) (name : List ℕ)
        (current : Option Record) (is_met : Bool)
        → IfSome current (SaysWaitsMet (listing_of_kept arch sources binaries).available is_met)
        → record_found arch current name (filter (λ row. bytes_eq name row.name) sources)
        (filter (λ row. bytes_eq name row.source) binaries) is_met
        ≡ record_after_named (listing_of_kept arch sources binaries) name current }
    ensures lists { (sources packages : List ℕ) (arch : ArchWords) (listing : ArchiveListing)
        (rows : List KeptSource) (binaries : List KeptBinary) (name : List ℕ) (current : Option Record) (is_met : Bool)
        → listing_of sources packages arch ≡ Ok listing
        → kept_sources sources ≡ Ok rows → kept_binaries arch packages ≡ Ok binaries
        → IfSome current (SaysWaitsMet listing.available is_met)
        → record_found arch current name (filter (λ row. bytes_eq name row.name) rows)
        (filter (λ row. bytes_eq name row.source) binaries) is_met ≡ record_after_named listing name current }
{}

/// At each key a merge makes of the record there what the cases say, whatever the other records
/// are: those of other architectures stay, and a source package that is not listed has none.
pub fn merge_is_pointwise()
    ensures at { (old : Records) (arch : List ℕ) (listing : ArchiveListing) (key : Key)
        → map.get (merged old arch listing) key ≡ record_after_at old arch listing key }
    ensures others { (old : Records) (arch : List ℕ) (listing : ArchiveListing) (key : Key)
        → key.0 ≢ arch → map.get (merged old arch listing) key ≡ map.get old key }
    ensures unlisted { (old : Records) (arch : List ℕ) (listing : ArchiveListing) (name : List ℕ)
        → map.get listing.listed name ≡ None
        → map.get (merged old arch listing) (arch, name) ≡ None }
{}

/// A merge of the listing that was merged just before changes nothing, and counts every record of
/// the architecture as kept.
pub fn merge_twice_changes_nothing()
    ensures unchanged { (old : Records) (arch : List ℕ) (listing : ArchiveListing)
        → merged (merged old arch listing) arch listing ≡ merged old arch listing }
    ensures counts { (old : Records) (arch : List ℕ) (listing : ArchiveListing)
        → merge_counts (merged old arch listing) arch listing
        ≡ all_kept (length (recorded_names (merged old arch listing) arch)) }
{}

/// The counts of a merge add up: each record that the architecture had before is removed, changed
/// or kept, and each that it has afterwards is added, changed or kept.
pub fn merge_counts_add_up()
    ensures before { (old : Records) (arch : List ℕ) (listing : ArchiveListing)
        → let counts = merge_counts old arch listing in
        counts.removed + (counts.changed + counts.kept) ≡ length (recorded_names old arch) }
    ensures behind { (old : Records) (arch : List ℕ) (listing : ArchiveListing)
        → let counts = merge_counts old arch listing in
        counts.added + (counts.changed + counts.kept)
        ≡ length (recorded_names (merged old arch listing) arch) }
{}

/// The changes of an architecture between records have of each source package what became of its
/// record: nothing exactly if it is as it was.
pub fn changes_are_pointwise()
    ensures at { (old new : Records) (arch name : List ℕ)
        → map.get (changes_between old new arch) name
        ≡ record_change (record_at old (arch, name)) (record_at new (arch, name)) }
    ensures unchanged { (old new : Option Record) → (record_change old new ≡ None) ↔ (old ≡ new) }
{}

/// Records are found to be the same exactly if they are equal, so what is counted as kept is as it
/// was.
pub fn kept_records_are_equal()
    ensures same { (one other : Record) → is_same_record one other ≡ true ↔ (one ≡ other) }
{}

/// A merge never brings a record back: its version does not become an earlier one, nor, if it stays
/// equal, its number a lower one; what was built earlier stays so, and what is Not-For-Us stays
/// that. For a source package that is listed a hold ends exactly if the listing has a later
/// version, or the same one built with at least the record's number (this project's own).
pub fn merges_never_go_back()
    // what a record has reached
    ensures version { (old : Records) (arch : List ℕ) (listing : ArchiveListing) (key : Key)
        (current new : Record) → BecomesAt old arch listing key current new
        → version_cmp new.version current.version ≢ Less }
    ensures number { (old : Records) (arch : List ℕ) (listing : ArchiveListing) (key : Key)
        (current new : Record) → BecomesAt old arch listing key current new
        → version_cmp new.version current.version ≡ Equal → current.number ≤ new.number }
    ensures earlier { (old : Records) (arch : List ℕ) (listing : ArchiveListing) (key : Key)
        (current new : Record) → BecomesAt old arch listing key current new
        → current.earlier ≡ true → new.earlier ≡ true }
    ensures not_for_us { (old : Records) (arch : List ℕ) (listing : ArchiveListing) (key : Key)
        (current new : Record) → BecomesAt old arch listing key current new
        → current.state ≡ NotForUs → new.state ≡ NotForUs }
    // the hold of a builder
    ensures hold { (old : Records) (arch : List ℕ) (listing : ArchiveListing) (key : Key)
        (current new : Record) (listed : Listed) → BecomesAt old arch listing key current new
        → is_held current.state ≡ true → map.get listing.listed key.1 ≡ Some listed
        → ends_hold listed (map.get listing.built key.1) current ≡ false → HasSameHold current new }
    ensures ended { (old : Records) (arch : List ℕ) (listing : ArchiveListing) (key : Key)
        (current new : Record) (listed : Listed) → BecomesAt old arch listing key current new
        → key.0 ≡ arch → map.get listing.listed key.1 ≡ Some listed
        → ends_hold listed (map.get listing.built key.1) current ≡ true
        → is_held new.state ≡ false }
{}

/// A merge leaves each record the build priority that an operator gave it, also at a later version,
/// and a record that was not there before has build priority 0 (this project's own).
pub fn merges_keep_build_priorities()
    ensures stays { (old : Records) (arch : List ℕ) (listing : ArchiveListing) (key : Key)
        (current new : Record) → BecomesAt old arch listing key current new
        → new.build_priority ≡ current.build_priority }
    ensures starts { (old : Records) (arch : List ℕ) (listing : ArchiveListing) (key : Key) (new : Record)
        → map.get old key ≡ None → map.get (merged old arch listing) key ≡ Some new
        → new.build_priority ≡ pos 0 }
{}

/// The number of a binary-only rebuild is read back from the version that its binaries are given,
/// and so is each number that one to three digits after `+b` write at the end of a version (Debian
/// Policy 5.6.12.2; that there are at most three is this project's own).
pub fn rebuild_numbers_read_back()
    ensures built { (current : Record) → 1 ≤ current.number → current.number ≤ rebuild_limit
        → rebuild_number (build_text_of current) ≡ current.number }
    ensures ends { (front digits : List ℕ) → 1 ≤ length digits → length digits ≤ 3
        → IsTrue (list_all is_ascii_digit digits)
        → rebuild_number (front ++ codes "+b" ++ digits) ≡ value_of digits }
{}

/// A source package's name, alone or with a version in brackets after it, is read as that name and
/// that version, and no other text names a source package (Debian Policy 5.6.1).
pub fn source_texts_read_back()
    ensures plain { (name : List ℕ) → IsTrue (is_package_name name) → NamesSource name name None }
    ensures versioned { (name version : List ℕ)
        → IsTrue (is_package_name name) → IsTrue (is_version_text version)
        → NamesSource (with_version name version) name (Some version) }
    ensures only { (text : List ℕ) → IsTrue (is_source_text text) → (text ≡ source_name text)
        ⊎ ((version : List ℕ) × (text ≡ with_version (source_name text) version)) }
{}

/// A line of a report can be read exactly if it is written as three words, with blanks between and
/// round them: the name of a source package, a version, and `installable` at the end or
/// `uninstallable`, after which the reason is what is left without the blanks round it (Debian
/// Policy 5.6.1 and 5.6.12 for the name and the version).
pub fn report_lines_are_written_so()
    ensures written { (line : List ℕ) (read : ReportLine)
        → (line_of line ≡ Some read) ↔ IsWritten line read }
{}

/// A report is read if none of its lines is bad, and else refused with the number of the first that
/// is, counted from 1, blank lines too. A line is bad if it is not blank and cannot be read, or
/// names a source package again.
pub fn the_first_bad_line_decides()
    ensures read { (text : List ℕ) (lines : Lines) → (report_of text ≡ Ok lines)
        ↔ (AreGoodLines (lines_in text) × (lines ≡ by_source (lines_in text))) }
    ensures refused { (text : List ℕ) (number : ℕ)
        → (report_of text ≡ Err (BadReport number)) ↔ IsFirstBadLine (lines_in text) number }
{}

/// A report that is read has of each source package the line that names it, whatever the order of
/// its lines, and no other.
pub fn reports_have_their_lines()
    ensures found { (text : List ℕ) (lines : Lines) (source : List ℕ) (line : ReportLine)
        → report_of text ≡ Ok lines → (map.get lines source ≡ Some line)
        ↔ (IsIn line (read_lines text) × (line.source ≡ source)) }
{}

/// What is read of a report has its form: a source package's name, a version, and a reason that is
/// a text of at most 1000 bytes (Debian Policy 5.6.1 and 5.6.12).
pub fn reports_have_well_formed_lines()
    ensures form { (text : List ℕ) (lines : Lines) (source : List ℕ) (line : ReportLine) → IsUtf8 text
        → report_of text ≡ Ok lines → map.get lines source ≡ Some line → IsWellFormedLine line }
{}

/// A line of a report moves a record only between Needs-Build and BD-Uninstallable, and only one of
/// the version that it names: there `uninstallable` leaves BD-Uninstallable with the reason as the
/// note, and `installable` Needs-Build. All else stays as it is, so no hold ends (the order of
/// versions is that of Debian Policy 5.6.12).
pub fn reports_move_between_two_states()
    // which records a line moves
    ensures states { (line : ReportLine) (current : Record) → (record_after_report line current ≡ current)
        ⊎ ((is_reported current.state ≡ true)
        × (is_reported (record_after_report line current).state ≡ true)) }
    ensures version { (line : ReportLine) (current : Record)
        → version_cmp current.version line.version ≢ Equal
        → record_after_report line current ≡ current }
    ensures held { (line : ReportLine) (current : Record) → is_held current.state ≡ true
        → record_after_report line current ≡ current }
    // what it makes of them
    ensures uninstallable { (line : ReportLine) (current : Record) (reason : List ℕ)
        → version_cmp current.version line.version ≡ Equal → is_reported current.state ≡ true
        → line.reason ≡ Some reason
        → ((record_after_report line current).state ≡ BdUninstallable)
        × ((record_after_report line current).note ≡ reason) }
    ensures installable { (line : ReportLine) (current : Record)
        → version_cmp current.version line.version ≡ Equal → is_reported current.state ≡ true
        → line.reason ≡ None → (record_after_report line current).state ≡ NeedsBuild }
    ensures others { (line : ReportLine) (current : Record) → FitsState current
        → record_after_report line current ≡ record current {
          state = (record_after_report line current).state;
          note = (record_after_report line current).note;
        } }
{}

/// A line of a report that is read again at once changes nothing.
pub fn reports_twice_change_nothing()
    ensures twice { (line : ReportLine) (current : Record)
        → record_after_report line (record_after_report line current)
        ≡ record_after_report line current }
{}

/// A report of an architecture says of each of its source packages what the line that names it
/// says, if there is one, and nothing of any other record; and what it makes of them are the
/// records before with those that differ put at their keys.
pub fn reports_are_pointwise()
    ensures named { (old : Records) (arch source : List ℕ) (lines : Lines) (line : ReportLine)
        → map.get lines source ≡ Some line
        → map.get (records_reported old arch lines) (arch, source)
        ≡ option_map (record_after_report line) (map.get old (arch, source)) }
    ensures unnamed { (old : Records) (arch : List ℕ) (lines : Lines) (key : Key) → map.get lines key.1 ≡ None
        → map.get (records_reported old arch lines) key ≡ map.get old key }
    ensures others { (old : Records) (arch : List ℕ) (lines : Lines) (key : Key) → key.0 ≢ arch
        → map.get (records_reported old arch lines) key ≡ map.get old key }
    ensures rows { (old : Records) (arch : List ℕ) (lines : Lines)
        → with_rows old (rows_reported old arch lines) ≡ records_reported old arch lines }
{}

/// A line whose reason is a text of at most 1000 bytes keeps the fields of a record in their forms
/// and limits.
pub fn reports_keep_records_well_formed()
    ensures kept { (line : ReportLine) (current : Record)
        → IfSome line.reason (IsTextWithin note_limit) → IsWellFormed current
        → IsWellFormed (record_after_report line current) }
{}

/// Examples of what lists have of a source package: for which architectures it is listed and in
/// which version, and what is built of it on an architecture; and in which versions a name is
/// available that packages provide.
/// Source: Debian Policy 5.6.8, 7.5 and 11.1.1; the rest is this project's own.
pub fn examples_of_listings()
    // it is listed if a word of its Architecture matches, unless Extra-Source-Only is yes
    ensures archs { (is_listed amd64 (source_of (codes "bash") (codes "5.2.15-2") (codes "any" ∷ [])) ≡ true)
        × (is_listed amd64 (source_of (codes "systemd") (codes "252.17-1") (codes "linux-any" ∷ [])) ≡ true)
        × (is_listed hurd_i386 (source_of (codes "systemd") (codes "252.17-1") (codes "linux-any" ∷ [])) ≡ false)
        × (is_listed amd64 (source_of (codes "memtest86+") (codes "6.10-4") (codes "amd64" ∷ codes "i386" ∷ [])) ≡ true)
        × (is_listed hurd_i386 (source_of (codes "memtest86+") (codes "6.10-4") (codes "amd64" ∷ codes "i386" ∷ [])) ≡ false)
        × (is_listed amd64 (source_of (codes "tzdata") (codes "2023c-5") (codes "all" ∷ [])) ≡ false) }
    ensures extra { is_listed amd64
        (record (source_of (codes "ghc") (codes "9.0.2-4") (codes "any" ∷ [])) { is_extra = true }) ≡ false }
    // of several versions the greatest one that is listed
    ensures versions { version_listed amd64 (source_of (codes "linux") (codes "6.1.55-1") (codes "linux-any" ∷ [])
        ∷ source_of (codes "linux") (codes "6.1.106-3") (codes "linux-any" ∷ [])
        ∷ source_of (codes "linux") (codes "6.10.6-1") (codes "i386" ∷ []) ∷ []) (codes "linux")
        ≡ Some (codes "6.1.106-3") }
    // of several builds on the architecture the latest, with the number of its rebuild
    ensures builds { built_of amd64 (binary_of (codes "libc6") (codes "2.36-9") (codes "amd64") (codes "glibc")
        ∷ binary_of (codes "libc-bin") (codes "2.36-9+b1") (codes "amd64") (codes "glibc (2.36-9)")
        ∷ binary_of (codes "libc6") (codes "2.37-1") (codes "i386") (codes "glibc") ∷ []) (codes "glibc")
        ≡ built_at (codes "2.36-9") 1 }
    // a name that is provided is available in the versions that are given there, or without one
    ensures provided { (installable_versions amd64
        (provider_of (codes "debhelper") (codes "13.11.4") (codes "debhelper-compat (= 12), debhelper-compat (= 13)") ∷ [])
        (codes "debhelper-compat") ≡ Some (codes "12") ∷ Some (codes "13") ∷ [])
        × (installable_versions amd64
        (provider_of (codes "exim4-daemon-light") (codes "4.96-15") (codes "default-mta, mail-transport-agent") ∷ [])
        (codes "mail-transport-agent") ≡ None ∷ [])
        × (installable_versions amd64
        (provider_of (codes "foo") (codes "1.0") (codes "bar (>= 1), bar | baz, bar [amd64]") ∷ [])
        (codes "bar") ≡ []) }
{}

/// Examples of merges of the architecture amd64, one clause for each case: what becomes of the
/// record of a source package by what is listed and built of it, whatever else is recorded or
/// listed.
/// Source: this project's own.
pub fn examples_of_merges()
    // of what is not listed there is no record
    ensures unlisted { Becomes (codes "bash") None None (Some (record_in Failed (codes "5.2.15-2"))) None }
    // what had no record is Installed if this version or a later one is built, else it waits for a
    // builder
    ensures added { Becomes (codes "hello") (listed_at (codes "2.10-3")) None None
        (Some (record_in NeedsBuild (codes "2.10-3"))) }
    ensures added_behind { Becomes (codes "hello") (listed_at (codes "2.10-3")) (built_at (codes "2.10-2") 0) None
        (Some (record (record_in NeedsBuild (codes "2.10-3")) { earlier = true })) }
    ensures added_built { Becomes (codes "hello") (listed_at (codes "2.10-3")) (built_at (codes "2.10-3") 2) None
        (Some (record (record_in Installed (codes "2.10-3")) { earlier = true; number = 2 })) }
    // a later version is listed than the record has: as if it had none, but Not-For-Us stays
    ensures newer { Becomes (codes "bash") (listed_at (codes "5.2.21-2")) None
        (Some (record (held_in Building (codes "5.2.15-2")) { earlier = true; number = 1; message = codes "new readline" }))
        (Some (record (record_in NeedsBuild (codes "5.2.21-2")) { earlier = true })) }
    ensures newer_built { Becomes (codes "bash") (listed_at (codes "5.2.21-2")) (built_at (codes "5.2.21-2") 0)
        (Some (held_in Uploaded (codes "5.2.15-2")))
        (Some (record (record_in Installed (codes "5.2.21-2")) { earlier = true })) }
    ensures newer_not_for_us { Becomes (codes "alsa-lib") (listed_at (codes "1.2.10-3")) None
        (Some (record (record_in NotForUs (codes "1.2.8-1")) { note = codes "no sound" }))
        (Some (record (record_in NotForUs (codes "1.2.10-3")) { note = codes "no sound" })) }
    // an earlier version is listed than the record has: the record stays
    ensures older { Becomes (codes "bash") (listed_at (codes "5.2.15-2")) (built_at (codes "5.2.15-2") 0)
        (Some (held_in Building (codes "5.2.21-2")))
        (Some (held_in Building (codes "5.2.21-2"))) }
    // the record's version is listed, and nothing of it is built: an Installed one waits again, and
    // others stay
    ensures same_held { Becomes (codes "bash") (listed_at (codes "5.2.15-2")) None
        (Some (held_in Building (codes "5.2.15-2"))) (Some (held_in Building (codes "5.2.15-2"))) }
    ensures same_listing { Becomes (codes "bash") (listed_at (codes "5.2.15-2")) None
        (Some (record (record_in Failed (codes "5.2.15-2")) { section = codes "shells"; note = codes "cc died" }))
        (Some (record (record_in Failed (codes "5.2.15-2")) { note = codes "cc died" })) }
    ensures same_removed { Becomes (codes "bash") (listed_at (codes "5.2.15-2")) None
        (Some (record (record_in Installed (codes "5.2.15-2")) { earlier = true }))
        (Some (record (record_in NeedsBuild (codes "5.2.15-2")) { earlier = true })) }
    // the record's version is listed and built: Installed, but a rebuild needs at least its number,
    // and Not-For-Us stays
    ensures same_built { Becomes (codes "bash") (listed_at (codes "5.2.15-2")) (built_at (codes "5.2.15-2") 0)
        (Some (held_in Uploaded (codes "5.2.15-2")))
        (Some (record (record_in Installed (codes "5.2.15-2")) { earlier = true })) }
    ensures same_not_rebuilt { Becomes (codes "bash") (listed_at (codes "5.2.15-2")) (built_at (codes "5.2.15-2") 1)
        (Some (record (record_in NeedsBuild (codes "5.2.15-2")) { earlier = true; number = 2 }))
        (Some (record (record_in NeedsBuild (codes "5.2.15-2")) { earlier = true; number = 2 })) }
    ensures same_rebuilt { Becomes (codes "bash") (listed_at (codes "5.2.15-2")) (built_at (codes "5.2.15-2") 3)
        (Some (record (record_in NeedsBuild (codes "5.2.15-2")) { earlier = true; number = 2 }))
        (Some (record (record_in Installed (codes "5.2.15-2")) { earlier = true; number = 3 })) }
    ensures same_not_for_us { Becomes (codes "bash") (listed_at (codes "5.2.15-2")) (built_at (codes "5.2.15-2") 0)
        (Some (record_in NotForUs (codes "5.2.15-2")))
        (Some (record (record_in NotForUs (codes "5.2.15-2")) { earlier = true })) }
    // the version is equal in the order of versions, and the record keeps its text
    ensures same_text { Becomes (codes "bash") (listed_at (codes "0:5.2.15-02")) None
        (Some (record_in NeedsBuild (codes "5.2.15-2"))) (Some (record_in NeedsBuild (codes "5.2.15-2"))) }
    // the record's version is listed and the record is in Dep-Wait: until what it waits for is
    // available
    ensures waits_unmet { BecomesBeside (codes "libssl-dev") (Some (codes "1.1.1w-0+deb11u1") ∷ [])
        (codes "curl") (listed_at (codes "7.88.1-10")) None
        (Some (record (record_in DepWait (codes "7.88.1-10")) { waits = codes "libssl-dev (>= 3)" }))
        (Some (record (record_in DepWait (codes "7.88.1-10")) { waits = codes "libssl-dev (>= 3)" })) }
    ensures waits_provided { BecomesBeside (codes "libssl-dev") (None ∷ [])
        (codes "curl") (listed_at (codes "7.88.1-10")) None
        (Some (record (record_in DepWait (codes "7.88.1-10")) { waits = codes "libssl-dev (>= 3)" }))
        (Some (record (record_in DepWait (codes "7.88.1-10")) { waits = codes "libssl-dev (>= 3)" })) }
    ensures waits_met { BecomesBeside (codes "libssl-dev") (Some (codes "3.0.11-1") ∷ [])
        (codes "curl") (listed_at (codes "7.88.1-10")) None
        (Some (record (record_in DepWait (codes "7.88.1-10")) { waits = codes "libssl-dev (>= 3)" }))
        (Some (record_in NeedsBuild (codes "7.88.1-10"))) }
{}

/// Examples of reports: what a line reads as, and which line of a report is the first bad one.
/// Source: Debian Policy 5.6.1 and 5.6.12 for the forms of names and versions; the rest is this
/// project's own.
pub fn examples_of_reports()
    // a line with any blanks round its words; a reason may have several words or none
    ensures installable { line_of (codes "hello 2.10-3 installable")
        ≡ Some (reported_of (codes "hello") (codes "2.10-3") None) }
    ensures uninstallable { line_of (codes " hello\t2.10-3  uninstallable \t libfoo-dev is missing ")
        ≡ Some (reported_of (codes "hello") (codes "2.10-3") (Some (codes "libfoo-dev is missing"))) }
    ensures no_reason { line_of (codes "hello 2.10-3 uninstallable")
        ≡ Some (reported_of (codes "hello") (codes "2.10-3") (Some [])) }
    // no line has another word there, words after `installable`, a malformed name or version, or a
    // carriage return
    ensures unread { (line_of (codes "hello 2.10-3 missing libfoo-dev") ≡ None)
        × (line_of (codes "hello 2.10-3 installable now") ≡ None)
        × (line_of (codes "hello installable") ≡ None)
        × (line_of (codes "Hello 2.10-3 installable") ≡ None)
        × (line_of (codes "hello 2.10_3 installable") ≡ None)
        × (line_of (codes "hello 2.10-3 installable\r") ≡ None) }
    // blank lines are counted
    ensures bad { (report_of (codes "hello") ≡ Err (BadReport 1))
        × (report_of (codes "\n \t\nhello\n") ≡ Err (BadReport 3)) }
    ensures blank { report_of (codes "\n \t\n") ≡ Ok map.empty }
    ensures again { report_of (codes "hello 2.10-3 installable\n\nhello 2.10-4 installable\n")
        ≡ Err (BadReport 3) }
{}

/// Examples of what a line of a report makes of a record.
/// Source: Debian Policy 5.6.12 for the order of versions; the rest is this project's own.
pub fn examples_of_reported_records()
    // what cannot be built waits no more, and waits again if it can
    ensures uninstallable { BecomesByReport (codes "2.10-3") (Some (codes "libfoo-dev is missing"))
        (record_in NeedsBuild (codes "2.10-3"))
        (record (record_in BdUninstallable (codes "2.10-3")) { note = codes "libfoo-dev is missing" }) }
    ensures another_reason { BecomesByReport (codes "2.10-3") (Some [])
        (record (record_in BdUninstallable (codes "2.10-3")) { note = codes "libfoo-dev is missing" })
        (record_in BdUninstallable (codes "2.10-3")) }
    ensures installable { BecomesByReport (codes "2.10-3") None
        (record (record_in BdUninstallable (codes "2.10-3")) { note = codes "libfoo-dev is missing" })
        (record_in NeedsBuild (codes "2.10-3")) }
    // the version may be written in another way, but not be another
    ensures same_version { BecomesByReport (codes "0:2.10-03") (Some [])
        (record_in NeedsBuild (codes "2.10-3")) (record_in BdUninstallable (codes "2.10-3")) }
    ensures other_version { BecomesByReport (codes "2.10-4") (Some [])
        (record_in NeedsBuild (codes "2.10-3")) (record_in NeedsBuild (codes "2.10-3")) }
    // all else stays
    ensures waiting { BecomesByReport (codes "2.10-3") None
        (record (record_in NeedsBuild (codes "2.10-3")) { note = codes "given back" })
        (record (record_in NeedsBuild (codes "2.10-3")) { note = codes "given back" }) }
    ensures held { BecomesByReport (codes "2.10-3") (Some (codes "libfoo-dev is missing"))
        (held_in Building (codes "2.10-3")) (held_in Building (codes "2.10-3")) }
{}
