//! What becomes of a user's file when an office is to be opened over it.
ghost use Rattle.std.specs.Prelude.{◌≡◌, ◌≢◌, ◌⊎◌};
ghost use Rattle.wb.specs.Starting.{decision, front_of};
ghost use Rattle.wb.specs.declared.starting.Decision.TheVariants.{Begin, BeginBeside, Open, Upgrade, UpgradeUnsummed};
ghost use Rattle.wb.specs.declared.starting.Front.TheVariants.{Nothing};
ghost use Rattle.wb.specs.declared.starting.Log.TheVariants.{NoFrame};
ghost use Rattle.wb.specs.declared.starting.Pages.TheVariants.{Summed};
ghost use Rattle.wb.specs.declared.starting.Tables.TheVariants.{FirstFormat, Lacking, SecondFormat, Unfit};
ghost use Rattle.wb_sql.specs.Among.{HasOffice, LacksOffice};
ghost use Rattle.wb_sql.specs.Upgrading.{HasFirstOffice};

use sqlite::{Alter, Connection};
use wb_sql::{has_first_office_tables, has_office_tables, lacks_office};

/// The first bytes of a database, by the format of SQLite's files.
const MAGIC: &[u8; 16] = b"SQLite format 3\0";

/// What a file begins with.
#[derive(Clone, Copy, Debug, PartialEq, Eq)]
pub(crate) enum Front {
    /// It is not there, or has no byte.
    Nothing,
    /// It begins as a database does.
    Database,
    /// It begins with another byte than 0, and not as a database does.
    Other,
    /// It begins with a byte 0, as a crash in the making of a database may leave it; or it cannot
    /// be read.
    Unclear,
}

/// What the log beside a file has.
#[derive(Clone, Copy, Debug, PartialEq, Eq)]
pub(crate) enum Log {
    /// No frame, and so no commit: it is not there, or has no more than its header.
    NoFrame,
    /// Frames, which may be commits.
    Frames,
}

/// Whether the pages of a database have room for checksums.
#[derive(Clone, Copy, Debug, PartialEq, Eq)]
pub(crate) enum Pages {
    /// They have, as the program makes them.
    Summed,
    /// They have none, as other programs make them.
    Unsummed,
}

/// Which tables a database has.
#[derive(Clone, Copy, Debug, PartialEq, Eq)]
pub(crate) enum Tables {
    /// The file was not opened as a database yet.
    Unread,
    /// None with a name of the office's, and none that refers to one.
    Lacking,
    /// Those of an office of format 1.
    FirstFormat,
    /// Those of an office of format 2.
    SecondFormat,
    /// Some of the office's names, and no office.
    Unfit,
}

/// What stands at a file's name.
#[derive(Clone, Copy, Debug, PartialEq, Eq)]
pub(crate) struct FileFacts {
    pub(crate) front: Front,
    pub(crate) log: Log,
    pub(crate) pages: Pages,
    pub(crate) tables: Tables,
}

/// What becomes of the file.
#[derive(Clone, Copy, Debug, PartialEq, Eq)]
pub(crate) enum Decision {
    /// It is refused: it was lost or emptied, and its log is still there.
    RefuseLost,
    /// It is refused: it is no database.
    RefuseNoDatabase,
    /// It is refused: it is a database of another program.
    RefuseOthers,
    /// It is opened as a database, so that its tables can be read.
    ReadTables,
    /// An office begins in it, which has nothing else.
    Begin,
    /// An office begins in it, beside what it holds.
    BeginBeside,
    /// The office in it is brought over into format 2.
    Upgrade,
    /// The same, and its pages stay without checksums.
    UpgradeUnsummed,
    /// The office in it is opened.
    Open,
    /// The opening of the office says why there is none.
    LetOpeningRefuse,
}

/// What becomes of the file of these facts. An office begins only where none is: in a file that
/// holds nothing, beside a log without a commit, or in a database with checksums that has no name
/// of the office's.
pub(crate) fn what_becomes(facts: FileFacts) -> Decision
    ensures value { result ≡ decision facts.front facts.log facts.pages facts.tables }
    // what the lines of the decision come to
    ensures begun { result ≡ Begin
        → (facts.front ≡ Nothing) × (facts.log ≡ NoFrame) × (facts.tables ≡ Lacking) }
    ensures beside { result ≡ BeginBeside
        → (facts.front ≢ Nothing) × (facts.pages ≡ Summed) × (facts.tables ≡ Lacking) }
    ensures upgraded { (result ≡ Upgrade) ⊎ (result ≡ UpgradeUnsummed) → facts.tables ≡ FirstFormat }
    ensures opened { result ≡ Open → facts.tables ≡ SecondFormat }
{
    match (facts.front, facts.log, facts.pages, facts.tables) {
        (Front::Nothing, Log::Frames, _, _) => Decision::RefuseLost,
        (Front::Other, Log::NoFrame, _, _) => Decision::RefuseNoDatabase,
        (_, _, _, Tables::Unread) => Decision::ReadTables,
        (Front::Nothing, _, _, Tables::Lacking) => Decision::Begin,
        (_, _, Pages::Summed, Tables::Lacking) => Decision::BeginBeside,
        (_, _, Pages::Unsummed, Tables::Lacking) => Decision::RefuseOthers,
        (_, _, Pages::Summed, Tables::FirstFormat) => Decision::Upgrade,
        (_, _, Pages::Unsummed, Tables::FirstFormat) => Decision::UpgradeUnsummed,
        (_, _, _, Tables::SecondFormat) => Decision::Open,
        (_, _, _, Tables::Unfit) => Decision::LetOpeningRefuse,
    }
}

/// What a file that has these bytes begins with.
pub(crate) fn front_of(bytes: &[u8]) -> Front
    ensures value { result ≡ front_of bytes.now }
{
    match bytes {
        [] => Front::Nothing,
        _ if bytes.starts_with(MAGIC) => Front::Database,
        [0, ..] => Front::Unclear,
        _ => Front::Other,
    }
}

/// Which tables the database has.
pub(crate) fn tables_of<S: Alter>(conn: &Connection<S>) -> Tables
    ensures lacking { result ≡ Lacking → LacksOffice conn.now.schema }
    ensures first { result ≡ FirstFormat → HasFirstOffice conn.now.schema }
    ensures second { result ≡ SecondFormat → HasOffice conn.now.schema }
    ensures unfit { result ≡ Unfit → ¬ LacksOffice conn.now.schema
        × (¬ HasFirstOffice conn.now.schema × ¬ HasOffice conn.now.schema) }
{
    if lacks_office(conn.schema()) {
        Tables::Lacking
    } else if has_first_office_tables(conn.schema()) {
        Tables::FirstFormat
    } else if has_office_tables(conn.schema()) {
        Tables::SecondFormat
    } else {
        Tables::Unfit
    }
}
