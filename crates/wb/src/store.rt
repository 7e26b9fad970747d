//! The office over records that a file keeps.

ghost use Rattle.sqlite.specs.Held.{IsNew};

use crate::files::{connect, connect_to_ask, names_no_file, refuse};
use crate::first_page::FirstPage;
use crate::leftovers::{Before, remove};
use crate::lock::{LockRefusal, lock_of};
use crate::names::FileNames;
use crate::progress::{report_first_format, report_opening};
use crate::starting::{Decision, FileFacts, Front, Tables, tables_of, what_becomes};
use crate::{Work, act, answer, said};
use sqlite::{Connection, File, FileStore};
use std::fs;
use std::io::{self, ErrorKind};
use wb_daemon::status;
use wb_office::Office;
use wb_states::StoreFault;
use wb_store::RefusedConnection;

/// That the store is not opened. Why was said on standard error; the answer on standard output,
/// which names it so, is still to be written.
#[derive(Clone, Copy)]
pub(crate) struct Refused {
    name: &'static str,
}

// A link is resolved first: the kit's `sqlite` keeps the log beside the file to which it leads, so
// that is where the log is looked for, and where the lock is. A link to no file is refused, since a
// new office behind it is more likely a slip.
/// Has the office over the records in the file do its work, or in the file to which a link of this
/// name leads.
pub(crate) fn open_for(rt: &HostRuntime, name: &str, work: Work<'_>) -> u8 {
    if names_no_file(name) {
        return answer_refusal(rt, refuse_name(rt, name));
    }
    match is_link(rt, name) {
        false => open_file(rt, name, work),
        true => match fs::canonicalize(rt, name) {
            Ok(file) => open_file(rt, file.as_str(), work),
            Err(error) => answer_refusal(rt, refuse_link(rt, name, error)),
        },
    }
}

/// Has the office over the records in the file, which is no link, do its work.
fn open_file(rt: &HostRuntime, file: &str, work: Work<'_>) -> u8 {
    match FileNames::new(rt.alloc(), file) {
        Ok(names) => match open_named(rt, &names, work) {
            Ok(status) => status,
            Err(refused) => answer_refusal(rt, refused),
        },
        Err(_) => answer_refusal(rt, refuse_fault(rt, file, StoreFault::Memory)),
    }
}

/// Has the office over the records in the file of these names do its work. One program at a time
/// has the file: it holds the lock. What a refused opening made is removed while the lock is held,
/// and the lock last.
fn open_named(rt: &HostRuntime, names: &FileNames<'_>, work: Work<'_>) -> Result<u8, Refused> {
    let lock = match lock_of(rt, names) {
        Ok(lock) => lock,
        Err(LockRefusal::InUse) => return Err(refuse_held(rt, names.file)),
        Err(LockRefusal::Device) => {
            return Err(Refused {
                name: StoreFault::Device.name(),
            });
        }
    };
    let before = Before::look(rt, names);
    let opened = open_locked(rt, names, work);
    if opened.is_err() {
        before.restore(rt, names);
        if lock.is_new {
            let _ = remove(rt, names.lock.as_str());
        }
    }
    opened
}

/// Has the office over the records in the file, which is locked, do its work. The file is made if
/// it is not there, with a sum of each page. What becomes of one that is there, [`what_becomes`]
/// says, by what is found of it before it is opened and after that. An office that is only asked
/// leaves the file and its log as they are.
fn open_locked(rt: &HostRuntime, names: &FileNames<'_>, work: Work<'_>) -> Result<u8, Refused> {
    let page = FirstPage::read(rt, names.file);
    let facts = FileFacts {
        front: page.front,
        log: names.read_log(rt),
        pages: page.pages,
        tables: Tables::Unread,
    };
    match what_becomes(facts) {
        Decision::RefuseLost => return Err(refuse_lost(rt, names)),
        Decision::RefuseNoDatabase => {
            return Err(refuse_fault(rt, names.file, StoreFault::NotOffice));
        }
        _ => {}
    }
    report_opening(rt, names.file);
    if page.is_of_first_format {
        report_first_format(rt, names.file);
    }
    let asked = match work {
        Work::Ask { words } => ask_file(rt, names.file, facts, words),
        _ => None,
    };
    match asked {
        Some(answered) => answered,
        None => keep_file(rt, names.file, facts, work),
    }
}

/// Has the office over the records in the file answer the query of these words, and writes nothing
/// to the file or its log. `None` if the file has no office yet, or cannot be opened so.
fn ask_file(
    rt: &HostRuntime,
    file: &str,
    facts: FileFacts,
    words: &[&str],
) -> Option<Result<u8, Refused>> {
    if facts.front == Front::Nothing {
        return None;
    }
    let conn = connect_to_ask(rt, file)?;
    if tables_of(&conn) == Tables::Lacking {
        return None;
    }
    match Office::try_adopt(rt.alloc(), conn) {
        Ok(mut office) => Some(Ok(answer(rt, &mut office, words))),
        Err(refused) => Some(Err(refuse_fault(rt, file, refused.fault))),
    }
}

/// Has the office over the records in the file, of which this was found before it is opened, do its
/// work, and keeps them in it.
fn keep_file(
    rt: &HostRuntime,
    file: &str,
    facts: FileFacts,
    work: Work<'_>,
) -> Result<u8, Refused> {
    match connect(rt, file) {
        Ok(conn) => {
            let tables = tables_of(&conn);
            let decision = what_becomes(FileFacts { tables, ..facts });
            keep_in(rt, file, decision, conn, work)
        }
        Err(fault) => Err(Refused { name: fault.name() }),
    }
}

/// Has the office in a database do its work, unless the decision refuses it. What else becomes of
/// the file is reported on standard error: a new office may begin in it by a slip in its name.
fn keep_in(
    rt: &HostRuntime,
    file: &str,
    decision: Decision,
    conn: Connection<FileStore<File>>,
    work: Work<'_>,
) -> Result<u8, Refused>
    requires fresh { IsNew conn }
{
    if decision == Decision::RefuseOthers {
        return Err(refuse_others(rt, file));
    }
    match Office::try_adopt(rt.alloc(), conn) {
        Ok(mut office) => {
            report_decision(rt, file, decision);
            let status = act(rt, &mut office, work);
            close(rt, file, office);
            Ok(status)
        }
        Err(RefusedConnection { fault, conn: left }) => {
            // The files hold what they held, as the search for the office left it.
            let _files = wb_sql::surrender(left);
            Err(refuse_fault(rt, file, fault))
        }
    }
}

/// Closes the office in a file. What was committed stays if that fails, which is reported on
/// standard error.
fn close(rt: &HostRuntime, file: &str, office: Office<FileStore<File>>) {
    if let Err(refused) = office.try_close() {
        let _ = eprintln!(rt; "wb: {file} was not closed: {}", refused.fault);
    }
}

/// Says what became of the file, if a new office begins in it, or its office was brought over into
/// format 2.
fn report_decision(rt: &HostRuntime, file: &str, decision: Decision) {
    let _ = match decision {
        Decision::Begin => {
            eprintln!(rt; "wb: {file} was empty or not there: a new office begins in it")
        }
        Decision::BeginBeside => {
            eprintln!(rt; "wb: {file} had no office: a new one begins in it, beside what it holds")
        }
        Decision::Upgrade => report_upgraded(rt, file),
        Decision::UpgradeUnsummed => report_unsummed(rt, file),
        _ => Ok(()),
    };
}

/// Says that the office in the file was brought over into format 2.
fn report_upgraded(rt: &HostRuntime, file: &str) -> io::Result<()> {
    eprintln!(rt; "wb: {file} was brought over from format 1 into format 2")
}

/// Says that the office in the file, which another program made, was brought over into format 2.
fn report_unsummed(rt: &HostRuntime, file: &str) -> io::Result<()> {
    report_upgraded(rt, file)?;
    eprintln!(rt;
        "wb: another program made {file}: its pages have no checksums and get none, so a byte that a disk changes may stay unseen"
    )
}

/// Whether the name is that of a link.
fn is_link(rt: &HostRuntime, name: &str) -> bool {
    match fs::symlink_metadata(rt, name) {
        Ok(found) => found.is_symlink(),
        Err(_) => false,
    }
}

/// Says that the store cannot be opened, since its name is that of no file.
fn refuse_name(rt: &HostRuntime, file: &str) -> Refused {
    let reason = "SQLite takes the name for no file";
    let fault = refuse(rt, file, StoreFault::Device, reason);
    Refused { name: fault.name() }
}

/// Says that the store cannot be opened, since the link of this name leads to no file.
fn refuse_link(rt: &HostRuntime, name: &str, error: io::Error) -> Refused {
    let fault = match error.kind() {
        ErrorKind::OutOfMemory => StoreFault::Memory,
        _ => StoreFault::Device,
    };
    let _ = eprintln!(rt; "wb: {name} cannot be opened: it is a link, and where it leads: {error}");
    Refused { name: fault.name() }
}

/// Says that the store cannot be opened, for this fault.
fn refuse_fault(rt: &HostRuntime, file: &str, fault: StoreFault) -> Refused {
    Refused {
        name: refuse(rt, file, fault, fault).name(),
    }
}

/// Says that the store cannot be opened, since its file is lost and its log is not.
fn refuse_lost(rt: &HostRuntime, names: &FileNames<'_>) -> Refused {
    let _ = eprintln!(rt;
        "wb: {} cannot be opened: it is empty or not there, and its log {} holds commits",
        names.file,
        names.log.as_str()
    );
    Refused {
        name: StoreFault::NotOffice.name(),
    }
}

/// Says that no office begins in the file, since another program made it.
fn refuse_others(rt: &HostRuntime, file: &str) -> Refused {
    let _ = eprintln!(rt;
        "wb: {file} cannot be opened: it is a database of another program, whose pages have no checksums"
    );
    Refused {
        name: StoreFault::NotOffice.name(),
    }
}

/// Says that the store cannot be opened, since another program has it.
fn refuse_held(rt: &HostRuntime, file: &str) -> Refused {
    let _ = eprintln!(rt; "wb: {file} cannot be opened: another program has it");
    Refused { name: "InUse" }
}

/// Writes the answer for a store that is not opened.
fn answer_refusal(rt: &HostRuntime, refused: Refused) -> u8 {
    said_store(rt, refused.name)
}

/// Writes the line for a store that cannot be opened.
pub(crate) fn said_store(rt: &HostRuntime, name: &str) -> u8 {
    let printed: io::Result<()> = println!(rt; "{{\"fault\":\"store\",\"store\":\"{name}\"}}");
    said(printed, status::STOPPED)
}
