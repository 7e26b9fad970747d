//! The journal of an office in a file.
ghost use Rattle.std.specs.Prelude.{◌≡◌, [], ◌∷◌, ◌++◌, map};
ghost use Rattle.wb_journal.specs.Appended.{noted};

use deb_text::Items;
use http_server::Log;
use jiff::Timestamp;
use std::alloc::Global;
use std::fs::{File, OpenOptions};
use std::io::{self, Read, Seek, SeekFrom, Write};
use std::marker::Model;
use std::os::unix::fs::OpenOptionsExt;
use wb_journal::{Asker, Journal, entry_line, merge_entry_line};
use wb_merge::ArchChanges;
use wb_states::command::Merge;
use wb_states::{Command, Reply};

/// A journal in a file, which each entry is appended to: the file may be moved away at any time. An
/// entry that cannot be written is lost, which is said on standard error once, and again with their
/// number when the next is written.
#[derive(Drop)]
pub(crate) struct FileJournal<'a> {
    rt: &'a HostRuntime,
    /// The name of the file, which is made for its owner and group if it is not there.
    file: &'a str,
    /// Whether the file may end within a line.
    is_cut: bool,
    /// How many entries were lost since the last that was written.
    lost: u64,
    /// The entries that were given, which only proofs read.
    entries: Entries,
}

impl<'a> FileJournal<'a> {
    /// The journal in the file of this name.
    pub(crate) fn new(rt: &'a HostRuntime, file: &'a str) -> Self {
        FileJournal {
            rt,
            file,
            is_cut: ends_within_a_line(rt, file),
            lost: 0,
            entries: Entries::new(),
        }
    }

    /// Appends a line for the command to the file.
    fn write_command(
        &mut self,
        by: &Asker,
        command: &Command,
        reply: &Reply,
        changes: &[ArchChanges],
    ) -> io::Result<()> {
        let alloc = self.rt.alloc();
        let time = time_now(self.rt, alloc);
        let line = entry_line(alloc, by.name(), time.as_deref(), changes, command, reply)?;
        self.write(line.as_str())
    }

    /// Appends a line for a merge to the file.
    fn write_merge(
        &mut self,
        by: &Asker,
        reply: &Reply,
        changes: &[ArchChanges],
    ) -> io::Result<()> {
        let alloc = self.rt.alloc();
        let time = time_now(self.rt, alloc);
        let line = merge_entry_line(alloc, by.name(), time.as_deref(), changes, reply)?;
        self.write(line.as_str())
    }

    /// Appends a line to the file.
    fn write(&mut self, line: &str) -> io::Result<()> {
        let mut how = OpenOptions::new();
        how.append(true).create(true).mode(0o640);
        let mut file = how.open(self.rt, self.file)?;
        if self.is_cut {
            file.write_all(b"\n")?;
        }
        self.is_cut = true;
        file.write_all(line.as_bytes())?;
        self.is_cut = false;
        Ok(())
    }

    /// Says what became of an entry, where that is news.
    fn report(&mut self, written: io::Result<()>) {
        match written {
            Ok(()) => self.report_written(),
            Err(error) => self.report_lost(error),
        }
    }

    /// Says that the journal is written again, if entries were lost.
    fn report_written(&mut self) {
        if self.lost > 0 {
            let _ = eprintln!(self.rt;
                "wb: the journal {} is written again, and lacks {} entries",
                self.file, self.lost
            );
        }
        self.lost = 0;
    }

    /// Says why an entry is lost, if the one before was not.
    fn report_lost(&mut self, error: io::Error) {
        if self.lost == 0 {
            let _ = eprintln!(self.rt;
                "wb: the journal {} cannot be written, and commands go on without it: {error}",
                self.file
            );
        }
        self.lost = self.lost.saturating_add(1);
    }
}

impl<'a> Journal for FileJournal<'a> {
    ghost entries = { λ journal. journal.entries };

    fn append(&mut self, by: &Asker, command: &Command, reply: &Reply, changes: &[ArchChanges]) {
        let entries = self.entries.and(by, command, reply, changes);
        let written = self.write_command(by, command, reply, changes);
        self.report(written);
        self.entries = entries;
    }

    fn append_merge(&mut self, by: &Asker, reply: &Reply, changes: &[ArchChanges]) {
        let alloc = self.rt.alloc();
        let merge = Command::Merge(Merge {
            sources: Items::new(alloc),
            parts: Items::new(alloc),
        });
        let entries = self.entries.and(by, &merge, reply, changes);
        let written = self.write_merge(by, reply, changes);
        self.report(written);
        self.entries = entries;
    }
}

/// The entries that a journal was given, the oldest first, which only proofs read. It takes no
/// memory and does nothing.
#[derive(Drop)]
struct Entries {
    // A log has two things of each entry: so the first is a log of one entry, with who gave the
    // command and the command, and the second one with the reply and the log of what was changed.
    log: Log<Log<Asker, Command>, Log<Reply, Log<ArchChanges, ()>>>,
}

impl Model for Entries {
    ghost use Rattle.std.specs.Prelude.{List, flat_map, map};
    ghost use Rattle.wb_journal.specs.Appended.{Entry, noted};

    ghost Value = { List Entry };

    ghost view = { λ entries. flat_map (λ given. flat_map (λ pair. map
        (λ answer. record {
          by = pair.0;
          command = pair.1;
          reply = answer.0;
          changes = map (λ given. noted given.0) answer.1.items;
        }) given.1.items) given.0.items) entries.log.items };
}

impl Entries {
    /// No entry.
    fn new() -> Entries
        ensures value { result ≡ [] }
    {
        Entries { log: Log::new() }
    }

    /// The same, and then the entry of this command, with who gave it, its reply and what it
    /// changed.
    fn and(&self, by: &Asker, command: &Command, reply: &Reply, changes: &[ArchChanges]) -> Entries
        ensures value { result ≡ self.now
            ++ record {
              by = by.now;
              command = command.now;
              reply = reply.now;
              changes = map noted changes.now;
            } ∷ [] }
    {
        let given = Log::new().and(by, command);
        let answer = Log::new().and(reply, &log_of(changes));
        Entries {
            log: self.log.and(&given, &answer),
        }
    }
}

/// The log of these changes, which takes no memory.
fn log_of(changes: &[ArchChanges]) -> Log<ArchChanges, ()>
    ensures value { map (λ given. noted given.0) result.items ≡ map noted changes.now }
{
    let mut log = Log::new();
    for of_arch in changes {
        log = log.and(of_arch, &());
    }
    log
}

/// The time in UTC to the second, as RFC 3339 writes it; none if the clock shows none, or there is
/// no memory for it.
fn time_now(rt: &HostRuntime, alloc: Global) -> Option<String> {
    let now = Timestamp::now(rt).ok()?;
    format!(in alloc; "{now:.0}").ok()
}

/// Whether the file of this name has a last line without a line feed, as after a stop within a
/// write.
fn ends_within_a_line(rt: &HostRuntime, name: &str) -> bool {
    last_byte(rt, name).is_ok_and(|byte| byte != b'\n')
}

/// The last byte of the file of this name.
fn last_byte(rt: &HostRuntime, name: &str) -> io::Result<u8> {
    let mut file = File::open(rt, name)?;
    file.seek(SeekFrom::End(-1))?;
    let mut byte = [0u8];
    file.read_exact(&mut byte)?;
    Ok(byte[0])
}
