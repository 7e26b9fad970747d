//! The office of a trial, over two files in memory.

use crate::images::{Images, Stopping};
use anyhow::{Result, anyhow, bail};
use sqlite::{FileStore, Files, Options};
use sqlite_disk::Disk;
use std::alloc::{AllocError, Global};
use std::io::{BufRead, Read, Write};
use wb_api::{Routes, Served, serve_one};
use wb_archive::ArchList;
use wb_daemon::{RunLists, run_lines};
use wb_office::{Office, Outcome};
use wb_states::Command;
use wb_step::CarryOut;
use wb_streams::{WatchedReader, WatchedWriter};

/// The salt of the log.
pub(crate) const SEED: u64 = 1;

/// An office over two files in memory. None of its calls has a clause, so that the proof of a trial does not carry
/// what they ensure.
#[derive(Drop)]
pub(crate) struct TrialOffice {
    office: Office<FileStore<Stopping>>,
}

impl TrialOffice {
    /// The office that the files hold, of which none may stop before it is opened.
    pub(crate) fn open(alloc: Global, files: Files<Stopping>) -> Result<TrialOffice> {
        if !files.log.may_be_used() || !files.db.may_be_used() {
            bail!("a file cannot be used");
        }
        match Office::open(alloc, files, Options::new(SEED)) {
            Ok(office) => Ok(TrialOffice { office }),
            Err(fault) => Err(anyhow!("the office cannot be opened: {fault}")),
        }
    }

    /// An empty office, in files that take each call.
    pub(crate) fn empty(alloc: Global) -> Result<TrialOffice> {
        let files = Images::none(alloc).files(alloc, u64::MAX, u64::MAX)?;
        TrialOffice::open(alloc, files)
    }

    /// How many commands it accepted.
    pub(crate) fn accepted_count(&self) -> u64 {
        self.office.accepted_count()
    }

    /// What a command is answered.
    pub(crate) fn apply(&mut self, command: &Command) -> Outcome {
        self.office.apply(command)
    }

    /// What a merge of these lists is answered.
    pub(crate) fn merge_from<R: BufRead + Drop>(
        &mut self,
        sources: R,
        parts: Vec<ArchList<R>>,
    ) -> Outcome {
        self.office.merge_from(sources, parts)
    }

    /// Answers lines, and gives the status of the run.
    pub(crate) fn answer_lines<R: Read + Drop, W: Write + Drop, L: RunLists>(
        &mut self,
        alloc: Global,
        reader: &mut WatchedReader<R>,
        writer: &mut WatchedWriter<W>,
        lists: &mut L,
    ) -> u8 {
        run_lines(alloc, &mut self.office, reader, writer, lists)
    }

    /// Serves one exchange over HTTP.
    pub(crate) fn serve<R: Read + Drop, W: Write + Drop>(
        &mut self,
        alloc: Global,
        routes: &Routes,
        reader: &mut WatchedReader<R>,
        writer: &mut WatchedWriter<W>,
    ) -> Served {
        serve_one(alloc, routes, &mut self.office, reader, writer)
    }

    /// Gives the office up, as it is, and hands out its files.
    pub(crate) fn surrender(self) -> Files<Stopping> {
        let TrialOffice { office } = self;
        office.surrender()
    }

    /// Gives the office up, and says what its files hold.
    pub(crate) fn leave(self, alloc: Global) -> Result<Images, AllocError> {
        Images::of(alloc, &self.surrender())
    }
}
