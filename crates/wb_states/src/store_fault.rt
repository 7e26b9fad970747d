//! What can be wrong with the store of the office.
ghost use Rattle.std.specs.Prelude.{◌≡◌};
ghost use Rattle.wb_states.specs.StoreFaults.{code_of_store_fault, name_of_store_fault, name_of_table};

use std::alloc::{AllocError, AllocFailed};
use thiserror::Error;

/// A table of the office.
#[derive(Clone, Copy, Debug, PartialEq, Eq)]
pub enum Table {
    /// The format and the two counts, in one row.
    Office,
    /// The architectures.
    Arch,
    /// Which builder builds for which architecture.
    Builder,
    /// The records of the source packages.
    SourceRecord,
    /// The paragraphs of a Sources list while a merge runs.
    ScratchSource,
    /// The paragraphs of a Packages list while a merge runs.
    ScratchBinary,
    /// The records of a store of the first schema, which has no row once the store was upgraded.
    SourceState,
}

impl Table {
    /// The table's name in the database. Takes no memory.
    pub fn name(self) -> &'static str
        ensures value { result.now ≡ name_of_table self }
    {
        match self {
            Table::Office => "office",
            Table::Arch => "arch",
            Table::Builder => "builder",
            Table::SourceRecord => "source_record",
            Table::ScratchSource => "scratch_source",
            Table::ScratchBinary => "scratch_binary",
            Table::SourceState => "source_state",
        }
    }
}

/// Why the store of the office cannot be opened, read or written. The numbers and the names are
/// this project's own.
#[derive(Clone, Copy, Debug, PartialEq, Eq, Error)]
pub enum StoreFault {
    /// It is no database, or not that of an office.
    #[error("it is not the database of an office")]
    NotOffice,
    /// It was written in a format that is newer than this program.
    #[error("its format is newer than this program")]
    NewerSchema,
    /// A row of a table is not what an office keeps: its number, counted from 1 in the order of
    /// keys, or 0 if the database itself refused a statement on the table.
    #[error("{} is damaged in row {row}", .table.name())]
    Damaged { table: Table, row: u64 },
    /// It is out of memory now.
    #[error("out of memory")]
    Memory,
    /// A read or a write of the disk failed, or the disk is full.
    #[error("the disk failed or is full, or another program has the file open")]
    Device,
}

impl StoreFault {
    /// The fault's number, which never changes. Takes no memory.
    pub fn code(self) -> u8
        ensures value { result ≡ code_of_store_fault self }
    {
        match self {
            StoreFault::NotOffice => 1,
            StoreFault::NewerSchema => 2,
            StoreFault::Damaged { .. } => 3,
            StoreFault::Memory => 4,
            StoreFault::Device => 5,
        }
    }

    /// The fault's name, as it is written here. Takes no memory.
    pub fn name(self) -> &'static str
        ensures value { result.now ≡ name_of_store_fault self }
    {
        match self {
            StoreFault::NotOffice => "NotOffice",
            StoreFault::NewerSchema => "NewerSchema",
            StoreFault::Damaged { .. } => "Damaged",
            StoreFault::Memory => "Memory",
            StoreFault::Device => "Device",
        }
    }
}

impl From<AllocError> for StoreFault {
    ghost use Rattle.wb_states.specs.declared.store_fault.StoreFault.TheVariants.{Memory};

    ghost from_gives = { λ _ fault. fault ≡ Memory };

    fn from(_refused: AllocError) -> StoreFault {
        StoreFault::Memory
    }
}

impl<T: Drop> From<AllocFailed<T>> for StoreFault {
    ghost use Rattle.wb_states.specs.declared.store_fault.StoreFault.TheVariants.{Memory};

    ghost from_gives = { λ _ fault. fault ≡ Memory };

    fn from(_refused: AllocFailed<T>) -> StoreFault {
        StoreFault::Memory
    }
}
