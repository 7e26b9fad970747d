//! What operators and builders ask of the office: one struct per command, with texts as they came.

// What a command is stands in three tables: `subject_of` says which records it names,
// `arguments_of` of `wb_step` what it brings besides, and `move_of` there which move it makes. The
// checks, the state after a command, its reply and what it looks at are definitions over these. No
// table has a last line for all other commands, so a command that is forgotten is an error. Reports
// of holders that bring a take number alone share one struct, and so do `fail` and `not-for-us`.

ghost use Rattle.std.specs.Prelude.{◌≡◌};
ghost use Rattle.wb_states.specs.Commands.{name_of_command};

use deb_text::{Items, Text};

/// Adds an architecture, with the words of its operating system and its processor.
#[derive(Debug, Drop)]
pub struct AddArch {
    /// The name of the architecture.
    pub name: Text,
    /// The word of its operating system.
    pub os: Text,
    /// The word of its processor.
    pub cpu: Text,
}

/// Lets a builder build for an architecture.
#[derive(Debug, Drop)]
pub struct AddBuilder {
    /// The name of the builder.
    pub name: Text,
    /// The architecture for which it may build.
    pub arch: Text,
}

/// Takes an architecture away, with its builders' pairs and its records.
#[derive(Debug, Drop)]
pub struct RemoveArch {
    /// The name of the architecture.
    pub name: Text,
}

/// Lets a builder build no more for an architecture.
#[derive(Debug, Drop)]
pub struct RemoveBuilder {
    /// The name of the builder.
    pub name: Text,
    /// The architecture for which it may build no more.
    pub arch: Text,
}

/// Puts a source package without a record into the queue of an architecture.
#[derive(Debug, Drop)]
pub struct Enter {
    /// The architecture.
    pub arch: Text,
    /// The source package.
    pub source: Text,
    /// The version to build (Debian Policy 5.6.12).
    pub version: Text,
    /// The priority (Debian Policy 2.5).
    pub priority: Text,
    /// The section (Debian Policy 2.4).
    pub section: Text,
}

/// Gives a builder the head of an architecture's queue.
#[derive(Debug, Drop)]
pub struct Next {
    /// The architecture to build for.
    pub arch: Text,
    /// The builder.
    pub builder: Text,
    /// A take number that the builder knows of: the least later one under which it builds for the
    /// architecture, if there is one, is reported to it again, so a builder that was never answered
    /// learns what it holds.
    pub after: Option<u64>,
}

/// Gives a builder a source package that waits in the queue.
#[derive(Debug, Drop)]
pub struct Take {
    /// The architecture to build for.
    pub arch: Text,
    /// The builder.
    pub builder: Text,
    /// The source package.
    pub source: Text,
    /// The version that the record must have, in the order of versions.
    pub version: Text,
}

/// What a holder reports of a source package that it holds, by its take number alone.
#[derive(Debug, Drop)]
pub struct Held {
    /// The number under which it is held.
    pub take_number: u64,
}

/// A holder found that a source package waits for what these relations ask for (Debian Policy 7.1).
#[derive(Debug, Drop)]
pub struct Waits {
    /// The number under which it is held.
    pub take_number: u64,
    /// What it waits for.
    pub relations: Text,
}

/// A holder reports that the build of a source package failed.
#[derive(Debug, Drop)]
pub struct Attempted {
    /// The number under which it is held.
    pub take_number: u64,
    /// Why it failed, in at most 1000 bytes.
    pub reason: Text,
}

/// Puts a source package back into the queue.
#[derive(Debug, Drop)]
pub struct GiveBack {
    /// The architecture.
    pub arch: Text,
    /// The source package.
    pub source: Text,
    /// The version that the record must have, in the order of versions.
    pub version: Text,
}

/// Lets a source package wait for what these relations ask for (Debian Policy 7.1).
#[derive(Debug, Drop)]
pub struct DepWait {
    /// The architecture.
    pub arch: Text,
    /// The source package.
    pub source: Text,
    /// The version that the record must have, in the order of versions.
    pub version: Text,
    /// What it waits for.
    pub relations: Text,
}

/// Takes a source package out of the queue, with a note that says why.
#[derive(Debug, Drop)]
pub struct SetAside {
    /// The architecture.
    pub arch: Text,
    /// The source package.
    pub source: Text,
    /// The version that the record must have, in the order of versions.
    pub version: Text,
    /// Why, in at most 1000 bytes.
    pub note: Text,
}

/// Builds an installed source package once more, as a binary-only rebuild.
#[derive(Debug, Drop)]
pub struct Rebuild {
    /// The architecture.
    pub arch: Text,
    /// The source package.
    pub source: Text,
    /// The version that the record must have, in the order of versions.
    pub version: Text,
    /// The number of the rebuild: 1 to 999, and above the record's.
    pub number: u64,
    /// Why, in at most 1000 bytes.
    pub message: Text,
}

/// Gives a source package another build priority.
#[derive(Debug, Drop)]
pub struct BuildPriority {
    /// The architecture.
    pub arch: Text,
    /// The source package.
    pub source: Text,
    /// The version that the record must have, in the order of versions.
    pub version: Text,
    /// The build priority, from -1000 to 1000: the greatest is built first.
    pub value: i64,
}

/// Takes the record of a source package away.
#[derive(Debug, Drop)]
pub struct Forget {
    /// The architecture.
    pub arch: Text,
    /// The source package.
    pub source: Text,
    /// The version that the record must have, in the order of versions.
    pub version: Text,
}

/// A part of a merge: what the archive has for one architecture.
#[derive(Debug, Drop)]
pub struct Part {
    /// The architecture.
    pub arch: Text,
    /// The bytes of its Packages list, uncompressed.
    pub packages: Items<u8>,
}

/// Brings the records of each part's architecture in line with what the archive lists.
#[derive(Debug, Drop)]
pub struct Merge {
    /// The bytes of the Sources list for all parts, uncompressed.
    pub sources: Items<u8>,
    /// A Packages list for each architecture.
    pub parts: Items<Part>,
}

/// Moves the source packages of an architecture by what a report says of their build dependencies.
#[derive(Debug, Drop)]
pub struct Report {
    /// The architecture.
    pub arch: Text,
    /// The lines of the report.
    pub text: Text,
}

/// A command to the office. All its texts are taken as they came: the office tests their forms.
#[derive(Debug, Drop)]
pub enum Command {
    /// Adds an architecture.
    AddArch(AddArch),
    /// Lets a builder build for an architecture.
    AddBuilder(AddBuilder),
    /// Takes an architecture away, with all that it has.
    RemoveArch(RemoveArch),
    /// Lets a builder build no more for an architecture.
    RemoveBuilder(RemoveBuilder),
    /// Puts a source package without a record into the queue.
    Enter(Enter),
    /// Gives a builder the head of a queue.
    Next(Next),
    /// Gives a builder a source package that it names.
    Take(Take),
    /// The holder built it.
    Built(Held),
    /// The holder uploaded what it built.
    Uploaded(Held),
    /// The holder found that it waits for other packages.
    Waits(Waits),
    /// The holder puts it back into the queue.
    PutBack(Held),
    /// The holder reports that its build failed.
    Attempted(Attempted),
    /// Puts a source package back into the queue.
    GiveBack(GiveBack),
    /// Lets a source package wait for other packages.
    DepWait(DepWait),
    /// A person found that its build fails.
    Fail(SetAside),
    /// It is not to be built on the architecture.
    NotForUs(SetAside),
    /// Builds an installed source package once more.
    Rebuild(Rebuild),
    /// Gives a source package another build priority.
    BuildPriority(BuildPriority),
    /// Takes the record of a source package away.
    Forget(Forget),
    /// Brings the records in line with what the archive lists.
    Merge(Merge),
    /// Moves records by what a report says of their build dependencies.
    Report(Report),
}

impl Command {
    /// The name of the subcommand that asks for it, such as `add-arch`. Takes no memory.
    pub fn name(&self) -> &'static str
        ensures value { result.now ≡ name_of_command self.now }
    {
        match self {
            Command::AddArch(_) => "add-arch",
            Command::AddBuilder(_) => "add-builder",
            Command::RemoveArch(_) => "remove-arch",
            Command::RemoveBuilder(_) => "remove-builder",
            Command::Enter(_) => "enter",
            Command::Next(_) => "next",
            Command::Take(_) => "take",
            Command::Built(_) => "built",
            Command::Uploaded(_) => "uploaded",
            Command::Waits(_) => "waits",
            Command::PutBack(_) => "put-back",
            Command::Attempted(_) => "attempted",
            Command::GiveBack(_) => "give-back",
            Command::DepWait(_) => "dep-wait",
            Command::Fail(_) => "fail",
            Command::NotForUs(_) => "not-for-us",
            Command::Rebuild(_) => "rebuild",
            Command::BuildPriority(_) => "build-priority",
            Command::Forget(_) => "forget",
            Command::Merge(_) => "merge",
            Command::Report(_) => "report",
        }
    }
}
