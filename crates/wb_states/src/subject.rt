//! Which records a command names.
ghost use Rattle.std.specs.Prelude.{◌≡◌};
ghost use Rattle.wb_states.specs.Subject.{subject_named, subject_of};

use crate::{Command, command};
use deb_text::Text;

/// The records that a command names: what has to be looked up before it can be carried out.
#[derive(Debug, Drop)]
pub enum Subject<'a> {
    /// None by itself: the command adds an architecture or a builder, or its lists, its report or
    /// the architecture that it takes away name them.
    Nothing,
    /// That of a source package: the architecture and the source package.
    Source(&'a Text, &'a Text),
    /// The one that is held under a take number.
    Taken(u64),
    /// The head of a queue, and what a builder that asks again holds.
    Head(&'a command::Next),
    /// Those that a builder holds.
    Held(&'a Text),
}

impl Command {
    /// The records that the command names. Takes no memory.
    pub fn names(&self) -> Subject<'_>
        ensures value { subject_named result ≡ subject_of self.now }
    {
        match self {
            Command::AddArch(_)
            | Command::AddBuilder(_)
            | Command::RemoveArch(_)
            | Command::Merge(_)
            | Command::Report(_) => Subject::Nothing,
            Command::RemoveBuilder(remove) => Subject::Held(&remove.name),
            Command::Enter(enter) => Subject::Source(&enter.arch, &enter.source),
            Command::Next(next) => Subject::Head(next),
            Command::Take(take) => Subject::Source(&take.arch, &take.source),
            Command::Built(held) | Command::Uploaded(held) | Command::PutBack(held) => {
                Subject::Taken(held.take_number)
            }
            Command::Waits(waits) => Subject::Taken(waits.take_number),
            Command::Attempted(attempted) => Subject::Taken(attempted.take_number),
            Command::GiveBack(back) => Subject::Source(&back.arch, &back.source),
            Command::DepWait(waits) => Subject::Source(&waits.arch, &waits.source),
            Command::Fail(aside) | Command::NotForUs(aside) => {
                Subject::Source(&aside.arch, &aside.source)
            }
            Command::Rebuild(rebuild) => Subject::Source(&rebuild.arch, &rebuild.source),
            Command::BuildPriority(priority) => Subject::Source(&priority.arch, &priority.source),
            Command::Forget(forget) => Subject::Source(&forget.arch, &forget.source),
        }
    }
}
