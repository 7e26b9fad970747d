//! What rights allow, in two steps: by the path of a request, and by what its body says.
ghost use Rattle.std.specs.Prelude.{◌≡◌, true};
ghost use Rattle.std.specs.List.{list_any};
ghost use Rattle.std.specs.Option.{option_copied};
ghost use Rattle.wb_states.specs.Machine.{Machine};
ghost use Rattle.wb_keys.specs.Needs.{need_named};
ghost use Rattle.wb_keys.specs.Rights.{allows, asks_holder, holder_for, holder_needed, is_build};
ghost use Rattle.wb_keys.specs.Rights.{is_for};
ghost use Rattle.wb_keys.specs.Rights.{is_operate, is_own, may_ask_for, may_command, meets};
ghost use Rattle.wb_keys.specs.Rights.{need_of};
ghost use Rattle.wb_keys.specs.Rights.{needed_holder, number_of, rights_named};

use crate::{Kind, Right, Rights};
use deb_text::Text;
use wb_states::Command;

/// What a command needs, where its line has not the right to everything.
#[derive(Debug, Drop)]
pub(crate) enum Need<'a> {
    Everything,
    InNameOf(&'a Text),
    UnderTake(u64),
    OnArch(&'a Text),
}

fn need_of(command: &Command) -> Need<'_>
    ensures { need_named result ≡ need_of command.now }
{
    match command {
        Command::AddArch(_)
        | Command::AddBuilder(_)
        | Command::RemoveArch(_)
        | Command::RemoveBuilder(_)
        | Command::Enter(_)
        | Command::Forget(_)
        | Command::Merge(_) => Need::Everything,
        Command::Next(next) => Need::InNameOf(&next.builder),
        Command::Take(take) => Need::InNameOf(&take.builder),
        Command::Built(held) | Command::Uploaded(held) | Command::PutBack(held) => {
            Need::UnderTake(held.take_number)
        }
        Command::Waits(waits) => Need::UnderTake(waits.take_number),
        Command::Attempted(attempted) => Need::UnderTake(attempted.take_number),
        Command::GiveBack(back) => Need::OnArch(&back.arch),
        Command::DepWait(waits) => Need::OnArch(&waits.arch),
        Command::Fail(aside) | Command::NotForUs(aside) => Need::OnArch(&aside.arch),
        Command::Rebuild(rebuild) => Need::OnArch(&rebuild.arch),
        Command::BuildPriority(priority) => Need::OnArch(&priority.arch),
        Command::Report(report) => Need::OnArch(&report.arch),
    }
}

/// Whether nobody holds a take number, or this builder does.
fn is_own(builder: &Text, holder: Option<&Text>) -> bool
    ensures { result ≡ is_own builder.now (option_copied holder.entry) }
{
    match holder {
        None => true,
        Some(holder) => *holder == *builder,
    }
}

fn meets(right: &Right, need: &Need<'_>, holder: Option<&Text>) -> bool
    ensures { result ≡ meets right.now (option_copied holder.entry) (need_named need.now) }
{
    match (right, need) {
        (Right::Operate, _) => true,
        (Right::Build(builder), Need::InNameOf(name)) => **name == *builder,
        (Right::Build(builder), Need::UnderTake(_)) => is_own(builder, holder),
        (Right::Port(arch), Need::OnArch(name)) => **name == *arch,
        _ => false,
    }
}

fn is_for(kind: Kind, right: &Right) -> bool
    ensures { result ≡ is_for kind right.now }
{
    match right {
        Right::Read => kind == Kind::Query,
        Right::Build(_) => matches!(kind, Kind::Query | Kind::Builder),
        Right::Port(_) => matches!(kind, Kind::Query | Kind::Porter),
        Right::Operate => true,
    }
}

/// The take number that a command reports under, or none if it reports under none: whoever asks
/// `may` has to say who holds it. Takes no memory (this project's own).
pub fn take_number_of(command: &Command) -> Option<u64>
    ensures value { result ≡ number_of command.now }
{
    match need_of(command) {
        Need::UnderTake(take_number) => Some(take_number),
        Need::Everything | Need::InNameOf(_) | Need::OnArch(_) => None,
    }
}

fn has_build(rights: &[Right]) -> bool
    ensures { result ≡ list_any is_build rights.now }
{
    rights.iter().any(|right| matches!(right, Right::Build(_)))
}

fn has_operate(rights: &[Right]) -> bool
    ensures { result ≡ list_any is_operate rights.now }
{
    rights.iter().any(|right| matches!(right, Right::Operate))
}

/// Whether it counts for these rights who holds a take number.
fn asks_holder(rights: &[Right]) -> bool
    ensures { result ≡ asks_holder rights.now }
{
    has_build(rights) && !has_operate(rights)
}

/// The take number whose holder has to be known before `may` can answer whether these rights allow
/// a command, or none if they decide whoever holds one: then `may` answers the same for every
/// holder. It is that of a report, for rights with `build=BUILDER` and without `operate`. Takes no
/// memory (this project's own).
pub fn holder_needed(rights: Rights<'_>, command: &Command) -> Option<u64>
    ensures value { result ≡ holder_needed (rights_named rights.entry) command.now }
{
    match rights {
        Rights::These(rights) if asks_holder(rights) => take_number_of(command),
        Rights::Everything | Rights::These(_) => None,
    }
}

/// Whether these rights have one for requests of this kind, which the path of a request says. If
/// they have none, no body is read. Takes no memory (this project's own).
pub fn may_ask(rights: Rights<'_>, kind: Kind) -> bool
    ensures value { result ≡ may_ask_for (rights_named rights.entry) kind }
{
    match rights {
        Rights::Everything => true,
        Rights::These(rights) => rights.iter().any(|right| is_for(kind, right)),
    }
}

fn is_allowed(rights: Rights<'_>, command: &Command, holder: Option<&Text>) -> bool
    ensures { result
        ≡ allows (rights_named rights.entry) (option_copied holder.entry) command.now }
{
    let Rights::These(rights) = rights else {
        return true;
    };
    let need = need_of(command);
    rights.iter().any(|right| meets(right, &need, holder))
}

/// Whether these rights allow a command, where `holder` holds the take number that the command
/// reports under: none if nobody does, and for a command that reports under none
/// (`take_number_of`). It need not be known where none is needed (`holder_needed`), and is then
/// given as none. Takes no memory (this project's own).
pub fn may(rights: Rights<'_>, command: &Command, holder: Option<&Text>) -> bool
    ensures value { result
        ≡ allows (rights_named rights.entry) (option_copied holder.entry) command.now }
    ensures machine { (machine : Machine)
        → option_copied holder.entry ≡ holder_for machine command.now
        → result ≡ may_command (rights_named rights.entry) machine command.now }
    ensures needed { (machine : Machine)
        → option_copied holder.entry
        ≡ needed_holder (rights_named rights.entry) machine command.now
        → result ≡ may_command (rights_named rights.entry) machine command.now }
{
    is_allowed(rights, command, holder)
}
