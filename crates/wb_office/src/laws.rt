//! Laws of the definitions, each on a function that does nothing.
ghost use Rattle.std.specs.Prelude.{◌≡◌, [], List};
ghost use Rattle.std.specs.List.{AllByRecursion};
ghost use Rattle.wb_states.specs.declared.command.Command.{Command as Asked};
ghost use Rattle.wb_states.specs.Machine.{Machine};
ghost use Rattle.wb_office.specs.declared.history.Found.{Found};
ghost use Rattle.wb_office.specs.Fencing.{AreFenced};
ghost use Rattle.wb_office.specs.Files.{HasFailedWith};
ghost use Rattle.wb_office.specs.History.{Course, Finds};
ghost use Rattle.wb_office.specs.Lives.{IsSure, LeavesStanding, Outcome};

use sqlite_disk::Disk;

/// What lives of an office find, as [`lives`](crate::lives) says, is fenced: each opening finds
/// exactly the rows of a consistent office, which counts as many accepted commands as that at which
/// the lives began and one for each command that stands, each accepted in its turn. In it a source
/// package on an architecture has at most one holder, and no two records have one take number. It
/// is the state after the commands that stand, from the state at which the lives began on; and the
/// take numbers of what these commands handed out rise strictly, from above the last one that was
/// given before, so that none was given twice. If one source package was handed out twice on an
/// architecture, a command between the two was accepted and ended the first hold. Source: this
/// project's own.
pub fn takes_rise_over_lives<D: Disk>()
    ensures fenced { (one other : Machine) (lives : List (List Asked)) (found : List Found) (first second : Course)
        → Finds (HasFailedWith D.Disk) (one, []) (other, []) lives found first second → AreFenced one other found }
{}

/// While the store failed at no command of a life, one list of commands alone stands after it:
/// those that were acknowledged. So files that such a life leaves hold one state. Source: this
/// project's own.
pub fn one_list_stands_without_doubt<D: Disk>()
    ensures same { (machine before after : Machine) (commands : List Asked) (outcomes : List Outcome) (one other : List Asked)
        → AllByRecursion IsSure outcomes
        → LeavesStanding (HasFailedWith D.Disk before after) machine commands outcomes one
        → LeavesStanding (HasFailedWith D.Disk before after) machine commands outcomes other → one ≡ other }
{}
