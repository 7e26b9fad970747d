//! An office that tells what merges and reports change.
ghost use Rattle.std.specs.Prelude.{◌≡◌, List};
ghost use Rattle.wb_merge.specs.declared.changes.ArchChanges.{ArchChanges as Changes};

use wb_merge::ArchChanges;
use wb_step::CarryOut;

// A trait beside `CarryOut`, so that what an office promises of commands says nothing of it: only
// its journal asks.
/// An office that tells what the merges and the reports change that it accepts (this project's
/// own).
pub trait TellChanges: CarryOut {
    // What the last command changed, architecture by architecture: nothing if that is not known.
    ghost told: { Self → List Changes };

    /// What the last command changed, if it was a merge or a report that was accepted: for each
    /// architecture whose part was merged, what became of each record that was changed. Nothing
    /// after any other command, if changes are not noted, and if there was no memory for them.
    /// Takes no memory (this project's own).
    fn changes(&self) -> &[ArchChanges]
        ensures value { result.now ≡ told self.now };
}
