//! Laws of the definitions, each on a function that does nothing.
ghost use Rattle.std.specs.Prelude.{ℕ, List, Option, filter, length};
ghost use Rattle.wb_states.specs.Machine.{Machine};
ghost use Rattle.wb_daemon.specs.Answered.{HasLines, is_answered};
ghost use Rattle.wb_step.specs.Offices.{Standing};
ghost use Rattle.wb_daemon.specs.Replays.{IsReplay, IsReplayCut};
ghost use Rattle.wb_api.specs.Responses.{Response};
ghost use Rattle.wb_daemon.specs.Run.{Runs, StopsInLine};

use wb_lists::Lists;

// So each law over lists of commands is stated once, and not again over lines. That an office stays
// consistent is a law of `CarryOut`, without a premise on texts, since each text of a program is
// UTF-8.
/// What a run leaves is what the commands that its lines ask for leave, one after another, also if it
/// was cut off within or before the answer to a line. So what holds of every list of commands holds of
/// every run.
pub fn runs_are_replays<L: Lists>(lists: &L)
    ensures state { (machine : Machine) (lines : List (List ℕ)) (whole : Response)
        → Runs (L.may_read lists.now) machine lines whole
        → IsReplay (L.may_read lists.now) machine lines whole }
    ensures stops { (seen : List ℕ) (left : Option (List ℕ)) (machine : Machine) (text : List ℕ)
        (after : Machine) (standing : Standing)
        → StopsInLine (L.may_read lists.now) seen left machine text after standing
        → IsReplayCut (L.may_read lists.now) seen left machine text after standing }
{}

/// What is said to lines has one line, ended by its line feed, for each that is answered: for each but
/// those of spaces and tabs alone.
pub fn each_line_has_one_answer<L: Lists>(lists: &L)
    ensures { (machine : Machine) (lines : List (List ℕ)) (whole : Response)
        → Runs (L.may_read lists.now) machine lines whole
        → HasLines (length (filter is_answered lines)) whole.text }
{}
