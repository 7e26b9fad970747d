//! The files that the lines of a run name: those of `wb_lists`, with what the reading of a report asks of them.
ghost use Rattle.std.specs.Prelude.{OnErr};
ghost use Rattle.std.specs.Io.{ReadsAtMost};
ghost use Rattle.std.specs.Io.KnownBytes.{ReadConsumes};
ghost use Rattle.wb_lists.specs.Lists.{MayReadLess};

use crate::message::Message;
use std::io;
use wb_lists::Lists;

// `report` takes what no answer says: an observer beside the lists would be one more parameter of
// eleven functions.
/// Where the files are that a merge or a report names, and who gets what no answer says (this project's own).
pub trait RunLists: Lists {
    /// Reads on in the opened file of a report, as its `read` does.
    fn read(list: &mut Self::List, room: &mut [u8]) -> io::Result<usize>
        ensures bound { ReadsAtMost result room.new }
        ensures bytes { ReadConsumes (Self.List.remaining list.old) (Self.List.remaining list.new) result room.new }
        ensures err { OnErr result (Self.breaks list.old) }
        ensures kept { Self.breaks list.new → Self.breaks list.old };

    /// Takes a message for a person, which no answer says. It is dropped if an implementation does not
    /// say what becomes of it.
    fn report(&mut self, _message: Message<'_>)
        ensures kept { MayReadLess (Self.may_read self.old) (Self.may_read self.new) }
    {}
}
