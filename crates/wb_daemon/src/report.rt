//! A report, whose file is read whole.
ghost use Rattle.std.specs.Prelude.{IfNone, IfOk, IfSome};
ghost use Rattle.wb_lists.specs.Lists.{MayReadLess};
ghost use Rattle.wb_daemon.specs.Reports.{LacksList, LacksReport, MayReadList, MayReadReport, ReadsList};

use crate::lists::RunLists;
use crate::message::Message;
use deb_text::Text;
use std::alloc::{AllocError, Global};
use std::io;
use wb_states::command::{self, Command};

/// The greatest length of a report.
const LIST_LIMIT: usize = 2147483648;

/// What a read of a report gave.
#[derive(Drop)]
enum ListRead {
    /// All its bytes.
    Whole(Vec<u8>),
    /// There are more bytes than a report may have.
    TooLong,
    /// A read failed, or was interrupted.
    Failed(io::Error),
}

/// All bytes that the file has left, or why there are none. The error is that there is no memory for them.
fn read_list<L: RunLists>(alloc: Global, list: &mut L::List) -> Result<ListRead, AllocError>
    ensures value { IfOk result (ReadsList (L.breaks list.old) (L.List.remaining list.old)) }
{
    let mut room = [0u8; 8192];
    let mut bytes: Vec<u8> = Vec::new(alloc);
    while bytes.len() <= LIST_LIMIT {
        match L::read(list, &mut room) {
            Ok(0) => return Ok(ListRead::Whole(bytes)),
            Ok(count) => bytes.extend_from_slice(&room[..count])?,
            Err(error) => return Ok(ListRead::Failed(error)),
        }
    }
    Ok(ListRead::TooLong)
}

/// The bytes of the file of this name; none if it cannot be opened or read, or is too long.
fn report_bytes<L: RunLists>(
    alloc: Global,
    lists: &mut L,
    name: &Text,
) -> Result<Option<Vec<u8>>, AllocError>
    ensures value { IfOk result (λ found. IfSome found (λ bytes.
        MayReadList (L.may_read lists.old) name.now bytes.items)) }
    ensures refused { IfOk result (λ found. IfNone found (LacksList (L.may_read lists.old) name.now)) }
    ensures kept { MayReadLess (L.may_read lists.old) (L.may_read lists.new) }
{
    let Some(mut list) = lists.open(alloc, name.as_str())? else {
        return Ok(None);
    };
    match read_list::<L>(alloc, &mut list)? {
        ListRead::Whole(bytes) => return Ok(Some(bytes)),
        ListRead::TooLong => lists.report(Message::ListTooLong {
            name: name.as_str(),
        }),
        ListRead::Failed(error) => lists.report(Message::ListFailed {
            name: name.as_str(),
            error: &error,
        }),
    }
    Ok(None)
}

/// The report of an architecture that the file of this name has; none if that cannot be opened or read, is too
/// long, or is not UTF-8. The error is that there is no memory for it.
pub(crate) fn report_of<L: RunLists>(
    alloc: Global,
    lists: &mut L,
    arch: &Text,
    file: &Text,
) -> Result<Option<Command>, AllocError>
    ensures value { IfOk result (λ found. IfSome found (λ command.
        MayReadReport (L.may_read lists.old) arch.now file.now command)) }
    ensures refused { IfOk result (λ found. IfNone found (LacksReport (L.may_read lists.old) file.now)) }
    ensures kept { MayReadLess (L.may_read lists.old) (L.may_read lists.new) }
{
    let Some(bytes) = report_bytes(alloc, lists, file)? else {
        return Ok(None);
    };
    let Ok(text) = String::from_utf8(bytes) else {
        lists.report(Message::ListNotText {
            name: file.as_str(),
        });
        return Ok(None);
    };
    Ok(Some(Command::Report(command::Report {
        arch: arch.clone()?,
        text: Text::from(text),
    })))
}
