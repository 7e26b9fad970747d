//! Lines on standard error about clients, of which there are not many in a second however many
//! clients there are.

use std::io;
use std::time::Duration;

/// How many lines are printed in a second.
const LINES: u32 = 20;

/// What is said about a client.
#[derive(Clone, Copy)]
pub(crate) enum Remark<'a> {
    /// Its connection was not accepted.
    NotAccepted(&'a io::Error),
    /// Its request did not come to its end.
    NotRead,
    /// Its request came, and was not answered.
    NotAnswered,
    /// An answer of this status was not taken to its end.
    NotWritten(u16),
    /// Its command was accepted, and there was no memory for the answer.
    Mute,
}

/// Lines about clients.
#[derive(Drop)]
pub(crate) struct Remarks<'a> {
    rt: &'a HostRuntime,
    /// When the second ends.
    until: Duration,
    /// How many lines were printed in it.
    printed: u32,
    /// How many were left out since the last was printed.
    left_out: u64,
}

impl<'a> Remarks<'a> {
    pub(crate) fn new(rt: &'a HostRuntime) -> Remarks<'a> {
        Remarks {
            rt,
            until: Duration::ZERO,
            printed: 0,
            left_out: 0,
        }
    }

    /// Prints a line at this time, unless many were printed within a second.
    pub(crate) fn say(&mut self, now: Duration, remark: Remark<'_>) {
        if self.until <= now {
            self.until = now.saturating_add(Duration::from_secs(1));
            self.printed = 0;
        }
        if self.printed >= LINES {
            self.left_out = self.left_out.saturating_add(1);
            return;
        }
        self.printed = self.printed.saturating_add(1);
        self.count_left_out();
        let _ = self.print(remark);
    }

    /// When lines that were left out are to be counted, if any were.
    pub(crate) fn due(&self) -> Option<Duration> {
        if self.left_out > 0 {
            Some(self.until)
        } else {
            None
        }
    }

    /// Says how many lines were left out, if any were.
    pub(crate) fn count_left_out(&mut self) {
        if self.left_out > 0 {
            let _ = eprintln!(self.rt; "wb: {} lines about clients were left out", self.left_out);
        }
        self.left_out = 0;
    }

    /// Prints a line. The error is that it cannot be printed.
    fn print(&self, remark: Remark<'_>) -> io::Result<()> {
        match remark {
            Remark::NotAccepted(error) => {
                eprintln!(self.rt; "wb: a connection was not accepted: {error}")
            }
            Remark::NotRead => {
                eprintln!(self.rt;
                    "wb: a request was not read to its end, and nothing was done for it"
                )
            }
            Remark::NotAnswered => {
                eprintln!(self.rt;
                    "wb: a request was read and not answered, and nothing was done for it"
                )
            }
            Remark::NotWritten(code) => {
                eprintln!(self.rt; "wb: an answer of status {code} was not written to its end")
            }
            Remark::Mute => {
                eprintln!(self.rt;
                    "wb: a command was accepted, and not answered for want of memory"
                )
            }
        }
    }
}
