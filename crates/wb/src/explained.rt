//! An office that says, for a person, which word of a command or a query was refused, and what it
//! has to be.

use crate::progress::is_watched;
use crate::reasons::{Reason, name_of_query, reason_of, reason_of_merge, reason_of_query};
use deb_text::Text;
use std::io::BufRead;
use wb_archive::{ArchList, MergeFrom};
use wb_states::{Answer, Command, Query, Refusal, Reply};
use wb_step::CarryOut;

/// An office that says on standard error which word was refused, if a person may read that. Its
/// answers are those of the office.
#[derive(Drop)]
pub(crate) struct Explained<'a, O: CarryOut> {
    rt: &'a HostRuntime,
    office: &'a mut O,
    /// Whether a person may read standard error.
    is_watched: bool,
}

impl<'a, O: CarryOut> Explained<'a, O> {
    /// The office with what is said of its refusals.
    pub(crate) fn new(rt: &'a HostRuntime, office: &'a mut O) -> Explained<'a, O> {
        Explained {
            rt,
            office,
            is_watched: is_watched(rt),
        }
    }
}

/// Says why the command or the query of this name is refused.
fn say_reason(rt: &HostRuntime, name: &str, reason: Reason<'_>) {
    let _ = eprintln!(rt; "wb: {name}: {reason}");
}

/// Says why the command is refused so, if that is for the form of a word.
fn explain(rt: &HostRuntime, command: &Command, refusal: &Refusal) {
    if let Some(reason) = reason_of(command, refusal) {
        say_reason(rt, command.name(), reason);
    }
}

/// Says why the query is refused so, if that is for the form of a word.
fn explain_query(rt: &HostRuntime, query: &Query, refusal: &Refusal) {
    if let Some(reason) = reason_of_query(query, refusal) {
        say_reason(rt, name_of_query(query), reason);
    }
}

/// Says why a merge of these lists will be refused, if that is for the name of an architecture.
fn explain_merge<R: Drop>(rt: &HostRuntime, parts: &[ArchList<R>]) {
    if let Some(reason) = reason_of_merge(parts) {
        say_reason(rt, "merge", reason);
    }
}

// It promises what its office promises, of the same states.
impl<'a, O: CarryOut> CarryOut for Explained<'a, O> {
    ghost is_clean = { λ explained. O.CarryOut.is_clean explained.office.now };

    ghost stands_at = { λ explained machine. O.CarryOut.stands_at explained.office.now machine };

    ghost is_closed = { λ explained. O.CarryOut.is_closed explained.office.now };

    ghost leaves = { λ explained before after fault. O.CarryOut.leaves explained.office.now before after fault };

    ghost cannot_go_on = { λ explained. O.CarryOut.cannot_go_on explained.office.now };

    fn accepted_count(&self) -> u64 {
        self.office.accepted_count()
    }

    fn closed(&self) -> bool {
        self.office.closed()
    }

    fn carry_out(&mut self, command: &Command) -> Result<Reply, Refusal> {
        let answer = self.office.carry_out(command);
        if self.is_watched {
            if let Err(refusal) = &answer {
                explain(self.rt, command, refusal);
            }
        }
        answer
    }

    fn ask(&mut self, query: &Query) -> Result<Answer, Refusal> {
        let answer = self.office.ask(query);
        if self.is_watched {
            if let Err(refusal) = &answer {
                explain_query(self.rt, query, refusal);
            }
        }
        answer
    }

    fn holder_of(&mut self, take_number: u64) -> Result<Option<Text>, Refusal> {
        self.office.holder_of(take_number)
    }

    fn asked_by(&mut self, name: Option<&Text>) {
        self.office.asked_by(name);
    }

    ghost consistent = { λ explained machine stands. O.CarryOut.consistent explained.office.now machine stands };
}

impl<'a, O: MergeFrom> MergeFrom for Explained<'a, O> {
    fn merge_from<R: BufRead + Drop>(
        &mut self,
        sources: R,
        parts: Vec<ArchList<R>>,
    ) -> Result<Reply, Refusal> {
        if self.is_watched && !self.office.closed() {
            explain_merge(self.rt, parts.as_slice());
        }
        self.office.merge_from(sources, parts)
    }
}
