//! The sockets of the clients that are served at once. None of them gives a client an answer.
ghost use Rattle.std.specs.Prelude.{◌≡◌};
ghost use Rattle.wb_serve.specs.Connections.{opened};
ghost use Rattle.wb_serve.specs.Places.{AreNotGiven, IsNotGiven, given_in};

use crate::client::{Client, LIMIT_SECONDS, Next, Shared, Wanted};
use crate::clients::{PLACES, Turn};
use crate::remarks::{Remark, Remarks};
use mio::event::Event;
use mio::net::{TcpListener, TcpStream};
use mio::unix::SourceFd;
use mio::{Events, Interest, Poll, Token};
use std::alloc::Global;
use std::io::{self, ErrorKind};
use std::os::fd::AsRawFd;
use std::time::{Duration, Instant};
use wb_api::{Routes, Service};

/// How many bytes the requests that are not small have together at most.
const ROOM: usize = 67_108_864;

/// How many bytes the answers that are being written have together at most before another one is
/// made.
const ANSWERS: usize = 67_108_864;

/// How many bytes one read takes.
const BUFFER: usize = 65_536;

/// How many milliseconds pass after a connection was not accepted until the next is.
const PAUSE_MILLIS: u64 = 50;

/// How many seconds a head has if all places are taken.
const HEAD_SECONDS: u64 = 1;

/// How many seconds a client that is past its head may send and take nothing, if all places are
/// taken, or memory that it holds is wanted. Some clients wait a second after their head, and a
/// socket may take nothing for longer than that though its client reads on.
const IDLE_SECONDS: u64 = 5;

/// From how many seconds on an exchange is long.
const LONG_EXCHANGE_SECONDS: u64 = 1;

/// How many connections in a row may fail to be accepted until the serving ends: the system then
/// gives none, as when all its files are open, and would be asked again and again.
const FAILURES: u32 = 100;

/// The sockets of the clients that are served at once, and the port at which more come.
#[derive(Drop)]
pub(crate) struct Sockets<'a> {
    rt: &'a HostRuntime,
    poll: Poll,
    events: Events<Global>,
    listener: &'a TcpListener,
    pub(crate) places: Vec<Option<Client>>,
    /// How many places are taken.
    count: usize,
    shared: Shared<'a>,
    remarks: Remarks<'a>,
    start: Instant,
    /// How much of the time since then was taken by long exchanges, which clients do not answer
    /// for.
    held_up: Duration,
    /// How many connections are still to be accepted.
    left: u64,
    /// Whether one may wait to be accepted.
    waiting: bool,
    /// When connections are accepted again.
    accepts_from: Duration,
    /// Whether the last connection was not accepted, as when all files of the program are open.
    is_refused: bool,
    /// How many in a row were not accepted while no client was there.
    failures: u32,
    /// Whether a client can step without an event.
    busy: bool,
    /// Whether the last wait was not ended by a signal, so that each socket that is ready was seen.
    is_sure: bool,
    /// The place from which on the next free one is sought.
    from: usize,
}

impl<'a> Sockets<'a> {
    /// No client yet, and so many to be accepted.
    pub(crate) fn new(
        rt: &'a HostRuntime,
        routes: &'a Routes,
        listener: &'a TcpListener,
        left: u64,
    ) -> io::Result<Sockets<'a>> {
        let poll = Poll::new(rt)?;
        let fd = listener.as_raw_fd();
        poll.registry()
            .register(&mut SourceFd(&fd), Token(PLACES), Interest::READABLE)?;
        let mut places = Vec::with_capacity(rt.alloc(), PLACES)?;
        for _ in 0..PLACES {
            places.push(None)?;
        }
        Ok(Sockets {
            rt,
            poll,
            events: Events::with_capacity(rt.alloc(), PLACES + 1)?,
            listener,
            places,
            count: 0,
            shared: Shared {
                alloc: rt.alloc(),
                routes,
                buffer: vec![in rt.alloc(); 0u8; BUFFER]?,
                room: ROOM,
                is_short: false,
                answers: 0,
                now: Duration::ZERO,
            },
            remarks: Remarks::new(rt),
            start: Instant::now(rt)?,
            held_up: Duration::ZERO,
            left,
            waiting: true,
            accepts_from: Duration::ZERO,
            is_refused: false,
            failures: 0,
            busy: false,
            is_sure: false,
            from: 0,
        })
    }

    /// Waits until a client or a connection is ready, accepts connections, and has all clients
    /// step.
    pub(crate) fn turn(&mut self, service: &Service) -> Turn
        ensures given { AreNotGiven self.old.places.items self.new.places.items }
    {
        if self.left == 0 && self.count == 0 {
            return Turn::Done;
        }
        if let Err(error) = self.wait() {
            let _ = eprintln!(self.rt; "wb: stopped: no client can be waited for: {error}");
            return Turn::Stopped;
        }
        self.accept();
        if self.failures == FAILURES {
            let _ = eprintln!(self.rt;
                "wb: stopped: {FAILURES} connections in a row were not accepted"
            );
            return Turn::Stopped;
        }
        self.step_all(service);
        if self.is_sure {
            self.let_go();
        }
        Turn::Go
    }

    /// Closes connections whose place or whose memory is wanted, one of each kind, if they have
    /// been idle.
    fn let_go(&mut self)
        ensures given { AreNotGiven self.old.places.items self.new.places.items }
    {
        if self.is_crowded() {
            let place = self.crowding_place();
            self.end(place);
        }
        if self.shared.is_short {
            let place = self.idle_place(Wanted::Room);
            self.end(place);
        }
        if self.is_full() {
            let place = self.idle_place(Wanted::Answer);
            self.end(place);
        }
    }

    /// Closes the connection of the client at this place, if there is one.
    fn end(&mut self, index: usize)
        ensures given { AreNotGiven self.old.places.items self.new.places.items }
    {
        let Some(Some(client)) = self.places.get(index) else {
            return;
        };
        let next = client.overdue();
        self.settle(index, next);
        self.busy = true;
    }

    /// Accepts no more connections, closes those without an answer, and waits until the others have
    /// theirs.
    pub(crate) fn finish(&mut self, service: &Service)
        ensures given { AreNotGiven self.old.places.items self.new.places.items }
    {
        self.left = 0;
        self.failures = 0;
        for index in 0..PLACES {
            if let Some(Some(client)) = self.places.get(index) {
                if !client.is_answered() {
                    self.end(index);
                }
            }
        }
        for _ in 0..u64::MAX {
            if self.turn(service) != Turn::Go {
                break;
            }
        }
        self.remarks.count_left_out();
    }

    /// Has the client at this place, which has just got its answer of this status and length, step.
    pub(crate) fn send(&mut self, service: &Service, index: usize, code: u16, length: usize)
        ensures given { AreNotGiven self.old.places.items self.new.places.items }
    {
        self.release(index);
        self.note(index, code, length);
        self.look_at_clock();
        let next = self.step(service, index);
        self.settle(index, next);
    }

    /// Notes of the client at this place that it has an answer of this status and length.
    fn note(&mut self, index: usize, code: u16, length: usize)
        ensures given { AreNotGiven self.old.places.items self.new.places.items }
    {
        if let Some(place) = self.places.get_mut(index) {
            note(place, &mut self.shared, code, length);
        }
    }

    /// Takes over the time after an exchange, if the clock can be read. What a long one has taken
    /// is not counted: a client has its seconds for what it sends and takes, and a merge in which
    /// it waits is no fault of its.
    fn look_at_clock(&mut self)
        ensures places { self.new.places.items ≡ self.old.places.items }
    {
        let Ok(passed) = self.start.elapsed(self.rt) else {
            return;
        };
        let now = passed.saturating_sub(self.held_up);
        let taken = now.saturating_sub(self.shared.now);
        if taken < Duration::from_secs(LONG_EXCHANGE_SECONDS) {
            self.shared.now = now;
        } else {
            self.held_up = self.held_up.saturating_add(taken);
        }
    }

    /// Whether so many bytes of answers are being written that no further one is to be made.
    pub(crate) fn is_full(&self) -> bool {
        self.shared.answers >= ANSWERS
    }

    /// Says something about a client.
    pub(crate) fn remark(&mut self, remark: Remark<'_>)
        ensures places { self.new.places.items ≡ self.old.places.items }
    {
        self.remarks.say(self.shared.now, remark);
    }

    /// Whether a connection may wait for a place.
    fn is_crowded(&self) -> bool {
        self.waiting && 0 < self.left && (self.count >= PLACES || self.is_refused)
    }

    fn can_accept(&self) -> bool {
        self.waiting && 0 < self.left && self.count < PLACES
    }

    // A larger number of places would only put off the same question.
    /// The place of the client whose head has been coming the longest, if that is a while, or else
    /// of one that says nothing, or no place.
    fn crowding_place(&self) -> usize {
        let oldest = self.oldest_head();
        if oldest < PLACES {
            oldest
        } else {
            self.idle_place(Wanted::Place)
        }
    }

    /// The place of the first client that holds what is wanted, and has sent and taken nothing for
    /// long, or no place.
    fn idle_place(&self, wanted: Wanted) -> usize {
        let time = self
            .shared
            .now
            .saturating_sub(Duration::from_secs(IDLE_SECONDS));
        let idle = self.places.iter().position(|place| match place {
            Some(client) => client.is_idle_since(wanted, time),
            None => false,
        });
        idle.unwrap_or(PLACES)
    }

    /// The place of the client whose head has been coming the longest, if that is a while, or no
    /// place.
    fn oldest_head(&self) -> usize {
        let mut oldest = PLACES;
        let mut until = self.shared.now.saturating_add(Duration::from_secs(
            LIMIT_SECONDS.saturating_sub(HEAD_SECONDS),
        ));
        for index in 0..PLACES {
            if let Some(Some(client)) = self.places.get(index) {
                if client.is_in_head() && client.deadline() < until {
                    until = client.deadline();
                    oldest = index;
                }
            }
        }
        oldest
    }

    /// How long nothing is to be done unless something comes.
    fn pause(&self) -> Duration {
        if self.busy {
            return Duration::ZERO;
        }
        let mut until = Duration::MAX;
        if self.can_accept() {
            until = self.accepts_from;
        }
        if self.is_crowded() || self.shared.is_short || self.is_full() {
            until = self
                .shared
                .now
                .saturating_add(Duration::from_millis(PAUSE_MILLIS));
        }
        if let Some(due) = self.remarks.due() {
            until = until.min(due);
        }
        for place in self.places.iter() {
            if let Some(client) = place {
                until = until.min(client.deadline());
            }
        }
        until.saturating_sub(self.shared.now)
    }

    /// Waits until something comes or a time is over, and notes what may be ready.
    fn wait(&mut self) -> io::Result<()>
        ensures given { AreNotGiven self.old.places.items self.new.places.items }
    {
        let pause = self.pause();
        let begun = self.start.elapsed(self.rt)?;
        self.poll.poll(&mut self.events, Some(pause))?;
        let ended = self.start.elapsed(self.rt)?;
        self.shared.now = ended.saturating_sub(self.held_up);
        self.is_sure = !self.events.is_empty() || pause <= ended.saturating_sub(begun);
        if let Some(due) = self.remarks.due() {
            if due <= self.shared.now {
                self.remarks.count_left_out();
            }
        }
        if wake_all(&mut self.places, &self.events) {
            self.waiting = true;
        }
        Ok(())
    }

    /// Accepts the connections that wait, as long as there is a place.
    fn accept(&mut self)
        ensures given { AreNotGiven self.old.places.items self.new.places.items }
    {
        for _ in 0..PLACES {
            if !self.can_accept() || self.shared.now < self.accepts_from {
                return;
            }
            match self.accept_one() {
                Ok(()) => {
                    self.left = self.left.saturating_sub(1);
                    self.is_refused = false;
                    self.failures = 0;
                }
                Err(error) if error.kind() == ErrorKind::WouldBlock => self.waiting = false,
                Err(error) => {
                    self.note_failure(&error);
                    return;
                }
            }
        }
    }

    /// Notes that a connection was not accepted. The next is accepted a little later: there may be
    /// a file for it once a client has gone. Without any client it counts as one.
    fn note_failure(&mut self, error: &io::Error)
        ensures places { self.new.places.items ≡ self.old.places.items }
    {
        self.is_refused = true;
        if self.count == 0 {
            self.left = self.left.saturating_sub(1);
            self.failures = self.failures.saturating_add(1);
        }
        self.accepts_from = self
            .shared
            .now
            .saturating_add(Duration::from_millis(PAUSE_MILLIS));
        self.remark(Remark::NotAccepted(error));
    }

    /// Accepts one connection, for which there is a place.
    fn accept_one(&mut self) -> io::Result<()>
        ensures given { AreNotGiven self.old.places.items self.new.places.items }
    {
        let (mut stream, _) = self.listener.accept()?;
        let index = self.free_place();
        let both = Interest::READABLE | Interest::WRITABLE;
        self.poll
            .registry()
            .register(&mut stream, Token(index), both)?;
        if self.fill(index, stream) {
            self.count = self.count.saturating_add(1);
        }
        self.from = index.saturating_add(1);
        Ok(())
    }

    /// Lets a client that has just connected have this place, if there is one.
    fn fill(&mut self, index: usize, stream: TcpStream) -> bool
        ensures given { AreNotGiven self.old.places.items self.new.places.items }
    {
        let client = Client::new(self.shared.alloc, stream, self.shared.now);
        match self.places.get_mut(index) {
            Some(place) => fill(place, client),
            None => false,
        }
    }

    /// A free place: the first after that of the client that came last, so that who comes later is
    /// not answered before all others.
    fn free_place(&self) -> usize {
        for index in self.from..PLACES {
            if let Some(None) = self.places.get(index) {
                return index;
            }
        }
        let first = self.places.iter().position(|place| place.is_none());
        first.unwrap_or(PLACES)
    }

    fn step_all(&mut self, service: &Service)
        ensures given { AreNotGiven self.old.places.items self.new.places.items }
    {
        self.busy = false;
        self.shared.is_short = false;
        for index in 0..PLACES {
            let next = self.step(service, index);
            self.settle(index, next);
        }
    }

    /// The steps of the client at this place.
    fn step(&mut self, service: &Service, index: usize) -> Next
        ensures given { AreNotGiven self.old.places.items self.new.places.items }
    {
        match self.places.get_mut(index) {
            Some(place) => steps(place, service, &mut self.shared),
            None => Next::Wait,
        }
    }

    /// Does with the client at this place what is to be done.
    fn settle(&mut self, index: usize, next: Next)
        ensures given { AreNotGiven self.old.places.items self.new.places.items }
    {
        match next {
            Next::Again => self.busy = true,
            Next::Wait => {}
            Next::Close => {
                let _ = self.remove(index);
            }
            Next::ReadFailed => {
                let _ = self.remove(index);
                self.remark(Remark::NotRead);
            }
            Next::Unanswered => {
                let _ = self.remove(index);
                self.remark(Remark::NotAnswered);
            }
            Next::WriteFailed => {
                let code = self.remove(index);
                self.remark(Remark::NotWritten(code));
            }
        }
    }

    /// Frees this place, and gives the client that had it.
    fn vacate(&mut self, index: usize) -> Option<Client>
        ensures given { AreNotGiven self.old.places.items self.new.places.items }
    {
        match self.places.get_mut(index) {
            Some(place) => vacate(place),
            None => None,
        }
    }

    /// Closes the connection of the client at this place. Gives the status of its answer, or 0 if
    /// it had none.
    fn remove(&mut self, index: usize) -> u16
        ensures given { AreNotGiven self.old.places.items self.new.places.items }
    {
        let Some(mut client) = self.vacate(index) else {
            return 0;
        };
        if client.release(&mut self.shared) {
            self.busy = true;
        }
        client.end_answer(&mut self.shared);
        self.count = self.count.saturating_sub(1);
        client.code()
    }

    /// Gives back what the client at this place holds of the room for requests.
    fn release(&mut self, index: usize)
        ensures given { AreNotGiven self.old.places.items self.new.places.items }
    {
        if self.release_room(index) {
            self.busy = true;
        }
    }

    /// Gives it back, and says whether that is anything.
    fn release_room(&mut self, index: usize) -> bool
        ensures given { AreNotGiven self.old.places.items self.new.places.items }
    {
        match self.places.get_mut(index) {
            Some(place) => release(place, &mut self.shared),
            None => false,
        }
    }
}

/// Lets a client that has just connected have a place.
fn fill(place: &mut Option<Client>, client: Client) -> bool
    requires opened { client.connection ≡ opened }
    ensures given { IsNotGiven (given_in place.old) (given_in place.new) }
{
    *place = Some(client);
    true
}

/// Frees a place, and gives the client that had it.
fn vacate(place: &mut Option<Client>) -> Option<Client>
    ensures given { IsNotGiven (given_in place.old) (given_in place.new) }
{
    place.take()
}

/// Says of each socket that it may be ready, if an event says so. Says whether the port may be.
fn wake_all(places: &mut Vec<Option<Client>>, events: &Events<Global>) -> bool
    ensures given { AreNotGiven places.old.items places.new.items }
{
    let mut waiting = false;
    for event in events.iter() {
        if !wake_one(places, event) {
            waiting = true;
        }
    }
    waiting
}

/// Says of the socket of this event that it may be ready, if it is a client's. Says whether it is.
fn wake_one(places: &mut Vec<Option<Client>>, event: &Event) -> bool
    ensures given { AreNotGiven places.old.items places.new.items }
{
    match places.get_mut(event.token().0) {
        Some(place) => wake(place, event),
        None => false,
    }
}

/// Says that the socket of the client at a place may be ready, as this event says.
fn wake(place: &mut Option<Client>, event: &Event) -> bool
    ensures given { IsNotGiven (given_in place.old) (given_in place.new) }
{
    if let Some(client) = place {
        client.wake(
            event.is_readable() || event.is_error() || event.is_read_closed(),
            event.is_writable() || event.is_error() || event.is_write_closed(),
        );
    }
    true
}

/// Notes the status of the answer of the client at a place, and how many bytes it has.
fn note(place: &mut Option<Client>, shared: &mut Shared<'_>, code: u16, length: usize)
    ensures given { IsNotGiven (given_in place.old) (given_in place.new) }
{
    if let Some(client) = place {
        client.note(shared, code, length);
    }
}

/// The steps of the client at a place.
fn steps(place: &mut Option<Client>, service: &Service, shared: &mut Shared<'_>) -> Next
    ensures given { IsNotGiven (given_in place.old) (given_in place.new) }
{
    match place {
        Some(client) => client.steps(service, shared),
        None => Next::Wait,
    }
}

/// Gives back what the client at a place holds of the room for requests, and says whether that is
/// anything.
fn release(place: &mut Option<Client>, shared: &mut Shared<'_>) -> bool
    ensures given { IsNotGiven (given_in place.old) (given_in place.new) }
{
    match place {
        Some(client) => client.release(shared),
        None => false,
    }
}
