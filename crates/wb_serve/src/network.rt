//! The clients behind the sockets of a port.
ghost use Rattle.std.specs.Prelude.{◌≡◌, ℕ, List, [], ◌∷◌, ◌++◌, None, Some, slice_get};
ghost use Rattle.wb_serve.specs.Places.{asked_by, asked_in, given_by, given_in};

use crate::client::Client;
use crate::clients::{Clients, Turn};
use crate::history::History;
use crate::remarks::Remark;
use crate::sockets::Sockets;
use mio::net::TcpListener;
use std::io;
use wb_api::{Routes, Served, Service};

/// The clients behind the sockets of a port, and the answers that they were given.
/// Source: this project's own.
#[derive(Drop)]
pub struct Network<'a> {
    sockets: Sockets<'a>,
    history: History,
    /// How the last exchange ended, and how many bytes its answer has.
    served: Served,
    length: usize,
}

impl<'a> Network<'a> {
    /// The clients that connect to a port from now on: so many, or without a number all. The errors
    /// are those of the system, and that there is no memory for their places.
    /// Source: this project's own.
    pub fn new(
        rt: &'a HostRuntime,
        routes: &'a Routes,
        listener: &'a TcpListener,
        count: Option<u32>,
    ) -> io::Result<Network<'a>> {
        let limit = match count {
            Some(count) => u64::from(count),
            None => u64::MAX,
        };
        Ok(Network {
            sockets: Sockets::new(rt, routes, listener, limit)?,
            history: History::new(),
            served: Served::Nothing,
            length: 0,
        })
    }
}

impl<'a> Clients for Network<'a> {
    ghost answered = { λ n. n.history };

    ghost asked = { λ n place. asked_by (slice_get n.sockets.places.items place) };

    ghost given = { λ n place. given_by (slice_get n.sockets.places.items place) };

    fn turn(&mut self, service: &Service) -> Turn {
        self.sockets.turn(service)
    }

    fn has_room(&self) -> bool {
        !self.sockets.is_full()
    }

    fn request(&self, place: usize) -> Option<&[u8]> {
        match self.sockets.places.get(place) {
            Some(Some(client)) => client.request(),
            _ => None,
        }
    }

    fn answer(&mut self, place: usize, served: Served, answer: Vec<u8>) {
        self.served = served;
        self.length = answer.len();
        let Some(taken) = self.sockets.places.get_mut(place) else {
            return;
        };
        if let Some(history) = give(taken, &self.history, answer) {
            self.history = history;
        }
    }

    fn send(&mut self, service: &Service, place: usize) {
        if let Some(remark) = remark_of(self.served) {
            self.sockets.remark(remark);
        }
        self.sockets
            .send(service, place, code_of(self.served), self.length);
    }

    fn finish(&mut self, service: &Service) {
        self.sockets.finish(service);
    }
}

/// Gives the client at a place its answer, if it waits for one. Gives the answers that were given
/// so far and then this one, or none if it does not wait.
fn give(place: &mut Option<Client>, history: &History, answer: Vec<u8>) -> Option<History>
    ensures given { (request : List ℕ) → asked_in place.old ≡ Some request
        → result ≡ Some (history.now ++ record { request = request; answer = answer.items } ∷ []) }
    ensures put { (request : List ℕ) → asked_in place.old ≡ Some request
        → given_in place.new ≡ Some answer.items }
    ensures over { asked_in place.new ≡ None }
{
    let Some(client) = place else {
        return None;
    };
    if !client.waits() {
        return None;
    }
    Some(client.answer(history, answer))
}

/// What is said of an exchange whose answer is missing or cut for want of memory.
fn remark_of(served: Served) -> Option<Remark<'static>> {
    match served {
        Served::Mute => Some(Remark::Mute),
        Served::WriteFailed { status } => Some(Remark::NotWritten(status.as_u16())),
        Served::Nothing | Served::ReadFailed | Served::Answered { .. } => None,
    }
}

/// The code of an answer's status, or 0 if an exchange ended without an answer.
fn code_of(served: Served) -> u16 {
    match served {
        Served::Answered { status } | Served::WriteFailed { status } => status.as_u16(),
        Served::Nothing | Served::ReadFailed | Served::Mute => 0,
    }
}
