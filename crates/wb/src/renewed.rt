//! The clients of a service that ends when the file of its keys was changed.

use crate::keys::KeyFile;
use wb_api::{Served, Service};
use wb_serve::{Clients, PLACES, Turn};

/// The clients of a service, which are told of when what they may ask for is to be looked up anew:
/// before the next answer is made once the file of keys was changed.
#[derive(Drop)]
pub(crate) struct WithKeys<'a, 'k, C: Clients> {
    clients: &'a mut C,
    keys: &'a KeyFile<'k>,
    /// Whether they were told of after a turn, so that those that wait for an answer get it in the
    /// next, without a wait.
    is_told: bool,
}

impl<'a, 'k, C: Clients> WithKeys<'a, 'k, C> {
    /// These clients, whose keys stand in this file.
    pub(crate) fn new(clients: &'a mut C, keys: &'a KeyFile<'k>, is_told: bool) -> Self {
        WithKeys {
            clients,
            keys,
            is_told,
        }
    }

    /// Whether a client waits for an answer.
    fn is_waited_for(&self) -> bool {
        (0..PLACES).any(|place| self.clients.request(place).is_some())
    }
}

impl<'a, 'k, C: Clients> Clients for WithKeys<'a, 'k, C> {
    ghost answered = { λ it. C.answered it.clients.now };

    ghost asked = { λ it place. C.asked it.clients.now place };

    ghost given = { λ it place. C.given it.clients.now place };

    fn turn(&mut self, service: &Service) -> Turn {
        if self.is_told {
            self.is_told = false;
            return Turn::Go;
        }
        let turn = self.clients.turn(service);
        if turn == Turn::Go && self.is_waited_for() && self.keys.is_changed() {
            self.is_told = true;
            return Turn::Renewed;
        }
        turn
    }

    fn has_room(&self) -> bool {
        self.clients.has_room()
    }

    fn request(&self, place: usize) -> Option<&[u8]> {
        self.clients.request(place)
    }

    fn answer(&mut self, place: usize, served: Served, answer: Vec<u8>) {
        self.clients.answer(place, served, answer);
    }

    fn send(&mut self, service: &Service, place: usize) {
        self.clients.send(service, place);
    }

    fn finish(&mut self, service: &Service) {
        self.clients.finish(service);
    }
}
