//! The service of an office: its clients are answered one after another, each once its request has
//! come.
ghost use Rattle.std.specs.Prelude.{◌≡◌, ◌≢◌, ℕ, List, [], ◌∷◌, ◌++◌, None, Option, Some};
ghost use Rattle.std.specs.Prelude.{option_map};
ghost use Rattle.wb_serve.specs.Exchanges.{Answered, AnswersAll, AnswersOne, IsService, ServesAll};
ghost use Rattle.wb_serve.specs.Places.{IsNotGiven};

use std::alloc::Global;
use wb_api::{Routes, Served, Service, answer_with_lists};
use wb_archive::MergeFrom;
use wb_lists::Lists;

/// How many clients have a connection at once.
pub const PLACES: usize = 256;

/// What clients may do next.
/// Source: this project's own.
#[derive(Clone, Copy, Debug, PartialEq, Eq)]
pub enum Turn {
    /// Some may wait for an answer.
    Go,
    /// What is served is to be looked up anew, as when keys were changed. Those that wait for an
    /// answer still do.
    Renewed,
    /// All that were to be served have been, and have gone.
    Done,
    /// No more can be heard or let in.
    Stopped,
}

/// How a service ended.
/// Source: this project's own.
#[derive(Clone, Copy, Debug, PartialEq, Eq)]
pub enum ServiceEnd {
    /// What is served is to be looked up anew. The clients wait for the next service.
    Renewed,
    /// All clients that were to be served have been.
    Done,
    /// Clients could no longer be heard or let in.
    Stopped,
    /// The office is closed.
    Closed,
}

// No contract speaks of a socket, so the loop has clients by a trait, whose ghost keeps each answer
// with what had come of its request. That bytes come from the client at whose place they are kept,
// that they go out to it, and that each is ever served, no contract of the kit says: tests do.
// `Network` keeps the list in a `History`, which its sockets cannot reach.
/// The clients of an office, each at a place below [`PLACES`] while it has a connection. An answer
/// lies at the place of the client that it is given to, and at no other, until the client goes.
/// Source: this project's own.
pub trait Clients {
    // The answers that were given, each with what had come of its request, in their order.
    ghost answered: { Self → List Answered };

    // What has come of the request of the client at a place, if it waits for its answer.
    ghost asked: { Self → ℕ → Option (List ℕ) };

    // The answer that the client at a place has, from when it is given until it is written whole.
    ghost given: { Self → ℕ → Option (List ℕ) };

    /// Waits until clients of this service can go on, reads what they sent, writes what they take,
    /// and lets new ones in.
    fn turn(&mut self, service: &Service) -> Turn
        ensures answered { answered self.new ≡ answered self.old }
        ensures given { (place : ℕ) → IsNotGiven (given self.old place) (given self.new place) };

    /// Whether another answer is to be made: those that are being written leave memory for it.
    fn has_room(&self) -> bool;

    /// What has come of the request of the client at this place, if it waits for its answer.
    fn request(&self, place: usize) -> Option<&[u8]>
        ensures value { option_map (λ bytes. bytes.now) result ≡ asked self.now place };

    /// Gives the client at this place, which waits for its answer, an exchange's answer and how the
    /// exchange ended. The others keep what they have.
    fn answer(&mut self, place: usize, served: Served, answer: Vec<u8>)
        ensures answered { (request : List ℕ) → asked self.old place ≡ Some request
            → answered self.new ≡ answered self.old
            ++ record { request = request; answer = answer.items } ∷ [] }
        ensures given { (request : List ℕ) → asked self.old place ≡ Some request
            → given self.new place ≡ Some answer.items }
        ensures over { asked self.new place ≡ None }
        ensures others { (other : ℕ) → other ≢ place
            → (asked self.new other ≡ asked self.old other)
            × (given self.new other ≡ given self.old other) };

    /// Writes what the client of this service at this place takes of its answer at once.
    fn send(&mut self, service: &Service, place: usize)
        ensures answered { answered self.new ≡ answered self.old }
        ensures given { (other : ℕ) → IsNotGiven (given self.old other) (given self.new other) };

    /// Lets no more clients of this service in, and waits until those that have an answer have
    /// taken it, or had their time for it.
    fn finish(&mut self, service: &Service)
        ensures answered { answered self.new ≡ answered self.old }
        ensures given { (place : ℕ) → IsNotGiven (given self.old place) (given self.new place) };
}

/// Has the office answer the client at this place, if it waits for an answer.
fn answer_place<O: MergeFrom, L: Lists, C: Clients>(
    alloc: Global,
    routes: &Routes,
    service: &Service,
    office: &mut O,
    lists: &mut L,
    clients: &mut C,
    place: usize,
)
    ensures value { AnswersOne service.now L.may_read O.is_clean O.is_closed O.stands_at O.leaves
        (C.answered clients.old) (C.answered clients.new)
        (record { office = office.old; lists = lists.old })
        (record { office = office.new; lists = lists.new }) }
{
    let Some(request) = clients.request(place) else {
        return;
    };
    let (served, answer) = answer_with_lists(alloc, routes, service, office, lists, request);
    clients.answer(place, served, answer);
    clients.send(service, place);
}

/// Has the office answer each client that waits for an answer, once, until it is closed, or no
/// other answer is to be made.
fn answer_all<O: MergeFrom, L: Lists, C: Clients>(
    alloc: Global,
    routes: &Routes,
    service: &Service,
    office: &mut O,
    lists: &mut L,
    clients: &mut C,
)
    ensures value { ServesAll service.now L.may_read O.is_clean O.is_closed O.stands_at O.leaves
        (C.answered clients.old) (C.answered clients.new)
        (record { office = office.old; lists = lists.old })
        (record { office = office.new; lists = lists.new }) }
{
    for place in 0..PLACES {
        if office.closed() || !clients.has_room() {
            return;
        }
        answer_place(alloc, routes, service, office, lists, clients, place);
    }
}

/// Has an office that is closed answer each client that still waits for an answer, once, room or
/// not: such answers are short.
fn answer_late<O: MergeFrom, L: Lists, C: Clients>(
    alloc: Global,
    routes: &Routes,
    service: &Service,
    office: &mut O,
    lists: &mut L,
    clients: &mut C,
)
    ensures value { AnswersAll service.now L.may_read O.is_clean O.is_closed O.stands_at O.leaves
        (C.answered clients.old) (C.answered clients.new)
        (record { office = office.old; lists = lists.old })
        (record { office = office.new; lists = lists.new }) }
{
    for place in 0..PLACES {
        answer_place(alloc, routes, service, office, lists, clients, place);
    }
}

// Once the office is closed, it still answers those whose requests have come: they would else not
// know what became of them.
/// Serves the clients of an office until all that were to be served have been, clients can no
/// longer be heard, or the office is closed. Each is answered once its request has come, by one
/// exchange as [`answer_with_lists`] has it, and no byte of an answer is given out before its
/// exchange has ended. The lists of a merge are opened when its turn comes. If what is served is to
/// be looked up anew, the service ends, and the same clients may be served by the next. Those whose
/// requests have come when the office is closed are still answered.
/// Source: this project's own.
pub fn serve_clients<O: MergeFrom, L: Lists, C: Clients>(
    alloc: Global,
    routes: &Routes,
    service: &Service,
    office: &mut O,
    lists: &mut L,
    clients: &mut C,
) -> ServiceEnd
    // each answer is that of an exchange over what had come of that request, in the order of the
    // exchanges
    ensures value { IsService service.now L.may_read O.is_clean O.is_closed O.stands_at O.leaves
        (C.answered clients.old) (C.answered clients.new)
        (record { office = office.old; lists = lists.old })
        (record { office = office.new; lists = lists.new }) result }
{
    for _ in 0..u64::MAX {
        match clients.turn(service) {
            Turn::Go => {}
            Turn::Renewed => return ServiceEnd::Renewed,
            Turn::Done => return ServiceEnd::Done,
            Turn::Stopped => {
                clients.finish(service);
                return ServiceEnd::Stopped;
            }
        }
        answer_all(alloc, routes, service, office, lists, clients);
        if office.closed() {
            answer_late(alloc, routes, service, office, lists, clients);
            clients.finish(service);
            return ServiceEnd::Closed;
        }
    }
    ServiceEnd::Stopped
}
