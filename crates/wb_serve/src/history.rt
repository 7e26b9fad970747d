//! The answers that clients were given, which only proofs read.
ghost use Rattle.std.specs.Prelude.{◌≡◌, [], ◌∷◌, ◌++◌};

use crate::connection::Connection;
use http_server::Log;
use std::marker::Model;

/// The answers that were given, each with what had come of its request, in their order. It takes no
/// memory and does nothing.
/// Source: this project's own.
#[derive(Drop)]
pub struct History {
    log: Log<Connection, Vec<u8>>,
}

impl Model for History {
    ghost use Rattle.std.specs.Prelude.{List, map};
    ghost use Rattle.wb_serve.specs.Exchanges.{Answered};

    ghost Value = { List Answered };

    ghost view = { λ h. map
        (λ given. record { request = given.0.bytes; answer = given.1.items }) h.log.items };
}

impl History {
    /// No answer.
    /// Source: this project's own.
    pub fn new() -> History
        ensures value { result ≡ [] }
    {
        History { log: Log::new() }
    }

    /// The same, and then this answer to what has come of this connection.
    /// Source: this project's own.
    pub fn and(&self, connection: &Connection, answer: &Vec<u8>) -> History
        ensures value { result ≡ self.now
            ++ record { request = connection.now.bytes; answer = answer.now.items } ∷ [] }
    {
        History {
            log: self.log.and(connection, answer),
        }
    }
}
