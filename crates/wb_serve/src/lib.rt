//! Many clients of an office at once, on one thread: what has come of the request of each, what is
//! left of its answer, the order in which the office answers, and the sockets behind them.

// No thread and no lock stand between an office and its store, and a client that is slow or says
// nothing delays nobody. An answer is written at once after its exchange, as far as the socket
// takes it, so a kill leaves one commit untold at most; in the next turn all clients whose commands
// were carried out would wait for the syncs of one another. For threads the kit gives no handle.

#![tactic(auto)]

mod client;
mod clients;
mod connection;
mod history;
mod network;
mod remarks;
mod sockets;

pub use clients::{Clients, PLACES, ServiceEnd, Turn, serve_clients};
pub use connection::{Connection, Stage, Took, Wrote};
pub use history::History;
pub use network::Network;
