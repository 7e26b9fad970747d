//! The office over HTTP, on a port of this machine.

use crate::folder::FolderLists;
use crate::keys::KeyFile;
use crate::renewed::WithKeys;
use crate::{ServeOptions, say};
use mio::net::TcpListener;
use std::net::{Ipv4Addr, SocketAddr};
use wb_api::{Routes, Service};
use wb_archive::MergeFrom;
use wb_daemon::{Cause, Message, status};
use wb_keys::Access;
use wb_lists::{Lists, NoLists};
use wb_serve::{Network, ServiceEnd, serve_clients};

/// Takes the port of 127.0.0.1, or says on standard error why it cannot be taken.
pub(crate) fn listen(rt: &HostRuntime, port: u16) -> Option<TcpListener> {
    let address = SocketAddr::from((Ipv4Addr::LOCALHOST, port));
    match TcpListener::bind(rt, address) {
        Ok(listener) => Some(listener),
        Err(error) => {
            let _ = eprintln!(rt; "wb: nothing can be served on port {port} of 127.0.0.1: {error}");
            None
        }
    }
}

/// Whether the keys in the file of this name can be read, if one is named; says on standard error
/// why not.
pub(crate) fn has_good_keys(rt: &HostRuntime, keys: Option<&str>) -> bool {
    match keys {
        Some(name) => KeyFile::new(rt, name).first_access().is_some(),
        None => true,
    }
}

/// Serves this many connections, many at once, or without a number all until the program is ended.
/// The paths are read once, before the first. It ends early if the office is closed then, or if
/// connections cannot be accepted. Each that cannot is reported on standard error, and counts too.
pub(crate) fn serve<O: MergeFrom>(
    rt: &HostRuntime,
    office: &mut O,
    options: ServeOptions<'_>,
) -> u8 {
    match Routes::new(rt.alloc()) {
        Ok(routes) => serve_routes(rt, &routes, office, options),
        Err(error) => {
            let _ = eprintln!(rt; "wb: nothing can be served: {error}");
            status::STOPPED
        }
    }
}

fn serve_routes<O: MergeFrom>(
    rt: &HostRuntime,
    routes: &Routes,
    office: &mut O,
    options: ServeOptions<'_>,
) -> u8 {
    let network = Network::new(rt, routes, options.listener, options.requests);
    let mut clients = match network {
        Ok(clients) => clients,
        Err(error) => {
            let _ = eprintln!(rt; "wb: nothing can be served: {error}");
            return status::STOPPED;
        }
    };
    match serve_in(rt, routes, office, &mut clients, options) {
        ServiceEnd::Done => status::ACCEPTED,
        ServiceEnd::Stopped | ServiceEnd::Renewed => status::STOPPED,
        ServiceEnd::Closed => {
            say(
                rt,
                Message::Stopped {
                    cause: Cause::Store,
                },
            );
            status::STOPPED
        }
    }
}

/// Serves the clients, with the lists of the folder if there is one.
fn serve_in<O: MergeFrom>(
    rt: &HostRuntime,
    routes: &Routes,
    office: &mut O,
    clients: &mut Network<'_>,
    options: ServeOptions<'_>,
) -> ServiceEnd {
    let Some(folder) = options.lists else {
        return serve_by(rt, routes, office, &mut NoLists, clients, options);
    };
    let mut lists = FolderLists::new(rt, folder);
    let end = serve_by(rt, routes, office, &mut lists, clients, options);
    lists.count_left_out();
    end
}

/// Serves the clients by the keys of the file, if there is one.
fn serve_by<O: MergeFrom, L: Lists>(
    rt: &HostRuntime,
    routes: &Routes,
    office: &mut O,
    lists: &mut L,
    clients: &mut Network<'_>,
    options: ServeOptions<'_>,
) -> ServiceEnd {
    let has_lists = options.lists.is_some();
    let Some(name) = options.keys else {
        let service = Service {
            has_lists,
            access: Access::Everybody,
        };
        return serve_clients(rt.alloc(), routes, &service, office, lists, clients);
    };
    let mut keys = KeyFile::new(rt, name);
    match keys.first_access() {
        Some(access) => {
            let service = Service { has_lists, access };
            serve_with_keys(rt, routes, office, lists, clients, service, &mut keys)
        }
        None => ServiceEnd::Stopped,
    }
}

/// Serves the clients by keys, and goes on with those that stand in the file whenever it was
/// changed. Keys that cannot be read change nothing.
fn serve_with_keys<O: MergeFrom, L: Lists>(
    rt: &HostRuntime,
    routes: &Routes,
    office: &mut O,
    lists: &mut L,
    clients: &mut Network<'_>,
    first: Service,
    keys: &mut KeyFile<'_>,
) -> ServiceEnd {
    let mut service = first;
    let mut is_told = false;
    for _ in 0..u64::MAX {
        let mut told = WithKeys::new(clients, keys, is_told);
        let end = serve_clients(rt.alloc(), routes, &service, office, lists, &mut told);
        if end != ServiceEnd::Renewed {
            return end;
        }
        is_told = true;
        if let Some(access) = keys.next_access() {
            service.access = access;
        }
    }
    ServiceEnd::Stopped
}
