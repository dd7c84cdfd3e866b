// Workers that serve the connections of one listener.
ghost use Rattle.std.specs.Prelude.{◌≡◌, ◌<◌, ℕ, length, slice_index_or};
ghost use Rattle.http_listener.specs.Asking.{WereAsked};

use crate::stream_link::StreamLink;
use http_connection::{Viewers, serve_connection};
use std::alloc::Global;
use std::net::{Ipv4Addr, Net, TcpListener, TcpStream};
use std::thread::Threads;
use std::{io, thread};

/// Listens on a port of this machine, 127.0.0.1, for connections from this machine alone. `port`: 0 for any that is
/// free. An `Err` comes where the port can't be had.
pub fn listen<R: Net<Stream = TcpStream, Listener = TcpListener>>(
    rt: &R,
    port: u16,
) -> io::Result<TcpListener> {
    TcpListener::bind(rt, (Ipv4Addr::LOCALHOST, port))
}

/// Serves the connections of a listener until each worker has failed to accept one, so it isn't meant to return. Each
/// viewers have a worker of their own, in a thread where one can be started, which serves one connection after the
/// other. However a connection ends, the worker goes on with the next one. Nothing is done with the viewers but that
/// they are asked for request lines.
pub fn serve_all<R: Threads + Sync, V: Viewers + Send>(
    rt: &R,
    alloc: Global,
    listener: &TcpListener,
    viewers: &mut [V],
)
    requires { 0 < length viewers.old }
    ensures asked { (i : ℕ) (d : V) → i < length viewers.old
        → WereAsked V.may (slice_index_or viewers.old i d) (slice_index_or viewers.new i d) }
{
    let count = viewers.len();
    thread::for_each_mut(
        rt,
        viewers,
        count,
        &|_, one: &mut V| serve_listener(alloc, listener, one),
    );
}

// Serves one connection after the other, until there is none to be had.
fn serve_listener<V: Viewers>(alloc: Global, listener: &TcpListener, viewers: &mut V)
    ensures asked { WereAsked V.may viewers.old viewers.new }
{
    for stream in listener.incoming() {
        let Ok(stream) = stream else {
            return;
        };
        let mut link = StreamLink::new(stream);
        // However the connection was served, the next one is.
        let _ = serve_connection(alloc, viewers, &mut link);
        link.close();
    }
}
