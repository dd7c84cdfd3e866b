// What no clause says of connections over sockets: that they are served one after the other, and each is let go.
ghost use Rattle.std.specs.Prelude.{◌≡◌, ◌≤◌, ◌+◌, None, length};
ghost use Rattle.std.specs.List.{All};
ghost use Rattle.viewer_session.specs.Starts.{IsNewPass};

use crate::scenes::{SmallTileset, next_viewers};
use http_connection::Viewers;
use http_listener::{listen, serve_all};
use std::alloc::Global;
use std::io::{Read, Write};
use std::net::{Net, Shutdown, SocketAddr, TcpListener, TcpStream};
use std::sync::Wait;
use std::test::Fail;
use std::thread::Threads;
use viewer_session::{Scene, Started, ViewerPass};

// What is given by the first worker, and by the second: bodies, each with a mark behind it.
const FIRST: &str =
    "end\tpartial\t0\n|bad request\n|0\t0\t0\n1\t0\t0\n1\t1\t0\n1\t0\t1\n1\t1\t1\nend\tcomplete\t5\n|";

const SECOND: &str = "0\t0\t0\n1\t0\t0\n1\t1\t0\n1\t0\t1\n1\t1\t1\nend\tcomplete\t5\n|";

const TILES: &[u8] = b"GET /tiles?level=1&lo=0,0&hi=1,1 HTTP/1.1\r\n\r\n";

const PREFIX: &[u8] = b"GET /prefix?level=1&lo=0,0&hi=1,1 HTTP/1.1\r\n\r\n";

// A client that has sent these bytes, and will send no more.
fn client<R: Net<Stream = TcpStream, Listener = TcpListener>>(
    rt: &R,
    at: SocketAddr,
    bytes: &[u8],
) -> Result<TcpStream, Fail> {
    let mut stream = TcpStream::connect(rt, at)?;
    stream.write_all(bytes)?;
    stream.shutdown(Shutdown::Write)?;
    Ok(stream)
}

// The bodies of what clients are given that sent these bytes, each over a connection of its own, by one worker. All have
// sent theirs before the first is served, and the listener waits for no more, so that the worker ends.
fn given<
    R: Threads + Sync + Net<Stream = TcpStream, Listener = TcpListener>,
    V: Viewers + Send + Drop,
>(
    rt: &R,
    alloc: Global,
    listener: &TcpListener,
    viewers: V,
    sent: &[&[u8]],
) -> Result<String, Fail> {
    let at = listener.local_addr()?;
    let mut clients = Vec::new(alloc);
    for bytes in sent {
        clients.push(client(rt, at, bytes)?)?;
    }
    serve(rt, alloc, listener, viewers)?;
    let mut bodies = String::new(alloc);
    for mut client in clients {
        push_body(alloc, &mut client, &mut bodies)?;
    }
    Ok(bodies)
}

// The body of the reply that a client is given.
fn push_body(alloc: Global, client: &mut TcpStream, bodies: &mut String) -> Result<(), Fail> {
    let mut text = String::new(alloc);
    client.read_to_string(&mut text)?;
    let (_, body) = text.split_once("\r\n\r\n").unwrap_or(("", ""));
    bodies.push_str(body)?;
    bodies.push('|')?;
    Ok(())
}

// Serves those that wait.
fn serve<R: Threads + Sync, V: Viewers + Send + Drop>(
    rt: &R,
    alloc: Global,
    listener: &TcpListener,
    viewers: V,
) -> Result<(), Fail> {
    let mut workers = Vec::new(alloc);
    workers.push(viewers)?;
    serve_all(rt, alloc, listener, workers.as_mut_slice());
    Ok(())
}

// The bodies that clients are given who sent these bytes, by viewers with the last of these passes.
fn bodies_of<R: Threads + Wait + Sync + Net<Stream = TcpStream, Listener = TcpListener>>(
    rt: &R,
    alloc: Global,
    listener: &TcpListener,
    scene: &Scene,
    passes: &mut Vec<ViewerPass>,
    sent: &[&[u8]],
) -> Result<String, Fail>
    requires some { 1 ≤ length passes.old.items }
    requires passes { All (IsNewPass scene.now) passes.old.items }
    requires told { scene.now.tileset.told ≡ None }
    ensures fewer { length passes.new.items + 1 ≡ length passes.old.items }
    ensures passes { All (IsNewPass scene.now) passes.new.items }
{
    let viewers = next_viewers(rt, alloc, scene, passes);
    given(rt, alloc, listener, viewers, sent)
}

#[test]
fn connections_of_one_listener(rt: HostRuntime) -> Result<(), Fail> {
    let alloc = rt.alloc();
    let mut files = SmallTileset { fetches: 0 };
    let Ok(
        Started {
            scene,
            mut passes,
            ..
        },
    ) = Scene::start(alloc, &mut files, 2, 4)
    else {
        return Err(Fail::new("the scene starts"));
    };
    let listener = listen(&rt, 0)?;
    listener.set_nonblocking(true)?;

    // Nothing is published yet, then the whole is. Who speaks another language is let go.
    let sent: [&[u8]; 3] = [PREFIX, b"\x16\x03\x01\0", TILES];
    let first = bodies_of(&rt, alloc, &listener, &scene, &mut passes, &sent)?;
    assert!(rt; first.as_str() == FIRST);

    // Another worker's first request is for what was published before.
    let sent: [&[u8]; 1] = [PREFIX];
    let second = bodies_of(&rt, alloc, &listener, &scene, &mut passes, &sent)?;
    assert!(rt; second.as_str() == SECOND);
    Ok(())
}
