// A connection of TCP as a link.
ghost use Rattle.std.specs.Prelude.{◌≡◌, None, Some, refl};

use scene_ports::{Give, Inlet, Link, Outlet, Take};
use std::io::{ErrorKind, Read, Write};
use std::net::{Shutdown, TcpStream};
use std::time::Duration;

// How long the end of a connection may wait for the client each time, and how many times.
const LINGER_MILLISECONDS: u64 = 100;

const LINGER_READS: u32 = 16;

/// A link over a stream of TCP, which tells nothing of its bytes. A read or a write that failed is a fault, and so is a
/// write that took nothing of a piece that isn't empty.
#[derive(Drop)]
pub struct StreamLink {
    stream: TcpStream,
    taken: u64,
    faults: u64,
}

impl StreamLink {
    /// A link over the stream, with nothing taken and no fault so far. Each piece that is given leaves at once: none
    /// waits until the client has acknowledged the one before.
    pub fn new(stream: TcpStream) -> StreamLink
        ensures taken { ⟦<StreamLink as Inlet>⟧.taken result ≡ 0 }
        ensures faults { ⟦<StreamLink as Inlet>⟧.faults result ≡ 0 }
    {
        // Where the system refuses it, pieces are only slower.
        let _ = stream.set_nodelay(true);
        StreamLink {
            stream,
            taken: 0,
            faults: 0,
        }
    }

    /// Closes the connection (RFC 9112, section 9.6). No more is given; what the client has sent meanwhile is taken and
    /// dropped, for at most 1.6 seconds and 65,536 bytes, so that the system doesn't tell the client that they were
    /// refused before it has read the last reply.
    pub fn close(mut self) {
        let linger = Duration::from_millis(LINGER_MILLISECONDS);
        if self.stream.shutdown(Shutdown::Write).is_err()
            || self.stream.set_read_timeout(Some(linger)).is_err()
        {
            return;
        }
        let mut dropped = [0; 4096];
        for _ in 0..LINGER_READS {
            match self.stream.read(&mut dropped) {
                Ok(count) if count > 0 => {}
                _ => return,
            }
        }
    }
}

impl Inlet for StreamLink {
    ghost left = { λ _. None };

    ghost taken = { λ s. s.taken };

    ghost faults = { λ s. s.faults };

    ghost given_aside = { λ _. None };

    fn take(&mut self, buffer: &mut [u8]) -> Take {
        match self.stream.read(buffer) {
            Ok(n) => {
                if n == 0 && !buffer.is_empty() {
                    return Take::End;
                }
                self.taken = self.taken.saturating_add(n as u64);
                Take::Got(n)
            }
            Err(_) => {
                self.faults = self.faults.saturating_add(1);
                Take::Failed
            }
        }
    }
}

impl Outlet for StreamLink {
    ghost given = { λ _. None };

    ghost faults = { λ s. s.faults };

    ghost inlet_aside = { λ s. Some (record { left = None; taken = s.taken }) };

    fn give(&mut self, bytes: &[u8]) -> Give {
        match self.stream.write(bytes) {
            Ok(n) if n > 0 || bytes.is_empty() => Give::Took(n),
            Err(error) if error.kind() == ErrorKind::OutOfMemory => Give::Memory,
            _ => {
                self.faults = self.faults.saturating_add(1);
                Give::Failed
            }
        }
    }
}

impl Link for StreamLink {
    ghost given_is = { λ _. refl };

    ghost inlet_is = { λ _. refl };

    ghost faults_are = { λ _. refl };
}
