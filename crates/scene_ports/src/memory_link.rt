// A stream in memory, which fails at chosen calls.
ghost use Rattle.std.specs.Prelude.{◌≡◌, ◌≤◌, [], Some, drop, length, refl};

use crate::{Give, Inlet, Link, Outlet, Take};
use std::alloc::Global;

/// Bytes in memory, taken at most `piece` at a time, and a place that takes what is given, whole pieces. Of the takes
/// and gives, counted together from 1, those whose numbers are in `failing` fail.
#[derive(Drop)]
pub struct MemoryLink {
    bytes: Vec<u8>,
    at: usize,
    piece: usize,
    written: Vec<u8>,
    failing: Vec<u64>,
    calls: u64,
    taken: u64,
    faults: u64,
    ghost within: { at ≤ length bytes.items },
    ghost some: { 1 ≤ piece },
}

impl MemoryLink {
    /// A stream of these bytes, with nothing taken, nothing given and no fault so far. `piece`: at least 1.
    pub fn new(alloc: Global, bytes: Vec<u8>, piece: usize, failing: Vec<u64>) -> MemoryLink
        requires { 1 ≤ piece }
        ensures left { ⟦<MemoryLink as Inlet>⟧.left result ≡ Some bytes.items }
        ensures taken { ⟦<MemoryLink as Inlet>⟧.taken result ≡ 0 }
        ensures given { ⟦<MemoryLink as Outlet>⟧.given result ≡ Some [] }
        ensures faults { ⟦<MemoryLink as Inlet>⟧.faults result ≡ 0 }
        ensures give_faults { ⟦<MemoryLink as Outlet>⟧.faults result ≡ 0 }
        ensures given_aside { ⟦<MemoryLink as Inlet>⟧.given_aside result ≡ Some [] }
        ensures inlet_aside { ⟦<MemoryLink as Outlet>⟧.inlet_aside result
            ≡ Some (record { left = Some bytes.items; taken = 0 }) }
    {
        MemoryLink {
            bytes,
            at: 0,
            piece,
            written: Vec::new(alloc),
            failing,
            calls: 0,
            taken: 0,
            faults: 0,
        }
    }

    /// What was given.
    pub fn written(&self) -> &[u8]
        ensures { ⟦<MemoryLink as Outlet>⟧.given self.now ≡ Some result.now }
    {
        &self.written
    }
}

impl Outlet for MemoryLink {
    ghost given = { λ s. Some s.written.items };

    ghost faults = { λ s. s.faults };

    ghost inlet_aside = { λ s. Some (record { left = Some (drop s.at s.bytes.items); taken = s.taken }) };

    fn give(&mut self, bytes: &[u8]) -> Give {
        self.calls = self.calls.saturating_add(1);
        if self.failing.contains(&self.calls) {
            self.faults = self.faults.saturating_add(1);
            return Give::Failed;
        }
        match self.written.extend_from_slice(bytes) {
            Ok(_) => Give::Took(bytes.len()),
            Err(_) => Give::Memory,
        }
    }
}

impl Inlet for MemoryLink {
    ghost left = { λ s. Some (drop s.at s.bytes.items) };

    ghost taken = { λ s. s.taken };

    ghost faults = { λ s. s.faults };

    ghost given_aside = { λ s. Some s.written.items };

    fn take(&mut self, buffer: &mut [u8]) -> Take {
        self.calls = self.calls.saturating_add(1);
        if self.failing.contains(&self.calls) {
            self.faults = self.faults.saturating_add(1);
            return Take::Failed;
        }
        let left = self.bytes.len() - self.at;
        if left == 0 {
            return Take::End;
        }
        let n = left.min(self.piece).min(buffer.len());
        buffer[..n].copy_from_slice(&self.bytes[self.at..self.at + n]);
        self.at += n;
        self.taken = self.taken.saturating_add(n as u64);
        Take::Got(n)
    }
}

impl Link for MemoryLink {
    ghost given_is = { λ _. refl };

    ghost inlet_is = { λ _. refl };

    ghost faults_are = { λ _. refl };
}
