// Sinks that keep their bytes, or their number, in memory.
ghost use Rattle.std.specs.Prelude.{◌≡◌, ◌≤◌, ◌<◌, ◌+◌, ◌-◌, ◌^◌, ℕ, [], Some, None, Ok, Contains, IfOk, IsErr, ◌↔◌, ◌⊎◌, length, min, vec_len, vec_capacity};
ghost use Rattle.prem_io.specs.Counts.{counted};
ghost use Rattle.prem_io.specs.MemorySink.{SinkState, after_write, taken_of};

use crate::sink::{Sink, SinkFailed};
use std::alloc::{AllocError, Global};
use std::marker::Model;

/// A sink in memory that holds few bytes, takes few in a call and fails at given calls, to try out what
/// comes of faults and of pieces that are taken in part.
#[derive(Drop)]
pub struct MemorySink {
    held: Vec<u8>,
    room: usize,
    piece: usize,
    failing: Vec<u64>,
    calls: u64,
    faults: u64,
}

impl Model for MemorySink {
    ghost Value = { SinkState };

    ghost view = { λ s. record {
      bytes = s.held.items;
      room = s.room;
      piece = s.piece;
      failing = s.failing.items;
      calls = s.calls;
      faults = s.faults;
    } };

    // The memory for all of the room is taken.
    ghost invariant = { λ s. (s.room ≤ vec_capacity s.held) × (vec_len s.held ≤ s.room) × (0 < s.piece) };
}

impl MemorySink {
    /// An empty sink for `room` bytes that takes at most `piece` bytes in a call and fails at the calls of
    /// these numbers, counted from 1. All of its memory is taken here.
    pub fn new(
        alloc: Global,
        room: usize,
        piece: usize,
        failing: Vec<u64>,
    ) -> Result<MemorySink, AllocError>
        requires { 0 < piece }
        ensures { IfOk result (λ sink. sink ≡ record {
          bytes = [];
          room = room;
          piece = piece;
          failing = failing.items;
          calls = 0;
          faults = 0;
        }) }
    {
        Ok(MemorySink {
            held: Vec::with_capacity(alloc, room)?,
            room,
            piece,
            failing,
            calls: 0,
            faults: 0,
        })
    }

    /// The bytes so far. It takes no memory.
    pub fn bytes(&self) -> &[u8]
        ensures { result.now ≡ self.now.bytes }
    {
        self.held.as_slice()
    }
}

impl Sink for MemorySink {
    ghost bytes = { λ s. Some s.bytes };

    ghost faults = { λ s. s.faults };

    fn write(&mut self, piece: &[u8]) -> Result<usize, SinkFailed>
        ensures when { IsErr result
            ↔ (Contains self.old.failing (counted self.old.calls)
            ⊎ ((0 < length piece.now) × (length self.old.bytes ≡ self.old.room))) }
        ensures number { IfOk result (λ n. n ≡ taken_of self.old piece.now) }
        ensures after { self.new ≡ after_write self.old piece.now result }
        ensures least { IfOk result (λ n. 0 < length piece.now → 0 < n) }
        ensures count { self.old.faults ≤ self.new.faults }
    {
        self.calls = self.calls.saturating_add(1);
        let left = self.room - self.held.len();
        let is_full = left == 0 && !piece.is_empty();
        if is_full || self.failing.contains(&self.calls) {
            self.faults = self.faults.saturating_add(1);
            return Err(SinkFailed);
        }
        let count = piece.len().min(self.piece).min(left);
        match self.held.extend_from_slice(&piece[..count]) {
            Ok(()) => Ok(count),
            // The room was taken when the sink was made.
            Err(_) => unreachable!(),
        }
    }
}

/// A sink that never fails: it takes every piece whole, and keeps the number of its bytes alone.
#[derive(Drop)]
pub struct SteadySink {
    count: u64,
}

impl Model for SteadySink {
    ghost Value = { ℕ };

    ghost view = { λ s. s.count };
}

impl SteadySink {
    /// A sink that has taken nothing.
    pub fn new() -> SteadySink
        ensures { result ≡ 0 }
    {
        SteadySink { count: 0 }
    }
}

impl Sink for SteadySink {
    ghost bytes = { λ _. None };

    ghost faults = { λ _. 0 };

    fn write(&mut self, piece: &[u8]) -> Result<usize, SinkFailed>
        ensures whole { result ≡ Ok (length piece.now) }
        ensures count { self.new ≡ min (self.old + length piece.now) (2 ^ 64 - 1) }
    {
        self.count = self.count.saturating_add(piece.len() as u64);
        Ok(piece.len())
    }
}
