// A sink over memory.
ghost use Rattle.std.specs.Prelude.{◌≡◌, ◌<◌, ◌≤◌, [], Some, length, IfOk, OnErr, vec_capacity, vec_len};
ghost use Rattle.outside.specs.Faults.{Rose};

use crate::fault::SinkFault;
use crate::sink::Sink;
use plain_types::{Mem, Numbers};
use std::alloc::Global;

/// A sink with room for a number of bytes, of which chosen calls fail.
#[derive(Drop)]
pub struct MemSink {
    bytes: Vec<u8>,
    room: usize,
    most: usize,
    fail: Numbers,
    calls: u64,
    faults: u64,
    ghost fits: { vec_len bytes ≤ room },
    ghost has_room: { room ≤ vec_capacity bytes },
    ghost takes_some: { 1 ≤ most },
}

impl MemSink {
    ghost use Rattle.outside.specs.MemSink.{sink_bytes, sink_room, sink_most, sink_fail, sink_calls, sink_faults};

    /// An empty sink that takes `room` bytes in all and at most `most` of them a call. The calls with
    /// these numbers fail, counted from 1, and so does each call once no room is left.
    pub fn new(alloc: Global, most: usize, room: usize, fail: Numbers) -> Mem<MemSink>
        requires { 1 ≤ most }
        ensures bytes { IfOk result (λ sink. sink_bytes sink ≡ []) }
        ensures most { IfOk result (λ sink. sink_most sink ≡ most) }
        ensures room { IfOk result (λ sink. sink_room sink ≡ room) }
        ensures fail { IfOk result (λ sink. sink_fail sink ≡ fail) }
        ensures calls { IfOk result (λ sink. sink_calls sink ≡ 0) }
        ensures faults { IfOk result (λ sink. sink_faults sink ≡ 0) }
    {
        Ok(MemSink {
            bytes: Vec::with_capacity(alloc, room)?,
            room,
            most,
            fail,
            calls: 0,
            faults: 0,
        })
    }

    /// The bytes taken so far.
    pub fn bytes(&self) -> &[u8]
        ensures { result.now ≡ sink_bytes self.now }
    {
        self.bytes.as_slice()
    }

    /// How many calls have failed.
    pub fn faults(&self) -> u64
        ensures { result ≡ sink_faults self.now }
    {
        self.faults
    }
}

impl Sink for MemSink {
    ghost use Rattle.outside.specs.MemSink.{sink_bytes, sink_faults, MemSinkGives};

    ghost taken = { λ sink. Some (sink_bytes sink) };

    ghost faults = { sink_faults };

    ghost gives = { MemSinkGives };

    fn write(&mut self, bytes: &[u8]) -> Result<usize, SinkFault>
        requires { 0 < length bytes.now }
        ensures given { MemSinkGives self.old bytes.now result self.new }
        // Clauses of the trait that this gives.
        ensures some { IfOk result (λ n. 0 < n) }
        ensures within { IfOk result (λ n. n ≤ length bytes.now) }
        ensures later { sink_faults self.old ≤ sink_faults self.new }
        ensures cause { OnErr result (Rose (sink_faults self.old) (sink_faults self.new)) }
    {
        self.calls = self.calls.saturating_add(1);
        let left = self.room - self.bytes.len();
        if left == 0 || self.fail.as_slice().contains(&self.calls) {
            self.faults = self.faults.saturating_add(1);
            return Err(SinkFault::Failed);
        }
        let count = bytes.len().min(self.most).min(left);
        self.bytes.extend_from_slice(&bytes[..count]).unwrap();
        Ok(count)
    }
}
