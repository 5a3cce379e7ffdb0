//! Sinks and sources over memory.
ghost use Rattle.std.specs.Prelude.{◌≡◌, ◌↔◌, false, true, [], ◌<◌, ◌≤◌, length, take, vec_capacity, IfOk, OnErr, IsErr, IsTrue, ◌⊎◌};
ghost use Rattle.std.specs.Io.KnownBytes.{IsAtEnd};
ghost use Rattle.iv_bytes.specs.Sinks.{Takes, FailsIn, in_memory};
ghost use Rattle.iv_bytes.specs.Sources.{Gives, answered, from_memory};

use crate::sink::{Flush, Sink, WriteFault};
use crate::source::{ReadFault, Source, counted};
use std::alloc::{AllocError, Allocator, Global};

/// A sink in memory, for tests: it has room for `room` bytes, takes at most `piece` of them at a time, never grows,
/// and fails only if its room is used up.
#[derive(Drop)]
pub struct MemSink<A: Allocator = Global> {
    bytes: Vec<u8, A>,
    room: usize,
    piece: usize,
    failed: bool,
    ghost fits: { length bytes.items ≤ room },
    ghost reserved: { room ≤ vec_capacity bytes },
    ghost some: { 0 < piece },
}

impl<A: Allocator> MemSink<A> {
    /// Reserves the room. A piece is at least one byte.
    pub fn new(alloc: A, room: usize, piece: usize) -> Result<MemSink<A>, AllocError>
        requires { 0 < piece }
        ensures { IfOk result (λ sink. (sink.bytes.items ≡ []) × (sink.failed ≡ false) × (sink.room ≡ room) × (sink.piece ≡ piece)) }
    {
        Ok(MemSink {
            bytes: Vec::with_capacity(alloc, room)?,
            room,
            piece,
            failed: false,
        })
    }

    /// All bytes taken, in order.
    pub fn bytes(&self) -> &[u8]
        ensures { result.now ≡ self.now.bytes.items }
    {
        self.bytes.as_slice()
    }
}

impl<A: Allocator> Sink for MemSink<A> {
    ghost state = { λ s. in_memory s.bytes.items s.failed };

    fn push(&mut self, bytes: &[u8]) -> Result<usize, WriteFault>
        requires { 0 < length bytes.now }
        ensures some { IfOk result (λ n. (0 < n) × (n ≤ length bytes.now)) }
        ensures ok { IfOk result (λ n. Takes (in_memory self.old.bytes.items self.old.failed) (in_memory self.new.bytes.items self.new.failed) (take n bytes.now)) }
        ensures err { OnErr result (FailsIn (in_memory self.old.bytes.items self.old.failed) (in_memory self.new.bytes.items self.new.failed) []) }
        ensures failing { IsTrue self.old.failed → IsErr result }
        ensures full { IsErr result ↔ (IsTrue self.old.failed ⊎ (length self.old.bytes.items ≡ self.old.room)) }
        ensures piece { IfOk result (λ n. n ≤ self.old.piece) }
        ensures same { (self.new.room ≡ self.old.room) × (self.new.piece ≡ self.old.piece) }
    {
        let left = self.room - self.bytes.len();
        if self.failed || left == 0 {
            self.failed = true;
            return Err(WriteFault);
        }
        let n = bytes.len().min(left).min(self.piece);
        self.bytes.extend_from_slice(&bytes[..n]).unwrap();
        Ok(n)
    }

    fn failed(&self) -> bool {
        self.failed
    }
}

impl<A: Allocator> Flush for MemSink<A> {
    fn flush(&mut self) -> Result<(), WriteFault> {
        Ok(())
    }
}

/// A source over bytes in memory, for tests: it gives at most `piece` bytes at a time and `good` in all,
/// and fails exactly at a pull that finds `good` of them given.
#[derive(Drop)]
pub struct MemSource<'a> {
    bytes: &'a [u8],
    at: usize,
    good: usize,
    piece: usize,
    failed: bool,
    ends: u8,
    ghost within: { at ≤ length bytes.now },
    ghost below: { at ≤ good },
    ghost some: { 0 < piece },
}

impl<'a> MemSource<'a> {
    /// A piece is at least one byte.
    pub fn new(bytes: &'a [u8], good: usize, piece: usize) -> MemSource<'a>
        requires { 0 < piece }
        ensures { (result.bytes.now ≡ bytes.now) × (result.at ≡ 0) × (result.good ≡ good) × (result.piece ≡ piece) × (result.failed ≡ false) × (result.ends ≡ 0) }
    {
        MemSource {
            bytes,
            at: 0,
            good,
            piece,
            failed: false,
            ends: 0,
        }
    }
}

impl Source for MemSource<'_> {
    ghost state = { λ s. from_memory s.bytes.now s.at s.failed s.ends };

    fn pull(&mut self, into: &mut [u8]) -> Result<usize, ReadFault>
        requires { 0 < length into.old }
        ensures some { IfOk result (λ n. n ≤ length into.new) }
        ensures ok { IfOk result (λ n. Gives (answered n (from_memory self.old.bytes.now self.old.at self.old.failed self.old.ends)) (from_memory self.new.bytes.now self.new.at self.new.failed self.new.ends) (take n into.new)) }
        ensures end { IfOk result (λ n. n ≡ 0 → IsAtEnd (from_memory self.new.bytes.now self.new.at self.new.failed self.new.ends).remaining) }
        ensures kept { OnErr result (Gives (from_memory self.old.bytes.now self.old.at true self.old.ends) (from_memory self.new.bytes.now self.new.at self.new.failed self.new.ends) []) }
        ensures failing { IsTrue self.old.failed → IsErr result }
        ensures spent { IsErr result ↔ (IsTrue self.old.failed ⊎ (self.old.at ≡ self.old.good)) }
        ensures piece { IfOk result (λ n. n ≤ self.old.piece) }
        ensures same { (self.new.bytes.now ≡ self.old.bytes.now) × (self.new.good ≡ self.old.good) × (self.new.piece ≡ self.old.piece) }
    {
        if self.failed || self.at == self.good {
            self.failed = true;
            return Err(ReadFault);
        }
        let rest = &self.bytes[self.at..];
        let n = rest
            .len()
            .min(self.good - self.at)
            .min(self.piece)
            .min(into.len());
        into[..n].copy_from_slice(&rest[..n]);
        self.at += n;
        self.ends = counted(self.ends, n);
        Ok(n)
    }

    fn failed(&self) -> bool {
        self.failed
    }
}
