//! A queue of bytes in a fixed array.
ghost use Rattle.std.specs.Prelude.{◌≡◌, ◌↔◌, false, if◌then◌else◌, [], ℕ, ◌-◌, ◌++◌, ◌<◌, ◌≤◌, List, length, take, drop, slice_range, true, IfOk, OnErr, IsTrue};
ghost use Rattle.std.specs.Io.KnownBytes.{IsAtEnd};
ghost use Rattle.iv_bytes.specs.Sources.{Reads, answered, answers};

use crate::source::{ReadFault, Source};
use std::marker::Model;

/// How many bytes the queue has room for.
pub const CHUNK: usize = 8192;

/// Bytes that came in and did not go out yet, in their order: at most 8 KiB, in an array on the stack.
///
/// After a source it holds what was pulled and not yet read; above a sink, what was put and not yet handed on.
#[derive(Drop)]
pub struct ByteQueue {
    chunk: [u8; 8192],
    start: usize,
    end: usize,
}

impl Model for ByteQueue {
    ghost Value = { List ℕ };

    ghost view = { λ held. slice_range held.chunk held.start held.end };

    ghost invariant = { λ held. (held.start ≤ held.end) × (held.end ≤ 8192) };
}

impl ByteQueue {
    pub fn new() -> ByteQueue
        ensures { result ≡ [] }
    {
        ByteQueue {
            chunk: [0; 8192],
            start: 0,
            end: 0,
        }
    }

    /// The bytes.
    pub fn bytes(&self) -> &[u8]
        ensures { result.now ≡ self.now }
    {
        &self.chunk[self.start..self.end]
    }

    /// Drops the first n bytes.
    pub fn skip(&mut self, n: usize)
        requires { n ≤ length self.old }
        ensures { self.new ≡ drop n self.old }
    {
        self.start += n;
    }

    /// Adds as many of the bytes as there is room for: at least one, if nothing is held.
    pub fn add(&mut self, bytes: &[u8]) -> usize
        ensures within { result ≤ length bytes.now }
        ensures some { self.old ≡ [] → 0 < length bytes.now → 0 < result }
        ensures added { self.new ≡ self.old ++ take result bytes.now }
    {
        if self.start == self.end {
            self.start = 0;
            self.end = 0;
        }
        let end = self.end;
        let n = bytes.len().min(CHUNK - end);
        self.chunk[end..end + n].copy_from_slice(&bytes[..n]);
        self.end = end + n;
        n
    }

    /// Pulls if nothing is held, and else leaves the source alone. It answers whether anything is held then: if not, the input is at
    /// its end. After a fault nothing is held.
    pub fn fill<S: Source>(&mut self, source: &mut S) -> Result<bool, ReadFault>
        ensures some { IfOk result (λ some. IsTrue some ↔ 0 < length self.new) }
        ensures end { IfOk result (λ some. some ≡ false → IsAtEnd (S.state source.new).remaining) }
        ensures reads { Reads self.old self.new (S.state source.old) (S.state source.new) [] }
        ensures ok { IfOk result (λ some. answers (S.state source.new) ≡ answers (if some then S.state source.old else answered 0 (S.state source.old))) }
        ensures err { OnErr result (answers (S.state source.new) ≡ answers (record (S.state source.old) { failed = true })) }
        ensures none { OnErr result (self.new ≡ []) }
        ensures held { 0 < length self.old → (self.new ≡ self.old) × (S.state source.new ≡ S.state source.old) }
        ensures few { length self.new ≤ 8192 }
    {
        if self.start < self.end {
            return Ok(true);
        }
        self.start = 0;
        self.end = 0;
        self.end = source.pull(&mut self.chunk)?;
        Ok(self.end > 0)
    }
}
