//! Sinks, which take bytes in pieces, putting whole texts into them, and a buffer above a sink.
ghost use Rattle.std.specs.Prelude.{◌≡◌, [], ◌<◌, ◌≤◌, length, take, IfOk, IfSome, OnErr, IsErr, IsTrue, Ok, OnOk};
ghost use Rattle.std.specs.List.{flat_map};
ghost use Rattle.iv_bytes.specs.Sinks.{SinkState, Takes, FailsIn, Puts, buffered, waiting};

use crate::byte_queue::ByteQueue;
use thiserror::Error;

/// A write failed. The sink that answers it is failed from then on.
#[derive(Clone, Copy, Debug, PartialEq, Eq, Error)]
#[error("output cannot be written")]
pub struct WriteFault;

/// Takes bytes.
pub trait Sink {
    /// What it has taken so far, and whether it is failed.
    ghost state: { Self → SinkState };

    /// Takes some bytes from the front, at least one, and says how many. A fault takes nothing and fails the sink for good.
    fn push(&mut self, bytes: &[u8]) -> Result<usize, WriteFault>
        requires { 0 < length bytes.now }
        ensures some { IfOk result (λ n. (0 < n) × (n ≤ length bytes.now)) }
        ensures ok { IfOk result (λ n. Takes (state self.old) (state self.new) (take n bytes.now)) }
        ensures err { OnErr result (FailsIn (state self.old) (state self.new) []) }
        ensures failing { IsTrue (state self.old).failed → IsErr result };

    /// Whether a push has failed.
    fn failed(&self) -> bool
        ensures { result ≡ (state self.now).failed };
}

/// A sink that hands on what it holds when it is asked to.
pub trait Flush: Sink {
    /// Hands on all that is held, so that nothing waits afterwards. A fault fails the sink for good.
    fn flush(&mut self) -> Result<(), WriteFault>
        ensures puts { Puts (Self.state self.old) (Self.state self.new) result [] }
        ensures empty { OnOk result (waiting (Self.state self.new) ≡ []) };
}

/// Puts all the bytes. On a fault the sink has taken a prefix of them.
pub fn put_all<S: Sink>(sink: &mut S, bytes: &[u8]) -> Result<(), WriteFault>
    ensures { Puts (S.state sink.old) (S.state sink.new) result bytes.now }
{
    let mut rest = bytes;
    while !rest.is_empty() {
        let n = sink.push(rest)?;
        rest = &rest[n..];
    }
    Ok(())
}

/// How many bytes of a row are laid in one array.
const ROW: usize = 96;

/// Copies the pieces one after another to the front of an array, and says how many bytes they have.
///
/// `None` if there is no room for all of them.
fn lay(pieces: &[&[u8]], row: &mut [u8; 96]) -> Option<usize>
    ensures { IfSome result (λ n. (n ≤ 96) × (take n row.new ≡ flat_map (λ piece. piece.now) pieces.now)) }
{
    let mut end: usize = 0;
    for piece in pieces {
        let start = end;
        if piece.len() > ROW - start {
            return None;
        }
        end = start + piece.len();
        row[start..end].copy_from_slice(piece);
    }
    Some(end)
}

/// Puts the pieces one by one. On a fault the sink has taken a prefix of their text.
fn put_each<S: Sink>(sink: &mut S, pieces: &[&[u8]]) -> Result<(), WriteFault>
    ensures { Puts (S.state sink.old) (S.state sink.new) result (flat_map (λ piece. piece.now) pieces.now) }
{
    for piece in pieces {
        put_all(sink, piece)?;
    }
    Ok(())
}

/// Puts the pieces one after another. On a fault the sink has taken a prefix of their text.
///
/// A short text, of 96 bytes at most, is pushed as a whole.
pub fn put_pieces<S: Sink>(sink: &mut S, pieces: &[&[u8]]) -> Result<(), WriteFault>
    ensures { Puts (S.state sink.old) (S.state sink.new) result (flat_map (λ piece. piece.now) pieces.now) }
{
    let mut row = [0; 96];
    match lay(pieces, &mut row) {
        Some(end) => put_all(sink, &row[..end]),
        None => put_each(sink, pieces),
    }
}

/// A buffer of 8 KiB above a sink that is lent.
#[derive(Drop)]
pub struct Buffered<'a, S> {
    sink: &'a mut S,
    held: ByteQueue,
}

impl<'a, S: Sink> Buffered<'a, S> {
    pub fn new(sink: &'a mut S) -> Buffered<'a, S>
        ensures same_reference { result.sink.ghost_name ≡ sink.entry.ghost_name }
        ensures same { result.sink.now ≡ sink.old }
        ensures empty { result.held ≡ [] }
    {
        Buffered {
            sink,
            held: ByteQueue::new(),
        }
    }

    /// Hands on all that is held.
    fn flush(&mut self) -> Result<(), WriteFault>
        ensures ok { OnOk result (Takes (buffered (S.state self.old.sink.now) self.old.sink.ghost_name self.old.held) (buffered (S.state self.new.sink.now) self.new.sink.ghost_name self.new.held) []) }
        ensures empty { OnOk result (self.new.held ≡ []) }
        ensures err { OnErr result (FailsIn (buffered (S.state self.old.sink.now) self.old.sink.ghost_name self.old.held) (buffered (S.state self.new.sink.now) self.new.sink.ghost_name self.new.held) []) }
    {
        while !self.held.bytes().is_empty() {
            let n = self.sink.push(self.held.bytes())?;
            self.held.skip(n);
        }
        Ok(())
    }

    /// Hands on all that is held, and gives the sink back.
    pub fn finish(self) -> Result<(), WriteFault>
        ensures { Puts (S.state self.entry.sink.now) (S.state self.exit.0.now) result self.entry.held }
    {
        let Buffered { sink, held } = self;
        put_all(sink, held.bytes())
    }
}

impl<S: Sink> Sink for Buffered<'_, S> {
    ghost state = { λ b. buffered (S.state b.sink.now) b.sink.ghost_name b.held };

    fn push(&mut self, bytes: &[u8]) -> Result<usize, WriteFault> {
        if self.sink.failed() {
            return Err(WriteFault);
        }
        let n = self.held.add(bytes);
        if n > 0 {
            return Ok(n);
        }
        self.flush()?;
        Ok(self.held.add(bytes))
    }

    fn failed(&self) -> bool {
        self.sink.failed()
    }
}
