//! The back of a row, laid from its end.
ghost use Rattle.std.specs.Prelude.{◌≡◌, ◌+◌, ◌<◌, ◌≤◌, ◌∷◌, ◌++◌, [], codes, decimal, length};
ghost use Rattle.iv_bytes.specs.Sinks.{Puts};
ghost use Rattle.iv_lines.specs.RecordText.{interval_text};

use itoa::write_digits;
use iv_bytes::{Sink, WriteFault, put_all};
use std::marker::Model;

/// How many bytes there is room for.
const ROOM: usize = 192;

/// The back of a row, laid from its last byte towards its first: at most 192 bytes, on the stack.
///
/// So a number is written where it belongs, and a row is put as a whole. Written directly into the output it takes no less time: the
/// number of digits has to be known first, and each piece needs a look at the room that is left. The buffer is lent to whatever
/// writes a row: handing it over would copy its array.
#[derive(Drop)]
pub struct RowBuffer {
    // What is laid is at the end, from `start` on.
    bytes: [u8; 192],
    start: usize,
}

impl Model for RowBuffer {
    ghost use Rattle.std.specs.Prelude.{List, ℕ, ◌≤◌, drop};

    ghost Value = { List ℕ };

    ghost view = { λ t. drop t.start t.bytes };

    ghost invariant = { λ t. t.start ≤ 192 };
}

impl RowBuffer {
    /// Nothing yet.
    pub fn new() -> RowBuffer
        ensures { result ≡ [] }
    {
        RowBuffer {
            bytes: [0; 192],
            start: ROOM,
        }
    }

    /// How many bytes are laid.
    pub fn len(&self) -> usize
        ensures { result ≡ length self.now }
    {
        ROOM - self.start
    }

    /// The bytes that are laid.
    pub fn as_slice(&self) -> &[u8]
        ensures { result.now ≡ self.now }
    {
        &self.bytes[self.start..]
    }

    /// Lays a byte in front of what is laid.
    pub fn prepend_byte(&mut self, byte: u8)
        requires { length self.old < 192 }
        ensures { self.new ≡ byte ∷ self.old }
    {
        self.start -= 1;
        self.bytes[self.start] = byte;
    }

    /// Lays a number in decimal in front of what is laid.
    pub fn prepend_number(&mut self, number: u64)
        requires { length self.old + 20 ≤ 192 }
        ensures laid { self.new ≡ decimal number ++ self.old }
        ensures short { length self.new ≤ length self.old + 20 }
    {
        self.start = write_digits(number, &mut self.bytes, self.start);
    }

    /// Lays a piece in front of what is laid.
    pub fn prepend(&mut self, piece: &[u8])
        requires { length piece.now + length self.old ≤ 192 }
        ensures { self.new ≡ piece.now ++ self.old }
    {
        let end = self.start;
        self.start = end - piece.len();
        self.bytes[self.start..end].copy_from_slice(piece);
    }

    /// Puts a front and what is laid after it, as a whole if there is room for both.
    ///
    /// On a fault the sink has taken a prefix of them. The buffer's bytes afterwards are unspecified.
    pub fn put_after<S: Sink>(&mut self, front: &[u8], sink: &mut S) -> Result<(), WriteFault>
        ensures { Puts (S.state sink.old) (S.state sink.new) result (front.now ++ self.old) }
    {
        if front.len() > self.start {
            put_all(sink, front)?;
            return put_all(sink, self.as_slice());
        }
        self.prepend(front);
        put_all(sink, self.as_slice())
    }

    /// Puts a name, two numbers, such as the start and the stop of an interval, and what is laid: with a TAB between two of the
    /// three, and as a whole if there is room for all.
    ///
    /// On a fault the sink has taken a prefix of them. The buffer's bytes afterwards are unspecified.
    pub fn put_after_numbers<S: Sink>(
        &mut self,
        name: &[u8],
        first: u64,
        second: u64,
        sink: &mut S,
    ) -> Result<(), WriteFault>
        requires { length self.old + 42 ≤ 192 }
        ensures { Puts (S.state sink.old) (S.state sink.new) result (interval_text name.now first second ++ self.old) }
    {
        self.prepend_number(second);
        self.prepend_byte(b'\t');
        self.prepend_number(first);
        self.prepend_byte(b'\t');
        self.put_after(name, sink)
    }
}

/// Puts the row of an interval, 0-based and half-open: the name of its sequence, start and stop.
///
/// It takes no memory. On a fault the sink has taken a prefix of the row.
pub fn put_interval<S: Sink>(
    name: &[u8],
    start: u64,
    stop: u64,
    sink: &mut S,
) -> Result<(), WriteFault>
    ensures { Puts (S.state sink.old) (S.state sink.new) result (interval_text name.now start stop ++ codes "\n") }
{
    let mut end = RowBuffer::new();
    end.prepend_byte(b'\n');
    end.put_after_numbers(name, start, stop, sink)
}
