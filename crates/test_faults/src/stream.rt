//! A reader and writer for tests, which goes wrong at one call or after so many bytes.
ghost use Rattle.std.specs.Prelude.{◌≤◌, IfOk};

use std::alloc::Global;
use std::io;
use std::io::{ErrorKind, Read, Write};

/// How a call goes wrong.
#[derive(Clone, Copy)]
pub enum Bad {
    Fails(ErrorKind),
    /// It takes or gives nothing, and answers 0.
    Nothing,
}

/// Calls that fail.
pub const FAILURES: [Bad; 3] = [
    Bad::Fails(ErrorKind::BrokenPipe),
    Bad::Fails(ErrorKind::Interrupted),
    Bad::Fails(ErrorKind::WouldBlock),
];

/// How a stream behaves.
#[derive(Clone, Copy)]
pub struct Manner {
    /// How many bytes it gives or takes at once.
    pub piece: usize,
    /// After how many bytes in all it fails.
    pub good: usize,
    /// Which of its calls goes wrong, from 1 on; none, if it is 0.
    pub number: u32,
    pub bad: Bad,
}

impl Manner {
    /// That of a stream that never goes wrong, in pieces of so many bytes.
    pub const fn sound(piece: usize) -> Manner {
        Manner {
            piece,
            good: usize::MAX,
            number: 0,
            bad: Bad::Nothing,
        }
    }
}

/// A reader of a text and a writer that keeps what it takes.
#[derive(Drop)]
pub struct Stream<'a> {
    text: &'a [u8],
    taken: Vec<u8>,
    manner: Manner,
    moved: usize,
    calls: u32,
    /// The number of the last call that went wrong; 0, if none did.
    wrong: u32,
}

impl<'a> Stream<'a> {
    pub fn new(alloc: Global, text: &'a [u8], manner: Manner) -> Stream<'a> {
        Stream {
            text,
            taken: Vec::new(alloc),
            manner,
            moved: 0,
            calls: 0,
            wrong: 0,
        }
    }

    /// All that was written to it.
    pub fn taken(&self) -> &[u8] {
        self.taken.as_slice()
    }

    /// How many bytes it has given and taken.
    pub fn moved(&self) -> usize {
        self.moved
    }

    /// How often it was called.
    pub fn calls(&self) -> u32 {
        self.calls
    }

    /// The number of the last of its calls that went wrong; 0, if none did.
    pub fn wrong(&self) -> u32 {
        self.wrong
    }

    /// A call that goes wrong.
    fn go_wrong(&mut self, bad: Bad) -> io::Result<usize>
        ensures { IfOk result (λ n. n ≤ 0) }
    {
        self.wrong = self.calls;
        match bad {
            Bad::Fails(kind) => Err(kind.into()),
            Bad::Nothing => Ok(0),
        }
    }

    /// One more call, for this number of bytes: how many of them are given or taken.
    fn call(&mut self, count: usize) -> io::Result<usize>
        ensures { IfOk result (λ n. n ≤ count) }
    {
        self.calls = self.calls.saturating_add(1);
        if self.calls == self.manner.number {
            return self.go_wrong(self.manner.bad);
        }
        let left = self.manner.good.saturating_sub(self.moved);
        if left == 0 {
            return self.go_wrong(Bad::Fails(ErrorKind::BrokenPipe));
        }
        let n = count.min(left).min(self.manner.piece.max(1));
        self.moved = self.moved.saturating_add(n);
        Ok(n)
    }
}

impl Read for Stream<'_> {
    fn read(&mut self, buf: &mut [u8]) -> io::Result<usize> {
        let text = self.text;
        let n = self.call(text.len().min(buf.len()))?;
        buf[..n].copy_from_slice(&text[..n]);
        self.text = &text[n..];
        Ok(n)
    }
}

impl Write for Stream<'_> {
    fn write(&mut self, buf: &[u8]) -> io::Result<usize> {
        let n = self.call(buf.len())?;
        match self.taken.extend_from_slice(&buf[..n]) {
            Ok(()) => Ok(n),
            Err(_) => Err(ErrorKind::OutOfMemory.into()),
        }
    }

    fn flush(&mut self) -> io::Result<()> {
        Ok(())
    }
}
