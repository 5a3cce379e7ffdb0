//! Sinks and sources over std's writers and readers.
ghost use Rattle.std.specs.Prelude.{◌≡◌, false};
ghost use Rattle.iv_bytes.specs.Sinks.{unbuffered};

use crate::sink::{Flush, Sink, WriteFault};
use crate::source::{ReadFault, Source, counted};
use std::io::{Read, Write};

/// A sink over a writer. An error of its `write` or its `flush`, an interruption included, and an answer of 0 are failures.
#[derive(Drop)]
pub struct StdSink<W> {
    writer: W,
    failed: bool,
}

impl<W: Write> StdSink<W> {
    /// It is not failed.
    pub fn new(writer: W) -> StdSink<W>
        ensures { (result.writer ≡ writer) × (result.failed ≡ false) }
    {
        StdSink {
            writer,
            failed: false,
        }
    }
}

impl<W: Write> Sink for StdSink<W> {
    ghost state = { λ s. unbuffered (W.contents s.writer) s.failed };

    fn push(&mut self, bytes: &[u8]) -> Result<usize, WriteFault> {
        if self.failed {
            return Err(WriteFault);
        }
        match self.writer.write(bytes) {
            Ok(n) if n > 0 => Ok(n),
            _ => {
                self.failed = true;
                Err(WriteFault)
            }
        }
    }

    fn failed(&self) -> bool {
        self.failed
    }
}

impl<W: Write> Flush for StdSink<W> {
    fn flush(&mut self) -> Result<(), WriteFault> {
        match self.writer.flush() {
            Ok(()) => Ok(()),
            Err(_) => {
                self.failed = true;
                Err(WriteFault)
            }
        }
    }
}

/// A source over a reader. An error of its `read`, an interruption included, is a failure.
#[derive(Drop)]
pub struct StdSource<R> {
    reader: R,
    failed: bool,
    ends: u8,
}

impl<R: Read> StdSource<R> {
    /// It is not failed, and hasn't met the end.
    pub fn new(reader: R) -> StdSource<R>
        ensures { (result.reader ≡ reader) × (result.failed ≡ false) × (result.ends ≡ 0) }
    {
        StdSource {
            reader,
            failed: false,
            ends: 0,
        }
    }
}

impl<R: Read> Source for StdSource<R> {
    ghost state = { λ s. record { remaining = R.remaining s.reader; failed = s.failed; ends = s.ends } };

    fn pull(&mut self, into: &mut [u8]) -> Result<usize, ReadFault> {
        if self.failed {
            return Err(ReadFault);
        }
        match self.reader.read(into) {
            Ok(n) => {
                self.ends = counted(self.ends, n);
                Ok(n)
            }
            Err(_) => {
                self.failed = true;
                Err(ReadFault)
            }
        }
    }

    fn failed(&self) -> bool {
        self.failed
    }
}
