//! The fronts of files, kept while they are read, and what else of a file is looked at.
ghost use Rattle.std.specs.Prelude.{◌≡◌};

use crate::hints::Hints;
use crate::text::{count_columns, first_record};
use iv_args::{Plan, Slot};
use iv_bytes::{ReadFault, Source};
use iv_lines::lines_of;
use std::alloc::AllocError;
use std::fs::{File, metadata};
use std::io::{self, BufRead, BufReader, ErrorKind, Read};
use std::str::from_utf8;

/// How many bytes are kept of a file.
const MOST_BYTES: usize = 1_048_576;

/// How many bytes of a line are read again.
const MOST_LINE_BYTES: u64 = 4096;

/// The front of a file.
#[derive(Drop)]
pub(crate) struct KeptFile {
    name: Vec<u8>,
    /// What it is, or why it isn't opened, as the table calls it.
    kind: &'static [u8],
    bytes: Vec<u8>,
}

impl KeptFile {
    /// Nothing so far of the file of this name, which was opened, or not.
    pub(crate) fn new(
        rt: &HostRuntime,
        name: &str,
        opened: &io::Result<File>,
    ) -> Result<KeptFile, AllocError> {
        let kind: &'static [u8] = match (opened, metadata(rt, name)) {
            (Err(error), _) if error.kind() == ErrorKind::NotFound => b"missing",
            (_, Ok(known)) if known.is_file() => b"file",
            (_, Ok(known)) if known.is_dir() => b"directory",
            _ => b"pipe",
        };
        Ok(KeptFile {
            name: name.as_bytes().to_vec(rt.alloc())?,
            kind,
            bytes: Vec::new(rt.alloc()),
        })
    }

    /// Keeps what follows, as far as there is room and memory.
    pub(crate) fn keep(&mut self, piece: &[u8]) {
        let room = MOST_BYTES.saturating_sub(self.bytes.len());
        let _ = self
            .bytes
            .extend_from_slice(piece.get(..room).unwrap_or(piece));
    }
}

/// A source of which the front is kept, if hints are wanted.
#[derive(Drop)]
pub struct KeptSource<'a, R> {
    source: R,
    hints: Hints<'a>,
}

impl<'a, R: Source> KeptSource<'a, R> {
    /// A source of which nothing was read.
    pub fn new(source: R, hints: Hints<'a>) -> KeptSource<'a, R>
        ensures { result.source ≡ source }
    {
        KeptSource { source, hints }
    }
}

impl<R: Source> Source for KeptSource<'_, R> {
    ghost state = { λ s. R.state s.source };

    fn pull(&mut self, into: &mut [u8]) -> Result<usize, ReadFault> {
        let count = self.source.pull(into)?;
        self.hints.keep(&into[..count]);
        Ok(count)
    }

    fn failed(&self) -> bool {
        self.source.failed()
    }
}

/// The files of a run, if its arguments ask for one.
#[derive(Drop)]
pub(crate) struct RunFiles<'a> {
    pub(crate) rt: &'a HostRuntime,
    pub(crate) plan: Option<Plan<'a>>,
    pub(crate) kept: &'a [KeptFile],
}

impl<'a> RunFiles<'a> {
    /// Whether the run has a script.
    pub(crate) fn have_script(&self) -> bool {
        self.plan.as_ref().is_some_and(|plan| plan.is_script())
    }

    /// The name of a file, empty if the run has none.
    pub(crate) fn name(&self, slot: Slot) -> &'a [u8] {
        let plan = self.plan.as_ref();
        plan.and_then(|plan| plan.file(slot)).unwrap_or(b"")
    }

    /// What was kept of a file.
    fn kept(&self, slot: Slot) -> Option<&'a KeptFile> {
        let name = self.name(slot);
        self.kept.iter().find(|file| file.name.as_slice() == name)
    }

    /// What a file is, or why it wasn't opened.
    pub(crate) fn kind(&self, slot: Slot) -> &'static [u8] {
        self.kept(slot).map_or(b"", |file| file.kind)
    }

    /// The front of a file.
    pub(crate) fn front(&self, slot: Slot) -> &'a [u8] {
        self.kept(slot).map_or(b"", |file| file.bytes.as_slice())
    }

    /// Whether the front of a file is all of it.
    pub(crate) fn is_whole(&self, slot: Slot) -> bool {
        self.front(slot).len() < MOST_BYTES
    }

    /// The width of the records of a file.
    pub(crate) fn width(&self, slot: Slot) -> usize {
        match (first_record(self.front(slot)), &self.plan) {
            (b"", Some(plan)) => plan.width() as usize,
            (record, _) => count_columns(record),
        }
    }

    /// The line of this number, counted from 1, of a file, without its end; nothing if it isn't known. It is read again if it wasn't kept.
    pub(crate) fn line(&self, slot: Slot, number: u64) -> Result<Vec<u8>, AllocError> {
        let before = number.saturating_sub(1);
        let mut line = Vec::new(self.rt.alloc());
        if self.kind(slot) == b"file".as_slice() && !self.is_whole(slot) {
            let _ = self.read_line(slot, before, &mut line);
        } else {
            let found = lines_of(self.front(slot)).nth(before.min(MOST_BYTES as u64) as usize);
            line.extend_from_slice(found.unwrap_or(b""))?;
        }
        Ok(line)
    }

    /// Reads the front of the line after so many lines of a file.
    fn read_line(&self, slot: Slot, before: u64, line: &mut Vec<u8>) -> io::Result<()> {
        let name = from_utf8(self.name(slot)).unwrap_or("");
        let mut reader = BufReader::new(self.rt.alloc(), File::open(self.rt, name)?)?;
        for _ in 0..before {
            reader.skip_until(b'\n')?;
        }
        reader.take(MOST_LINE_BYTES).read_until(b'\n', line)?;
        if line.as_slice().ends_with(b"\n") {
            let _ = line.pop();
        }
        Ok(())
    }
}
