//! The hints of a run, and what is kept of it for them.
use crate::endings::hint_of_ending;
use crate::facts::Facts;
use crate::files::{KeptFile, RunFiles};
use crate::hint::Hint;
use crate::refusals::hint_of_refusal;
use iv_args::Plan;
use iv_bytes::{StdSink, put_all};
use iv_lines::Fault;
use iv_run::ExitReason;
use iv_session::SeesRefusals;
use std::alloc::{AllocError, Global};
use std::cell::RefCell;
use std::env;
use std::fs::File;
use std::io::IsTerminal;
use std::str::from_utf8;

/// How many refused lines of one kind have a whole hint.
const MOST_OF_A_KIND: u8 = 3;

/// What is kept of a run.
#[derive(Drop)]
pub struct Seen {
    files: Vec<KeptFile>,
    /// How many lines were refused with each fault, by the number of its message.
    counts: [u8; 25],
}

impl Seen {
    /// Nothing was seen so far.
    pub fn new(rt: &HostRuntime) -> Seen {
        Seen {
            files: Vec::new(rt.alloc()),
            counts: [0; 25],
        }
    }

    /// Counts a refused line, and says whether it is one of the first three of its kind.
    fn count(&mut self, code: u8) -> bool {
        match self.counts.get_mut(code as usize) {
            Some(count) => {
                *count = count.saturating_add(1);
                *count <= MOST_OF_A_KIND
            }
            None => false,
        }
    }
}

/// The hints of a run with these words after the program's name. It is no loss if one can't be written, or has no memory.
#[derive(Clone, Copy)]
pub struct Hints<'a> {
    rt: &'a HostRuntime,
    words: &'a [&'a [u8]],
    are_wanted: bool,
    seen: &'a RefCell<Seen>,
}

impl<'a> Hints<'a> {
    /// Hints as `BEDKEEP_HINTS` says, or if standard error is a terminal. Who types a script has one at once.
    pub fn new(rt: &'a HostRuntime, words: &'a [&'a [u8]], seen: &'a RefCell<Seen>) -> Hints<'a> {
        let is_shown = rt.stderr().is_terminal();
        let mut hints = Hints {
            rt,
            words,
            are_wanted: is_shown,
            seen,
        };
        if let Ok(wish) = env::var(rt, "BEDKEEP_HINTS") {
            match wish.as_bytes() {
                b"always" => hints.are_wanted = true,
                b"never" => hints.are_wanted = false,
                b"" => {}
                wish => hints.show(hint_on(rt.alloc(), b"no_wish", wish)),
            }
        }
        let is_typed = hints.are_wanted && is_shown && rt.stdin().is_terminal();
        if is_typed && Plan::read(rt.alloc(), words).is_ok_and(|plan| plan.is_script()) {
            hints.show(hint_on(rt.alloc(), b"typed", b""));
        }
        hints
    }

    /// Shows a hint, if there is memory for it.
    fn show(self, hint: Result<Hint, AllocError>) {
        if let Ok(hint) = hint {
            let _ = put_all(&mut StdSink::new(self.rt.stderr()), hint.bytes());
        }
    }

    /// The files of the run.
    fn files<'f>(self, kept: &'f [KeptFile]) -> RunFiles<'f>
    where
        'a: 'f,
    {
        RunFiles {
            rt: self.rt,
            plan: Plan::read(self.rt.alloc(), self.words).ok(),
            kept,
        }
    }

    /// Opens a file, unless its name is no text. What is kept after that is of it.
    pub fn open(self, name: &[u8]) -> Option<File> {
        let path = from_utf8(name).ok()?;
        let opened = File::open(self.rt, path);
        if self.are_wanted
            && let Ok(mut seen) = self.seen.try_borrow_mut()
            && let Ok(file) = KeptFile::new(self.rt, path, &opened)
        {
            let _ = seen.files.push(file);
        }
        opened.ok()
    }

    /// Keeps a piece of the file that was opened last, if it is of its front.
    pub(crate) fn keep(self, piece: &[u8]) {
        if self.are_wanted
            && let Ok(mut seen) = self.seen.try_borrow_mut()
            && let Some(file) = seen.files.last_mut()
        {
            file.keep(piece);
        }
    }

    /// Shows the hint that follows a run, given the line of the script at which it ended early (0 if at none).
    pub fn end(self, exit_reason: ExitReason, line: u64) {
        if self.are_wanted
            && let Ok(seen) = self.seen.try_borrow()
        {
            let files = self.files(seen.files.as_slice());
            self.show(hint_of_ending(&files, self.words, exit_reason, line));
        }
    }
}

impl SeesRefusals for Hints<'_> {
    /// Shows the hint on a refused line of the script, of which so many columns after the command are a sound record. A line `?`, by which
    /// a program finds where an answer ends, has none, and after it the count of each kind begins again.
    fn see(&mut self, line: &[u8], fault: Fault, sound: u8) {
        let Ok(mut guard) = self.seen.try_borrow_mut() else {
            return;
        };
        let seen = &mut *guard;
        if line == b"?".as_slice() {
            seen.counts = [0; 25];
            return;
        }
        if self.are_wanted {
            let is_few = seen.count(fault.code());
            let files = self.files(seen.files.as_slice());
            self.show(hint_of_refusal(&files, line, fault, sound, is_few));
        }
    }
}

/// A hint that is the same for each mistake of its kind, but for a name.
fn hint_on(alloc: Global, on: &'static [u8], name: &[u8]) -> Result<Hint, AllocError> {
    let mut hint = Hint::new(alloc);
    Facts::new(alloc, on, &[(b"name", name)])?.put(&mut hint)?;
    Ok(hint)
}
