//! `bedkeep session -g GENOME -i RECORDS [-b RECORDS] [-fi FASTA]`: keeps a track of records by a script on standard input.
//! `bedkeep SUBCOMMAND ..`: prints one view of its files.
//!
//! It hands the arguments, the files and the standard streams over, and exits. What a run does is in `iv_program`, and `iv_hints` writes
//! hints if they are wanted.
#![tactic(auto)]

ghost use Rattle.std.specs.Prelude.{None};

use iv_bytes::{ReadFault, Source, StdSink, StdSource};
use iv_hints::{Hints, KeptSource, Seen};
use iv_program::{InputFiles, report, run_program};
use iv_run::ExitReason;
use std::cell::RefCell;
use std::env;
use std::fs::File;
use std::process::ExitCode;

/// The files of the system.
#[derive(Drop)]
struct StdFiles<'a> {
    hints: Hints<'a>,
    failed: bool,
}

impl<'a> InputFiles for StdFiles<'a> {
    type File = KeptSource<'a, StdSource<File>>;

    // What a file holds is not known, nor what happened to files.
    ghost state = { λ files. record { contents = λ _. None; events = None; failed = files.failed } };

    fn open(&mut self, name: &[u8]) -> Result<KeptSource<'a, StdSource<File>>, ReadFault> {
        let Some(file) = self.hints.open(name) else {
            self.failed = true;
            return Err(ReadFault);
        };
        Ok(KeptSource::new(StdSource::new(file), self.hints))
    }

    fn close(&mut self, file: KeptSource<'a, StdSource<File>>) {
        self.failed = file.failed() || self.failed;
    }
}

/// Runs what the arguments ask for.
fn run(rt: &HostRuntime) -> Result<u8, ExitReason> {
    let words: Vec<String> = env::args(rt)?.collect(rt.alloc())?;
    let after_program = words.iter().skip(1).map(|word| word.as_bytes());
    let names: Vec<&[u8]> = after_program.collect(rt.alloc())?;
    let seen = RefCell::new(Seen::new(rt));
    let mut hints = Hints::new(rt, names.as_slice(), &seen);
    let failed = false;
    let ended = run_program(
        rt.alloc(),
        names.as_slice(),
        &mut StdFiles { hints, failed },
        &mut StdSource::new(rt.stdin()),
        &mut StdSink::new(rt.stdout()),
        &mut StdSink::new(rt.stderr()),
        &mut hints,
    );
    hints.end(ended.exit_reason, ended.line);
    Ok(ended.status())
}

fn main(rt: HostRuntime) -> ExitCode {
    ExitCode::from(match run(&rt) {
        Ok(status) => status,
        Err(exit_reason) => report(exit_reason, b"", &mut StdSink::new(rt.stderr())),
    })
}
