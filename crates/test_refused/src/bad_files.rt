//! Runs of the program with files that are missing, that can't be read to their ends, or that are damaged: one of them, or several at
//! once. The first one that can't be read is reported, else the first damaged one.
use crate::run_files::{FILES, bytes_of};
use crate::runs::{Begun, Left, Manners, Run, left_by, sound};
use std::test::Fail;
use test_faults::words_of;

/// The names of each file: of a sound one, of a damaged one with what is reported of it, and of one that is missing.
const NAMES: [(&[u8], &[u8], &[u8], &[u8]); 4] = [
    (
        b"sizes",
        b"bad_sizes",
        b"bedkeep: bad_sizes: line 1: bad length\n",
        b"no_sizes",
    ),
    (
        b"records",
        b"bad_records",
        b"bedkeep: bad_records: line 1: unknown sequence\n",
        b"no_records",
    ),
    (
        b"second",
        b"bad_second",
        b"bedkeep: bad_second: line 1: start is not a number\n",
        b"no_second",
    ),
    (
        b"bases",
        b"bad_bases",
        b"bedkeep: bad_bases: line 2: bad base\n",
        b"no_bases",
    ),
];

/// Runs, whose files are read in the order of their arguments; in how many ways these can be chosen, and the script.
const RUNS: [(&[u8], u32, &[u8]); 7] = [
    (b"merge -g sizes -i records", 9, b""),
    (b"complement -g sizes -i records", 9, b""),
    (b"cluster -g sizes -i records", 9, b""),
    (b"intersect -g sizes -a records -b second", 27, b""),
    (b"subtract -g sizes -a records -b second", 27, b""),
    (b"getfasta -g sizes -bed records -fi bases", 27, b""),
    (
        b"session -g sizes -i records -b second -fi bases",
        81,
        b"open\ti\tintersect -u\nprint\ti\nopen\tf\tgetfasta -tab\nprint\tf\n",
    ),
];

/// The name that a word is replaced by, if it is that of a sound file, and a number: its last digit says which of three.
fn replaced(word: &[u8], number: u32) -> Option<&'static [u8]> {
    let (_, damaged, _, missing) = NAMES.iter().find(|names| names.0 == word)?;
    match number % 3 {
        0 => None,
        1 => Some(*damaged),
        _ => Some(*missing),
    }
}

/// Whether a word is the name of a sound file.
fn is_file(word: &[u8]) -> bool {
    NAMES.iter().any(|names| names.0 == word)
}

/// The arguments with their files replaced as the digits of a number say.
fn chosen(rt: &HostRuntime, arguments: &[u8], number: u32) -> Result<Vec<u8>, Fail> {
    let mut text = Vec::new(rt.alloc());
    let mut left = number;
    for word in arguments.split(|byte| *byte == b' ') {
        if !text.is_empty() {
            text.push(b' ')?;
        }
        text.extend_from_slice(replaced(word, left).unwrap_or(word))?;
        if is_file(word) {
            left /= 3;
        }
    }
    Ok(text)
}

/// What is reported of a file of which so many bytes can be read: its end is seen after all of them alone.
fn is_unreadable(word: &[u8], good: usize) -> bool {
    let is_missing = NAMES.iter().any(|names| names.3 == word);
    is_missing || bytes_of(&FILES, Some(word)).is_some_and(|bytes| bytes.len() >= good)
}

/// What is reported of a damaged file.
fn damage_of(word: &[u8]) -> Option<&'static [u8]> {
    let names = NAMES.iter().find(|names| names.1 == word)?;
    Some(names.2)
}

/// Whether a run of files of which so many bytes can be read ended as it is to. If it is done it left what that of sound files did.
fn is_right(
    rt: &HostRuntime,
    arguments: &[u8],
    good: usize,
    left: &Left<'_>,
    whole: &Left<'_>,
) -> Result<bool, Fail> {
    let words = words_of(rt.alloc(), arguments)?;
    let messages = left.messages.taken();
    let (status, output) = (left.ended.status(), left.output.taken());
    if let Some(name) = words.iter().find(|word| is_unreadable(word, good)) {
        let message = [b"bedkeep: ", *name, b": cannot be read\n"].concat(rt.alloc())?;
        return Ok(status == 4 && output.is_empty() && messages == message.as_slice());
    }
    Ok(match words.iter().find_map(|word| damage_of(word)) {
        Some(damage) => status == 3 && output.is_empty() && messages == damage,
        None => status == 0 && output == whole.output.taken() && messages.is_empty(),
    })
}

/// Whether a run of these arguments does so.
fn ends_so(rt: &HostRuntime, run: &Run<'_>, good: usize, whole: &Left<'_>) -> Result<bool, Fail> {
    let manners = Manners {
        files: good,
        ..sound(7)
    };
    let left = left_by(rt, rt.alloc(), run, run.script, manners)?;
    is_right(rt, run.arguments, good, &left, whole)
}

/// How many bytes of each file can be read: none; less than a sound file has, and just as many, by the lengths of the files in their
/// order; and all.
const GOOD: [usize; 9] = [0, 13, 17, 25, 31, 32, 33, 45, 1_000];

/// Fails unless it does so however many bytes can be read.
fn check(rt: &HostRuntime, run: &Run<'_>, whole: &Left<'_>) -> Result<(), Fail> {
    for good in GOOD {
        if !ends_so(rt, run, good, whole)? {
            return Err(Fail::new("another end"));
        }
    }
    Ok(())
}

/// The same of a run of all choices of its files.
fn check_all(rt: &HostRuntime, run: &Run<'_>, ways: u32) -> Result<(), Fail> {
    let whole = left_by(rt, rt.alloc(), run, run.script, sound(7))?;
    for number in 0..ways {
        let text = chosen(rt, run.arguments, number)?;
        let arguments = text.as_slice();
        check(rt, &Run { arguments, ..*run }, &whole)?;
    }
    Ok(())
}

#[test]
fn files_that_are_missing_unreadable_or_damaged(rt: HostRuntime) -> Result<(), Fail> {
    for (arguments, ways, script) in RUNS {
        let run = Run {
            begun: Begun::Program,
            arguments,
            files: &FILES,
            script,
        };
        check_all(&rt, &run, ways)?;
    }
    Ok(())
}
