//! The rows of runs: of each subcommand, of scripts, and of what a run is refused for.
use crate::refused_runs::allocations;
use crate::run_files::{FILES, ThirtyRecords};
use crate::runs::{Begun, Left, Run, ended_behind_a_buffer, left_by, nothing, sound};
use crate::wrong_devices::check_devices;
use iv_program::NamedBytes;
use std::test::Fail;

/// Runs of one subcommand.
const SHOTS: [&[u8]; 14] = [
    b"merge -g sizes -i records",
    b"merge -c 1,2 -o count,collapse -g sizes -i records",
    b"merge -s -c 4 -o distinct -g sizes -i named",
    b"complement -g sizes -i records",
    b"cluster -g sizes -i records",
    b"genomecov -bg -g sizes -i records",
    b"genomecov -bga -g sizes -i records",
    b"records -g sizes -i named",
    b"intersect -g sizes -a records -b second",
    b"intersect -wb -g sizes -a records -b second",
    b"intersect -c -g sizes -a records -b second",
    b"subtract -g sizes -a named -b second",
    b"getfasta -tab -g sizes -bed records -fi bases",
    b"getfasta -s -g sizes -bed named -fi bases",
];

/// Arguments that are refused, files that can't be read or are damaged, and notices; with the status of the run.
const ENDS: [(&[u8], u8); 7] = [
    (b"merge -g sizes -i records -c 4", 2),
    (b"merge -g sizes", 2),
    (b"subtract -g sizes -a records -b bad_second", 3),
    (b"session -g sizes -i bad_records", 3),
    (b"merge -g sizes -i none", 4),
    (b"--version", 0),
    (b"help merge", 0),
];

/// A session of two columns more, with a second file and bases.
const SESSION: &[u8] = b"session -g sizes -i named -b second -fi bases";

/// Scripts whose lines print, are refused, or do neither; the second one ends its lines with CR LF, and lacks the end of the last one.
const SCRIPTS: [&[u8]; 3] = [
    b"print\tm\nopen\tm\tmerge -c 4,1 -o distinct,count\nadd\tchr1\t15\t30\tb\t0\t.\nprint\tm\n# a note that is longer than the lines before it\nremove\tchr1\t10\t20\ta\t7\t-\nprint\tm\n",
    b"open\ti\tintersect -wa -wb\r\naddb\tchr1\t90\t101\r\naddb\tchr2\t0\t3\r\nopen\tf\tgetfasta -tab\r\nprintall\r\nreplaceb\tchr1\t12\t18\tchr1\t19\t20\r\nno\r\nshow\ti\tchr1\t0\t50\r\nprint\ti",
    b"open\tm\tmerge\nopen\tc\tcluster\nresize\tchr2\t60\nreplace\tchr1\t10\t20\ta\t7\t-\tchr2\t50\t60\tc\t1\t+\nadd\tchr1\t0\t2\nprintall\nclose\tm\nprintall\n",
];

/// Fails unless a run ends with this status, and allocates, each allocation refused in turn.
fn check_memory(rt: &HostRuntime, run: &Run<'_>, status: u8, whole: &Left<'_>) -> Result<(), Fail> {
    if whole.ended.status() != status {
        return Err(Fail::new("another status"));
    }
    let is_notice = run.arguments.starts_with(b"help") || run.arguments.starts_with(b"--");
    if is_notice && whole.input.calls() != 0 {
        return Err(Fail::new("a notice that reads the script"));
    }
    if (allocations(rt, run, whole)? == 0) == is_notice {
        Ok(())
    } else {
        Err(Fail::new("no allocation, or one of a notice"))
    }
}

/// The same of a run, and of its devices unless its files are long.
fn check_run(rt: &HostRuntime, run: &Run<'_>, status: u8, is_long: bool) -> Result<(), Fail> {
    let whole = left_by(rt, rt.alloc(), run, run.script, sound(1_000))?;
    check_memory(rt, run, status, &whole)?;
    if is_long {
        return Ok(());
    }
    check_devices(rt, run, &whole)
}

/// The same of a run of these arguments.
fn check(
    rt: &HostRuntime,
    begun: Begun,
    arguments: &[u8],
    script: &[u8],
    status: u8,
) -> Result<(), Fail> {
    let run = Run {
        begun,
        arguments,
        files: &FILES,
        script,
    };
    check_run(rt, &run, status, false)
}

#[test]
fn shots(rt: HostRuntime) -> Result<(), Fail> {
    for arguments in SHOTS {
        check(&rt, Begun::Shot, arguments, b"", 0)?;
        check(&rt, Begun::Program, arguments, b"", 0)?;
    }
    Ok(())
}

#[test]
fn ends_of_runs(rt: HostRuntime) -> Result<(), Fail> {
    for (arguments, status) in ENDS {
        check(&rt, Begun::Program, arguments, b"", status)?;
    }
    Ok(())
}

#[test]
fn scripts(rt: HostRuntime) -> Result<(), Fail> {
    for script in SCRIPTS {
        check(&rt, Begun::Script, SESSION, script, 1)?;
        check(&rt, Begun::Program, SESSION, script, 1)?;
    }
    Ok(())
}

/// The same runs over these files, of which only the memory is looked at.
fn check_long<'t>(rt: &HostRuntime, files: &'t [NamedBytes<'t>]) -> Result<(), Fail> {
    for arguments in SHOTS {
        for begun in [Begun::Shot, Begun::Program] {
            let run = Run {
                begun,
                arguments,
                files,
                script: b"",
            };
            check_run(rt, &run, 0, true)?;
        }
    }
    Ok(())
}

/// So many records that what is held of a file grows, and that the trees of a session split.
#[test]
fn runs_of_thirty_records(rt: HostRuntime) -> Result<(), Fail> {
    let texts = ThirtyRecords::new(&rt)?;
    let files = texts.files();
    check_long(&rt, &files)?;
    for begun in [Begun::Script, Begun::Program] {
        let run = Run {
            begun,
            arguments: SESSION,
            files: &files,
            script: SCRIPTS[1],
        };
        check_run(&rt, &run, 1, true)?;
    }
    Ok(())
}

/// How a run ends behind a buffer above room for so many bytes, and whether it has written what there was room for.
fn flushed(
    rt: &HostRuntime,
    run: &Run<'_>,
    room: usize,
    wanted: &[u8],
) -> Result<(u8, bool), Fail> {
    let mut manners = sound(7);
    manners.output.good = room;
    let mut left = nothing(rt, run.script, manners)?;
    let ended = ended_behind_a_buffer(rt, run, &mut left)?;
    Ok((
        ended.status(),
        left.output.taken() == wanted.get(..room).unwrap_or(wanted),
    ))
}

/// The output is flushed, and reported if that fails.
#[test]
fn outputs_behind_a_buffer(rt: HostRuntime) -> Result<(), Fail> {
    for (arguments, script, rows) in [
        (
            SHOTS[0],
            b"".as_slice(),
            b"chr1\t10\t30\nchr2\t2\t6\n".as_slice(),
        ),
        (
            SESSION,
            b"open\tm\tmerge\nprint\tm\n",
            b"chr1\t10\t20\nchr2\t2\t6\n",
        ),
    ] {
        let run = Run {
            begun: Begun::Program,
            arguments,
            files: &FILES,
            script,
        };
        for room in 0..rows.len() {
            assert!(rt; flushed(&rt, &run, room, rows)? == (4, true));
        }
        assert!(rt; flushed(&rt, &run, 100, rows)? == (0, true));
    }
    Ok(())
}

/// How often a script writes to its output, and to its messages, if they take all bytes at once.
fn writes(rt: &HostRuntime, script: &[u8]) -> Result<(u32, u32), Fail> {
    let run = Run {
        begun: Begun::Script,
        arguments: SESSION,
        files: &FILES,
        script,
    };
    let left = left_by(rt, rt.alloc(), &run, script, sound(10_000))?;
    Ok((left.output.calls(), left.messages.calls()))
}

/// A message is one write, and the text of a view too; headings and texts of all views are one write together.
#[test]
fn writes_of_scripts(rt: HostRuntime) -> Result<(), Fail> {
    let prints = b"no\nopen\tm\tmerge\nprint\tm\nno\nopen\tc\tcluster\nprint\tc\n";
    assert!(rt; writes(&rt, prints)? == (2, 2));
    assert!(rt; writes(&rt, b"open\tm\tmerge\nopen\tc\tcluster\nprintall\n")? == (1, 0));
    Ok(())
}
