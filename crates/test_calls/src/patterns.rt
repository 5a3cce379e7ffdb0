//! Files of many records that are ten bases apart, and what views print of them.
use std::test::Fail;

/// How many records a file has.
pub(crate) const ROWS: u32 = 20_000;

/// A genome that has room for them, and a sequence without a record.
pub(crate) const GENOME: &[u8] = b"big\t200000\nother\t50\n";

/// Rows that are alike, each ten bases after the one before.
#[derive(Clone, Copy)]
pub(crate) struct Pattern<'a> {
    /// What is before the start.
    front: &'a str,
    /// The start and the stop of the first row.
    place: (u32, u32),
    /// What is between start and stop.
    between: &'a str,
    /// What is after the stop.
    tail: &'a str,
    /// Whether the row's number, from 1, is after that.
    numbered: bool,
}

/// Puts a number at the end of a text.
fn push_number(rt: &HostRuntime, text: &mut String, number: u32) -> Result<(), Fail> {
    let digits = format!(in rt.alloc(); "{number}")?;
    Ok(text.push_str(digits.as_str())?)
}

impl Pattern<'_> {
    /// Puts the row that has so many before it at the end of a text, without its LF.
    pub(crate) fn push_row(
        &self,
        rt: &HostRuntime,
        text: &mut String,
        before: u32,
    ) -> Result<(), Fail> {
        let on = before.saturating_mul(10);
        text.push_str(self.front)?;
        push_number(rt, text, self.place.0.saturating_add(on))?;
        text.push_str(self.between)?;
        push_number(rt, text, self.place.1.saturating_add(on))?;
        text.push_str(self.tail)?;
        if self.numbered {
            push_number(rt, text, before.saturating_add(1))?;
        }
        Ok(())
    }

    /// Puts the rows from one number on to another at the end of a text.
    pub(crate) fn push_rows(
        &self,
        rt: &HostRuntime,
        text: &mut String,
        rows: (u32, u32),
    ) -> Result<(), Fail> {
        for before in rows.0..rows.1 {
            self.push_row(rt, text, before)?;
            text.push_str("\n")?;
        }
        Ok(())
    }

    /// All rows, the last one first.
    pub(crate) fn rows_back(&self, rt: &HostRuntime) -> Result<String, Fail> {
        let mut text = String::new(rt.alloc());
        for after in 0..ROWS {
            self.push_row(rt, &mut text, ROWS - 1 - after)?;
            text.push_str("\n")?;
        }
        Ok(text)
    }

    /// All rows.
    pub(crate) fn rows(&self, rt: &HostRuntime) -> Result<String, Fail> {
        let mut text = String::new(rt.alloc());
        self.push_rows(rt, &mut text, (0, ROWS))?;
        Ok(text)
    }

    /// One row without its LF.
    pub(crate) fn row(&self, rt: &HostRuntime, before: u32) -> Result<String, Fail> {
        let mut text = String::new(rt.alloc());
        self.push_row(rt, &mut text, before)?;
        Ok(text)
    }
}

/// Rows that begin with sequence, start and stop.
pub(crate) fn places(from: u32, to: u32, tail: &str, numbered: bool) -> Pattern<'_> {
    Pattern {
        front: "big\t",
        place: (from, to),
        between: "\t",
        tail,
        numbered,
    }
}

/// A view of the records, and what it prints.
#[derive(Clone, Copy)]
pub(crate) struct Case<'a> {
    pub(crate) name: &'a str,
    /// Its arguments, separated by spaces.
    pub(crate) view: &'a [u8],
    /// The arguments that name the files of its run.
    pub(crate) files: &'a [u8],
    pub(crate) printed: Pattern<'a>,
    /// What is printed after the rows of the pattern.
    pub(crate) last: &'a str,
}

/// A view that prints these rows of the first file.
fn alone<'a>(name: &'a str, view: &'a [u8], printed: Pattern<'a>) -> Case<'a> {
    Case {
        name,
        view,
        files: b" -g g -i a",
        printed,
        last: "",
    }
}

/// The same beside the second file.
fn beside<'a>(name: &'a str, view: &'a [u8], printed: Pattern<'a>) -> Case<'a> {
    Case {
        files: b" -g g -a a -b b",
        ..alone(name, view, printed)
    }
}

/// The records: each has five bases, and a gap of five after it.
pub(crate) fn records<'a>() -> Pattern<'a> {
    places(0, 5, "\tn\t0\t-", false)
}

/// The records of the second file: each covers the last two bases of a record of the first one, and three of the gap.
pub(crate) fn second_records<'a>() -> Pattern<'a> {
    places(3, 8, "", false)
}

/// A view of each kind. The region from the start of one record to that of another shows the rows between.
pub(crate) fn cases() -> [Case<'static>; 13] {
    let plain = places(0, 5, "", false);
    let gaps = places(5, 10, "", false);
    let bases = Pattern {
        front: ">big:",
        between: "-",
        ..places(0, 5, "(-)\nNACGT", false)
    };
    [
        alone("m", b"merge", plain),
        alone("s", b"merge -s", plain),
        alone("o", b"merge -c 4 -o collapse", places(0, 5, "\tn", false)),
        Case {
            last: "other\t0\t50\n",
            ..alone("c", b"complement", gaps)
        },
        alone("l", b"complement -L", gaps),
        alone("g", b"genomecov -bg", places(0, 5, "\t1", false)),
        alone("k", b"cluster", places(0, 5, "\tn\t0\t-\t", true)),
        alone("r", b"records", records()),
        beside("i", b"intersect", places(3, 5, "\tn\t0\t-", false)),
        beside("u", b"intersect -u", records()),
        beside("n", b"intersect -c", places(0, 5, "\tn\t0\t-\t1", false)),
        beside("d", b"subtract", places(0, 3, "\tn\t0\t-", false)),
        Case {
            files: b" -g g -bed a -fi f",
            ..alone("f", b"getfasta -s", bases)
        },
    ]
}

impl Case<'_> {
    /// Puts all that the view prints at the end of a text.
    pub(crate) fn push_all(&self, rt: &HostRuntime, text: &mut String) -> Result<(), Fail> {
        self.printed.push_rows(rt, text, (0, ROWS))?;
        Ok(text.push_str(self.last)?)
    }

    /// The same alone.
    pub(crate) fn all(&self, rt: &HostRuntime) -> Result<String, Fail> {
        let mut text = String::new(rt.alloc());
        self.push_all(rt, &mut text)?;
        Ok(text)
    }

    /// Puts the line above the view's text at the end of a text.
    pub(crate) fn push_heading(&self, text: &mut String) -> Result<(), Fail> {
        text.push_str("#")?;
        text.push_str(self.name)?;
        Ok(text.push_str("\n")?)
    }
}

/// The files of the cases.
#[derive(Drop)]
pub(crate) struct Texts {
    /// The first file, the last record first.
    pub(crate) first: String,
    /// The second file.
    pub(crate) second: String,
    /// The FASTA file: the first sequence has five bases of each record, and five after them.
    pub(crate) bases: String,
}

/// The FASTA file of the cases, with a sequence that the genome lacks.
fn bases(rt: &HostRuntime) -> Result<String, Fail> {
    let mut text = String::new(rt.alloc());
    text.push_str(">big of the genome\n")?;
    for _ in 0..ROWS {
        text.push_str("ACGTNacgtR\n")?;
    }
    text.push_str(">none\nAC\n")?;
    Ok(text)
}

/// Those files.
pub(crate) fn long_files(rt: &HostRuntime) -> Result<Texts, Fail> {
    Ok(Texts {
        first: records().rows_back(rt)?,
        second: second_records().rows(rt)?,
        bases: bases(rt)?,
    })
}
