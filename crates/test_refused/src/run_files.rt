//! The files of runs.
use iv_program::NamedBytes;
use std::test::Fail;

/// A genome of two sequences, of 100 bases and of 50, records and bases on it, and files with a fault.
pub(crate) const FILES: [NamedBytes<'static>; 9] = [
    NamedBytes {
        name: b"sizes",
        bytes: b"chr1\t100\nchr2\t50\n",
    },
    NamedBytes {
        name: b"bad_sizes",
        bytes: b"chr1\t12x\n",
    },
    NamedBytes {
        name: b"records",
        bytes: b"chr1\t10\t20\nchr1\t15\t30\nchr2\t2\t6\n",
    },
    // The damage is in the first line, so that the file can fail after it was seen.
    NamedBytes {
        name: b"bad_records",
        bytes: b"chr9\t10\t20\nchr1\t15\t30\nchr2\t2\t6\n",
    },
    NamedBytes {
        name: b"second",
        bytes: b"chr1\t12\t18\nchr1\t25\t40\nchr1\t50\t60\n",
    },
    NamedBytes {
        name: b"bad_second",
        bytes: b"chr1\t12x\t18\nchr1\t25\t40\nchr1\t50\t60\n",
    },
    NamedBytes {
        name: b"bases",
        bytes: b">chr2\nACGTACGTACGTACGTACGTACGTACGTACGTACGTACGTACGTACGTAC\n",
    },
    NamedBytes {
        name: b"bad_bases",
        bytes: b">chr2\nAC GTACGTACGTACGTACGTACGTACGTACGTACGTACGTACGTACGTA\n",
    },
    NamedBytes {
        name: b"named",
        bytes: b"chr1\t10\t20\ta\t7\t-\nchr2\t2\t6\tb\t0.5\t+\n",
    },
];

/// The bytes of a file, if there is one of this name.
pub(crate) fn bytes_of<'t>(files: &[NamedBytes<'t>], name: Option<&[u8]>) -> Option<&'t [u8]> {
    let name = name?;
    let file = files.iter().find(|file| file.name == name)?;
    Some(file.bytes)
}

/// Lines that are alike except for a number between two texts, from 0 on; so many of them.
pub(crate) fn lines(rt: &HostRuntime, front: &str, count: u32, back: &str) -> Result<String, Fail> {
    let mut text = String::new(rt.alloc());
    for number in 0..count {
        text.push_str(format!(in rt.alloc(); "{front}{number}{back}")?.as_str())?;
    }
    Ok(text)
}

/// The lines of thirty records of five bases, one in each ten bases from a start on, the last one first, with this after each.
fn records(rt: &HostRuntime, first: u32, back: &str) -> Result<String, Fail> {
    let mut text = String::new(rt.alloc());
    for after in 0..30u32 {
        let start = first.saturating_add((29 - after).saturating_mul(10));
        let stop = start.saturating_add(5);
        text.push_str(format!(in rt.alloc(); "chr1\t{start}\t{stop}{back}\n")?.as_str())?;
    }
    Ok(text)
}

/// Files of thirty records, of which the last one comes first. Each of the second file covers the last two bases of one of the first.
#[derive(Drop)]
pub(crate) struct ThirtyRecords {
    records: String,
    named: String,
    second: String,
    bases: String,
}

impl ThirtyRecords {
    pub(crate) fn new(rt: &HostRuntime) -> Result<ThirtyRecords, Fail> {
        let mut bases = String::new(rt.alloc());
        bases.push_str(">chr1 of the genome\n")?;
        for _ in 0..30 {
            bases.push_str("ACGTNacgtR\n")?;
        }
        bases.push_str(">chr9 of none\nAC\n")?;
        Ok(ThirtyRecords {
            records: records(rt, 0, "")?,
            named: records(rt, 0, "\tn\t0\t-")?,
            second: records(rt, 3, "")?,
            bases,
        })
    }

    /// The files, by the names that the smaller ones have.
    pub(crate) fn files(&self) -> [NamedBytes<'_>; 5] {
        [
            NamedBytes {
                name: b"sizes",
                bytes: b"chr1\t300\nchr2\t50\n",
            },
            NamedBytes {
                name: b"records",
                bytes: self.records.as_bytes(),
            },
            NamedBytes {
                name: b"named",
                bytes: self.named.as_bytes(),
            },
            NamedBytes {
                name: b"second",
                bytes: self.second.as_bytes(),
            },
            NamedBytes {
                name: b"bases",
                bytes: self.bases.as_bytes(),
            },
        ]
    }
}
