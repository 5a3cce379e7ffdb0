//! The table of kinds of run and their options, which hints read.
//!
//! `scripts/test/options.py` writes the lists of options of the help texts, the man page and the completions from it, compares those of
//! the pages and of the Python package, and tries that parsing, which spells names itself (`subcommand.rt`, `flags.rt` of `iv_view`),
//! agrees.
use crate::subcommand::Subcommand;

/// What the argument after an option is.
#[derive(Clone, Copy, PartialEq, Eq)]
pub enum OptionValue {
    /// The option takes no value.
    Nothing,
    /// The name of a genome file.
    Genome,
    /// The name of a BED file.
    Bed,
    /// The name of a FASTA file.
    Fasta,
    /// A number of columns, one digit from 3 to 6.
    Width,
    /// A number of records, from 1 to 100,000,000.
    Limit,
    /// A number of bases, from 0 to 1,000,000,000.
    Distance,
    /// Numbers of columns, separated by commas.
    Columns,
    /// Operations on columns, separated by commas.
    Operations,
}

/// An option of a kind of run.
#[derive(Clone, Copy)]
pub struct OptionUsage {
    /// The argument.
    pub name: &'static [u8],
    /// What the argument after it is.
    pub value: OptionValue,
    /// What it asks for, or what its value is, in a line of a help text.
    pub meaning: &'static [u8],
}

/// An option by its name, what comes after it, and its meaning.
macro_rules! option {
    ($name:literal => $value:ident, $meaning:literal) => {
        OptionUsage {
            name: $name,
            value: OptionValue::$value,
            meaning: $meaning,
        }
    };
}

/// A kind of run and its options.
#[derive(Clone, Copy)]
pub struct RunUsage {
    pub run: Subcommand,
    /// The first argument.
    pub name: &'static [u8],
    /// What it prints or does, in a line.
    pub meaning: &'static [u8],
    /// The options that it has to have: that of the genome file, that of the records, and those of other files.
    pub needed: &'static [OptionUsage],
    /// The options that may be left out, beside those of its view.
    pub others: &'static [OptionUsage],
    /// The options of its view.
    pub view: &'static [OptionUsage],
    /// Those of its view as a usage shows them: in brackets what may be left out, and between `|` what excludes one another.
    pub view_usage: &'static [u8],
    /// What is wrong if options of its view are given that don't go together, in a line of a hint.
    pub rule: &'static [u8],
}

const GENOME: OptionUsage =
    option!(b"-g" => Genome, b"names and lengths of the sequences, two columns");

const FIRST: OptionUsage =
    option!(b"-i" => Bed, b"the records, three to six columns, in any order");

const FIRST_OF_PAIRS: OptionUsage =
    option!(b"-a" => Bed, b"the records, three to six columns, in any order");

const SECOND: OptionUsage = option!(b"-b" => Bed, b"the records of the second file");

const WIDTH: OptionUsage =
    option!(b"-width" => Width, b"columns of a BED without a record, 3 to 6 (default 3)");

const LIMIT: OptionUsage =
    option!(b"-limit" => Limit, b"most records of a file, up to 100000000 (default 4000000)");

const SESSION: RunUsage = RunUsage {
    run: Subcommand::Session,
    name: b"session",
    meaning: b"carry out a script of corrections, and print views of the track",
    needed: &[
        GENOME,
        option!(b"-i" => Bed, b"the records of the track, three to six columns, in any order"),
    ],
    others: &[
        option!(b"-b" => Bed, b"records of a second file, which intersect and subtract look at"),
        option!(b"-fi" => Fasta, b"bases of the sequences, which getfasta prints"),
        WIDTH,
        option!(b"-limit" => Limit, b"most records of a file, and lines of a script (default 4000000)"),
    ],
    view: &[],
    view_usage: b"",
    rule: b"",
};

const MERGE: RunUsage = RunUsage {
    run: Subcommand::Merge,
    name: b"merge",
    meaning: b"blocks of records that overlap or are book-ended",
    needed: &[GENOME, FIRST],
    others: &[WIDTH, LIMIT],
    view: &[
        option!(b"-d" => Distance, b"records at most N bases apart are one block too"),
        option!(b"-s" => Nothing, b"blocks of each strand by itself, without records of strand .; needs six columns"),
        option!(b"-c" => Columns, b"columns by number, separated by commas: a summary of each"),
        option!(b"-o" => Operations, b"operations: count, sum, min, max, collapse, distinct (default sum)"),
    ],
    view_usage: b"[-d N] [-s] [-c LIST [-o LIST]]",
    rule: b"",
};

const CLUSTER: RunUsage = RunUsage {
    run: Subcommand::Cluster,
    name: b"cluster",
    meaning: b"every record with the number of its block",
    needed: &[GENOME, FIRST],
    others: &[WIDTH, LIMIT],
    view: &[option!(b"-d" => Distance, b"records at most N bases apart are in one block")],
    view_usage: b"[-d N]",
    rule: b"",
};

const COMPLEMENT: RunUsage = RunUsage {
    run: Subcommand::Complement,
    name: b"complement",
    meaning: b"what no record covers",
    needed: &[GENOME, FIRST],
    others: &[WIDTH, LIMIT],
    view: &[option!(b"-L" => Nothing, b"only on sequences that have a record")],
    view_usage: b"[-L]",
    rule: b"",
};

const GENOMECOV: RunUsage = RunUsage {
    run: Subcommand::Genomecov,
    name: b"genomecov",
    meaning: b"how many records cover a position",
    needed: &[GENOME, FIRST],
    others: &[WIDTH, LIMIT],
    view: &[
        option!(b"-bg" => Nothing, b"a row for each interval of one depth above 0"),
        option!(b"-bga" => Nothing, b"the same, also where the depth is 0"),
        option!(b"-d" => Nothing, b"a row for each position, counted from 1"),
    ],
    view_usage: b"-bg|-bga|-d",
    rule: b"genomecov needs one of -bg, -bga and -d (there is no histogram)",
};

const INTERSECT: RunUsage = RunUsage {
    run: Subcommand::Intersect,
    name: b"intersect",
    meaning: b"overlaps with the records of a second file",
    needed: &[GENOME, FIRST_OF_PAIRS, SECOND],
    others: &[WIDTH, LIMIT],
    view: &[
        option!(b"-wa" => Nothing, b"the record whole"),
        option!(b"-wb" => Nothing, b"also the other record whole"),
        option!(b"-u" => Nothing, b"the record once if it has an overlap"),
        option!(b"-v" => Nothing, b"the record once if it has none"),
        option!(b"-c" => Nothing, b"each record with the number of its overlaps"),
    ],
    view_usage: b"[-wa] [-wb|-u|-v|-c]",
    rule: b"at most one of -u, -v and -c can be given, and none of them beside -wb",
};

const SUBTRACT: RunUsage = RunUsage {
    run: Subcommand::Subtract,
    name: b"subtract",
    meaning: b"what a second file does not cover",
    needed: &[GENOME, FIRST_OF_PAIRS, SECOND],
    others: &[WIDTH, LIMIT],
    view: &[option!(b"-A" => Nothing, b"only whole records that have no overlap")],
    view_usage: b"[-A]",
    rule: b"",
};

const GETFASTA: RunUsage = RunUsage {
    run: Subcommand::Getfasta,
    name: b"getfasta",
    meaning: b"the bases of the records",
    needed: &[
        GENOME,
        option!(b"-bed" => Bed, b"the records, three to six columns, in any order"),
        option!(b"-fi" => Fasta, b"the bases of the sequences"),
    ],
    others: &[WIDTH, LIMIT],
    view: &[
        option!(b"-s" => Nothing, b"with the strand, and the bases of records on - reversed and complemented; needs six columns"),
        option!(b"-tab" => Nothing, b"head and bases on one line, separated by a TAB"),
    ],
    view_usage: b"[-s] [-tab]",
    rule: b"",
};

const RECORDS: RunUsage = RunUsage {
    run: Subcommand::Records,
    name: b"records",
    meaning: b"every record with all its columns",
    needed: &[GENOME, FIRST],
    others: &[WIDTH, LIMIT],
    view: &[],
    view_usage: b"",
    rule: b"",
};

/// All kinds of run: a session, and the subcommands.
pub const RUNS: &[RunUsage] = &[
    SESSION, MERGE, CLUSTER, COMPLEMENT, GENOMECOV, INTERSECT, SUBTRACT, GETFASTA, RECORDS,
];
