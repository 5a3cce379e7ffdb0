//! Words that are tried instead of those that there are, and what to do: tables for `text_for`, and lists of words with a space between two.

/// Faults of a line by their numbers in docs/FORMAT.md.
pub(crate) const FAULTS: &[&[u8]] = &[
    b"", b"E1", b"E2", b"E3", b"E4", b"E5", b"E6", b"E7", b"E8", b"E9", b"E10", b"E11", b"E12",
    b"E13", b"E14", b"E15", b"E16", b"E17", b"E18", b"E19", b"E20", b"E21", b"E22", b"E23", b"E24",
];

/// The commands of a script.
pub(crate) const COMMANDS: &[u8] =
    b"add remove replace addb removeb replaceb resize open close print printall show showall";

/// The views, and what else the first argument can be, as words that may be meant.
pub(crate) const SUBJECTS: &[u8] =
    b"merge cluster complement genomecov intersect subtract getfasta records session --help --version";

/// What can be done with a column.
pub(crate) const OPERATIONS: &[u8] = b"count sum min max collapse distinct";

/// What a column of a record is called.
pub(crate) const COLUMNS: &[&[u8]] = &[
    b"the name",
    b"the start",
    b"the end",
    b"column 4, the name,",
    b"column 5, the score,",
    b"the strand",
];

/// What follows a command, in a few words.
pub(crate) const FIELDS: &str =
    "open: a name and a view, in two fields (spaces separate the options of the view)
close print: a name, in one field
printall: no field
show: a name, a sequence, a start and an end, in four fields
showall: a sequence, a start and an end, in three fields
resize: a sequence and a length, in two fields
add remove replace addb removeb replaceb: the columns of a record, in as many fields";

/// Words that are tried as commands of a script.
pub(crate) const OTHERS: &str = "delete del rm: remove takes a record out
insert put new: add puts a record in
change update edit modify move: replace has the old record and the new one
undo: write the edit that reverses it; python3 -m bedkeep curate has undo
save list: open NAME records, and then print NAME, has all records";

/// Options that only bedtools' subcommands have.
pub(crate) const OPTIONS: &str = r#"-sorted -nonamecheck -header -fullHeader: leave it out
-f -F -r -e -wo: intersect -wa -wb prints both records of each overlap, and awk takes what is wanted of these rows
-loj -wao: join the rows of intersect -wa -wb and those of intersect -v
-s -S -strand: one run for each strand, over awk -F '\t' '$6 == "+"' FILE; of intersect: -wa -wb, and awk -F '\t' '$6 == $12'
-fo: leave it out, and write > FILE at the end
-name -name+ -nameOnly: -tab, and paste the names beside it, in the order of records
-split: bedtools bed12tobed6 -i FILE makes a record of each block
-abam -ibam -ubam: bedtools bamtobed -i FILE makes records of a BAM file"#;
