//! The table of hints: on what a hint is, which tests have to hold, and what it says, with " | " between them.
//!
//! A hint is on the fault of a line, as docs/FORMAT.md numbers them, on the kind of the file or on `script`, or on both, as `bed.E3`; on how a
//! run ended; or on a mistake in its words. A row `+` adds a line to the row above it. Between two backquotes is the name of a value, or
//! what follows from one (`Facts::value`). Tests are those of `TESTS` and comparisons of values, as `Facts::holds` says, with `!` before
//! one that must not hold.

/// Tests by their names. `f0` is the first field of a record, and `f5` the sixth.
pub(crate) const TESTS: &str = "is_vcf: front^##fileformat=VCF|#CHROM
is_gff: line.columns>7 !f1:digits f3:digits f4:digits
is_wide: line.columns>6 f1:digits f2:digits
is_heading: f1:word !f2:digits !f1.length !line^@
second_is_a_sequence: line.columns>3 f1.length !f1:digits
lacks_chr: f0.known.chr=chr !f0.chr f0.rest~f0.known.rest
has_chr: f0.chr=chr !f0.known.chr f0.rest~f0.known.rest
genome_is_bed: genome.first.2:digits genome.first.columns<5
is_flag_for_a_view: on=view near^-
is_script_meant: run=session option=-i|-fi|-width|-limit";

/// The rows.
pub(crate) const ROWS: &str =
    r#"bed genome fasta | !line | the line isn't shown, since a pipe can't be read twice: write it into a file, and give that
bed genome fasta | front:gzip name:named_bam | the file is BAM: bedtools bamtobed -i FILE writes BED, with /dev/stdin as the file
bed genome fasta | front:gzip | the file is compressed by gzip: zcat FILE, with /dev/stdin as the file, or <(zcat FILE)
bed genome | front^PK | the file is a workbook or another zip: save the sheet as text separated by TABs, or take the file out by unzip
bed genome script | line:marked | the line begins with a byte order mark: sed '1s/^\xEF\xBB\xBF//' FILE takes it away
bed genome | line:binary | the file isn't TAB-separated text: file FILE says what it is
bed genome | line:has_return | lines end in CR alone: tr '\r' '\n' < FILE mends them
bed genome | line^> | the file looks like FASTA, which comes after -fi: samtools faidx FILE writes FILE.fai, which is a genome file
bed.L1 bed.E2 genome.L1 | line:has_space line.columns<3 | the line has spaces instead of TABs: sed -E '/\t.*\t|^(#|track|browser)/!s/ +/\t/g' FILE writes TABs
bed genome | line.columns<2 line*,; | the line has commas or semicolons and no TAB: tr ',;' '\t\t' < FILE writes TABs
bed | is_vcf | the file looks like VCF: write BED: awk -F '\t' -v OFS='\t' '!/^#/ { print $1, $2 - 1, $2 - 1 + length($4) }' FILE
bed | is_gff | the file looks like GFF or GTF: write BED: awk -F '\t' -v OFS='\t' '!/^#/ { print $1, $4 - 1, $5, $3, ".", $7 }' FILE
bed | line^" | the line has quotes: tr -d '"' < FILE takes them away
bed genome | is_heading | the line looks like a heading: sed 1d FILE deletes the first line, or begin it with #
bed.E2 |  | columns of this line: `line.columns`; of the first record: `front.first.columns`; cut -f1-3 FILE makes lines alike
bed.L1 | is_wide | BED12 and narrowPeak have more than six columns: cut -f1-6 FILE keeps six, and python3 -m bedkeep apply all of them
bed.L1 bed.E3 script.E3 | second_is_a_sequence | `f1` is a sequence of the genome file, and `f0` before it isn't: a record begins with its sequence
+ | on=bed | cut -f2- FILE leaves the first column out
bed.L1 |  | columns of this line, separated by TABs: `line.columns`; a BED file has 3 to 6
+ | line.columns<3 f1:digits | it looks like a line of a genome file, which comes after -g
E3 E4 E5 E10 L3 | value:spaced | "`value`" has a space at an end
+ | on=bed | sed 's/ *\t */\t/g; s/ *$//' FILE takes such spaces away
E3 | f0.known | the genome file has no `value`, and has `f0.known`
+ | on=bed lacks_chr | names have to be the same: sed -E '/^(#|track|browser)/!s/^/chr/' FILE
+ | on=bed has_chr | names have to be the same: sed 's/^chr//' FILE
+ | on=bed !lacks_chr !has_chr | names have to be the same: sed 's/^`value`\t/`f0.known`\t/' FILE
E3 |  | the genome file has no `value`: cut -f1 GENOME prints its names
E4 E5 L3 | value*, | `subject` is `value`: a number has no commas
+ | on=bed | awk -F '\t' -v OFS='\t' '{ for (i = 2; i < 4; i++) if ($i ~ /^[0-9]+(,[0-9][0-9][0-9])+$/) gsub(",", "", $i) } 1' FILE takes the commas away
E4 E5 | value^- | `subject` is `value`: the first position is 0
+ | on=bed | awk -F '\t' -v OFS='\t' '$2 ~ /^-/ { $2 = 0 } 1' FILE begins such records at 0
E4 E5 | value:decimal | `subject` is `value`: a number has no point and no exponent
+ | on=bed | awk -F '\t' -v OFS='\t' '{ for (i = 2; i < 4; i++) if ($i ~ /^[0-9.]+([eE][+]?[0-9]+)?$/ && $i == int($i)) $i = sprintf("%.0f", $i) } 1' FILE writes whole numbers
E4 E5 L3 |  | `subject` is `value`: a number has 1 to 10 digits, and a length is at most 4000000000
E6 | f1~f2 | start and end are `f1`: an interval has at least one base
+ | on=bed | awk -F '\t' 'NF < 3 || $2 != $3' FILE leaves such records out
E6 |  | the start `f1` isn't below the end `f2`: exchange the two, if that is meant
+ | on=bed | awk -F '\t' -v OFS='\t' '$2 > $3 { t = $2; $2 = $3; $3 = t } 1' FILE exchanges them; '$2 < $3' leaves the record out
E7 |  | the end is `f2`, and `f0` has `f0.length` bases in the genome file
+ | on=script | resize corrects a length; an earlier resize counts
+ | on=bed genome_is_bed | the genome file looks like a BED file: cut -f1,3 GENOME makes a genome file of it
+ | on=bed !genome_is_bed | is the genome file that of this assembly?
E8 E9 | !value | `subject` is empty: a . says that there is none
+ | on=bed | awk -F '\t' -v OFS='\t' 'NF >= `column` && $`column` == "" { $`column` = "." } 1' FILE writes a . there
E10 |  | the strand is +, - or ., and not `value`
+ | on=bed f4=+|- | awk -F '\t' -v OFS='\t' 'NF > 5 { t = $5; $5 = $6; $6 = t } 1' FILE exchanges columns 5 and 6
+ | on=bed !f4=+|- | cut -f1-5 FILE leaves it out
genome.L4 | f2:digits | the genome file looks like a BED file: it has a name, a TAB and a length on each line
genome.L4 |  | `f0` came before: awk -F '\t' '!seen[$1]++' FILE keeps the first line of each sequence
genome |  | a genome file has a name, a TAB and a length on each line
fasta.L5 |  | a FASTA file begins with > and a name; is it another file?
fasta.L7 |  | the genome file has another length for it: take the .fai of the FASTA file as genome file
large many_records |  | larger data is cut into parts: examples/at_scale/README.md
+ | on=many_records | a BED file has at most as many records as -limit allows, 4000000 if it isn't given: -limit N, up to 100000000
no_wish |  | BEDKEEP_HINTS is always or never, and not `name`
typed |  | a session reads its script here; python3 -m bedkeep curate is made for typing (see bedkeep session --help)
output |  | if the reader of a pipe has ended, as head does, it got all rows before; otherwise the disk may be full
+ | number | line `number` of the script: the lines before it were carried out
unreadable | name=-|stdin | standard input as a file is /dev/stdin; that of a session is its script
unreadable | kind=missing | there is no such file: ls shows those that there are
unreadable | kind=directory | it is a directory, and no file: ls `name` shows its files
script.E1 | line:begins_spaced | the line begins with a space or a TAB: sed 's/^[ \t]*//' FILE takes it away
script.E1 | line.0.takes | `line.0` has after it `line.0.takes`; fields here: `fields.columns`
script.E1 | line.word=open | a TAB, and no space, follows open: sed '/^open /{ s/ /\t/; s/ /\t/ }' FILE writes them for open
script.E1 | line.word.takes | a TAB, and no space, follows `line.word`: sed '/^open/!s/  */\t/g' FILE writes them
script.E1 | f1:digits f2:digits | the line is a record, and no command: sed 's/^/add\t/' FILE makes edits of such lines
script.E1 | line.word.instead | `line.word` is no command: `line.word.instead`
script.E1 | line.word:run | `line.word` is no command: open NAME `line.word`, and then print NAME, has its rows
script.E1 | near | `line.word` is no command: is `near` meant?
script.E1 |  | `line.word` is no command: add, remove, replace, addb, removeb, replaceb, resize, open, close, print, printall, show or showall
script.E2 |  | `name` has `width` columns; fields here: `fields.columns`
+ | fields.columns<width line:has_space | spaces are no TABs: sed 's/  */\t/g' FILE writes TABs
+ | line.0^replace | `line.0` has the columns of the old record, and then those of the new one
+ | !front.first | it has no record: begin the session with -width `fields.columns`
script.E11 | is_there | `name` has it: an earlier line removed or replaced it, or names it too often, and python3 -m bedkeep replay shows which
script.E11 | nearest | all `width` columns count, and `name` has `nearest` (python3 -m bedkeep replay shows it for each such line)
script.E11 |  | all `width` columns count, and no record of `name` is like it
script.E19 |  | the session has no second file: start it with -b BED
script.E20 |  | the session has no FASTA file: start it with -fi FASTA
script.E23 |  | a record of `f0` ends after `f1`: remove or replace it before, or take a greater length
script.E24 |  | the FASTA file has another number of bases for `f0`: its .fai has the length
E17 |  | -c `item`: the records have columns 1 to `width`
subject | !word | usage: bedkeep SUBCOMMAND -g GENOME -i BED, or bedkeep session -g GENOME -i BED < SCRIPT
+ |  | subcommands: merge, cluster, complement, genomecov, intersect, subtract, getfasta, records
subject | word=agree|apply|curate|desk|diff|git|lift|log|replay|review|windows | `word` is a command of the Python package: python3 -m bedkeep `word`
subject view | word=sort | bedkeep records prints all records in order
subject view | near !is_flag_for_a_view | `word` is no subcommand: is `near` meant?
subject view |  | `word` is no subcommand: merge, cluster, complement, genomecov, intersect, subtract, getfasta, records (bedtools has others, over rows of bedkeep too)
try | run | try: bedkeep `run` --help
try |  | try: bedkeep --help
bad_value |  | `option` needs `needs`, and not `word`
twice |  | `word` is given twice
missing |  | `option` `needs` is missing
together | rule | `rule`
together | !list | -o needs -c: the columns that it is about
together |  | -o has one operation, or as many as -c has columns (at most 16)
option | word=-i|-a|-bed !of_view | `word` is for other subcommands: here the file of the records comes after `records`
option | word.bedtools | `word` of bedtools isn't there: `word.bedtools`
option | near | `word` isn't an option of `run`: is `near` meant?
option |  | `word` isn't an option of `run`
stray | needs=nothing | `word` is no option, and `option` takes no value
stray | needs^numbers|count | a list has commas and no spaces: `option` `value`,`word`
stray | is_script_meant | `word` is no option: a script is read from standard input: < `word`
stray | needs=BED | one file comes after `option`: of two, `option` <(cat `value` `word`)
stray | of_view | `word` is no option of a view: the files are those of the session
stray |  | `word` is no option: files come after -g and `records`
pipe | is_given_twice | `name` is given twice, as files or as file and script, and a pipe is read once: write it into a file
pipe | is_empty | `name` had no byte: did the command before it fail? With set -o pipefail the shell says so
loss | genome.first.1=0 genome.first.2:digits | the first length of the genome file is 0: cut -f1,3 GENOME makes a genome file of a BED file
loss | missing | the FASTA file has no `missing` (its first sequence is `header`), and getfasta prints nothing for it
+ |  | names have to be the same: grep '^>' FASTA prints those of the FASTA file
"#;
