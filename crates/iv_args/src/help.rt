//! The help texts.
ghost use Rattle.std.specs.Prelude.{◌≡◌};
ghost use Rattle.iv_args.specs.Texts.{help_text};

use crate::subcommand::Subcommand;

/// How the program is used.
pub(crate) const HELP: &[u8] =
    b"bedkeep keeps a track of genome intervals correct while you edit it, and prints
what bedtools' subcommands of the same names print, and the track itself.

usage: bedkeep session -g GENOME -i BED [-b BED] [-fi FASTA] [-width N]
       bedkeep merge -g GENOME -i BED [-d N] [-s] [-c LIST [-o LIST]] [-width N]
       bedkeep cluster -g GENOME -i BED [-d N] [-width N]
       bedkeep complement -g GENOME -i BED [-L] [-width N]
       bedkeep genomecov -g GENOME -i BED -bg|-bga|-d [-width N]
       bedkeep intersect -g GENOME -a BED -b BED [-wa] [-wb|-u|-v|-c] [-width N]
       bedkeep subtract -g GENOME -a BED -b BED [-A] [-width N]
       bedkeep getfasta -g GENOME -bed BED -fi FASTA [-s] [-tab] [-width N]
       bedkeep records -g GENOME -i BED [-width N]
       bedkeep --help [SUBCOMMAND]      (or: bedkeep SUBCOMMAND --help)
       bedkeep --version

session reads a script on standard input; the others print one view of their
files and end. Options come in any order, and other options of bedtools are
refused. Records needn't be sorted. Standard input as a file is /dev/stdin, and
not -; <(..) of bash is a file too. No file is changed.
  -g GENOME   names and lengths of the sequences, two columns
  -i BED      the records, three to six columns, in any order; of intersect and
              subtract it is -a, of getfasta -bed
  -b BED      records of a second file, which intersect and subtract look at
  -fi FASTA   bases of the sequences, which getfasta prints
  -width N    columns of a BED without a record, 3 to 6 (default 3)
  -limit N    most records of a file, and lines of a script (default 4000000)

Lines of a script, their fields separated by one TAB:
  open      NAME  VIEW                open a view under a name
  add       COLUMNS                   add a record
  remove    COLUMNS                   take out one copy of a record
  replace   COLUMNS  COLUMNS          take out the first, put in the second
  addb      COLUMNS                   add a record to the second file
  removeb   COLUMNS                   take out one copy of a record there
  replaceb  COLUMNS  COLUMNS          replace the first there by the second
  resize    SEQUENCE  LENGTH          correct the length of a sequence
  print     NAME                      print a view
  printall                            print all views, each under #NAME
  show      NAME  REGION              print the rows of a view in a region
  showall   REGION                    print those of all views, as printall does
  close     NAME                      close a view
Empty lines and lines that begin with # are skipped. A REGION is three fields,
SEQUENCE  START  END: rows that share a position with it are printed whole.

Views, with the same options in a script and on the command line:
  merge             blocks of records that overlap or are book-ended
    -d N            records at most N bases apart are one block too
    -s              blocks of each strand by itself, without records of strand
                    .; needs six columns
    -c LIST         columns by number, separated by commas: a summary of each
    -o LIST         operations: count, sum, min, max, collapse, distinct
                    (default sum)
  cluster           every record with the number of its block
    -d N            records at most N bases apart are in one block
  complement        what no record covers
    -L              only on sequences that have a record
  genomecov         how many records cover a position
    -bg             a row for each interval of one depth above 0
    -bga            the same, also where the depth is 0
    -d              a row for each position, counted from 1
  intersect         overlaps with the records of a second file
    -wa             the record whole
    -wb             also the other record whole
    -u              the record once if it has an overlap
    -v              the record once if it has none
    -c              each record with the number of its overlaps
  subtract          what a second file does not cover
    -A              only whole records that have no overlap
  getfasta          the bases of the records
    -s              with the strand, and the bases of records on - reversed and
                    complemented; needs six columns
    -tab            head and bases on one line, separated by a TAB
  records           every record with all its columns

examples:
  bedkeep merge -g chrom.sizes -i genes.bed -d 100
  zcat genes.bed.gz | bedkeep merge -g chrom.sizes -i /dev/stdin
  printf 'open\\tm\\tmerge\\nadd\\tchr1\\t10\\t20\\nprint\\tm\\n' |
    bedkeep session -g chrom.sizes -i genes.bed

exit status: 0 all done, 1 lines of the script were refused, 2 bad options,
3 a damaged file, 4 a file, the input or an output fails, 5 no memory.
";

/// How one kind of run is used.
pub(crate) fn help_of(run: Subcommand) -> &'static [u8]
    ensures { result.now ≡ help_text run }
{
    match run {
        Subcommand::Session => SESSION,
        Subcommand::Merge => MERGE,
        Subcommand::Cluster => CLUSTER,
        Subcommand::Complement => COMPLEMENT,
        Subcommand::Genomecov => GENOMECOV,
        Subcommand::Intersect => INTERSECT,
        Subcommand::Subtract => SUBTRACT,
        Subcommand::Getfasta => GETFASTA,
        Subcommand::Records => RECORDS,
    }
}

const SESSION: &[u8] = b"usage: bedkeep session -g GENOME -i BED [-b BED] [-fi FASTA] [-width N]
                       [-limit N]

Keeps the records as a track, and carries out a script on standard input.
  -g GENOME   names and lengths of the sequences, two columns
  -i BED      the records of the track, three to six columns, in any order
  -b BED      records of a second file, which intersect and subtract look at
  -fi FASTA   bases of the sequences, which getfasta prints
  -width N    columns of a BED without a record, 3 to 6 (default 3)
  -limit N    most records of a file, and lines of a script (default 4000000)

Lines of a script, their fields separated by one TAB:
  open      NAME  VIEW                open a view under a name
  add       COLUMNS                   add a record
  remove    COLUMNS                   take out one copy of a record
  replace   COLUMNS  COLUMNS          take out the first, put in the second
  addb      COLUMNS                   add a record to the second file
  removeb   COLUMNS                   take out one copy of a record there
  replaceb  COLUMNS  COLUMNS          replace the first there by the second
  resize    SEQUENCE  LENGTH          correct the length of a sequence
  print     NAME                      print a view
  printall                            print all views, each under #NAME
  show      NAME  REGION              print the rows of a view in a region
  showall   REGION                    print those of all views, as printall does
  close     NAME                      close a view
Empty lines and lines that begin with # are skipped. A VIEW is a subcommand with
its options, separated by spaces: merge, cluster, complement, genomecov,
intersect, subtract, getfasta, records. A REGION is three fields, SEQUENCE
START  END: rows that share a position with it are printed whole, and of views
whose rows come from records those of such records. A refused line changes
nothing; standard error names it with the reason, and the exit status is 1.

No file is changed. The corrected track comes out by records, as in the example.
Standard input is the script, so no file can be /dev/stdin; <(..) of bash is
one.

python3 -m bedkeep curate GENOME BED is a prompt for corrections by hand.

Different from bedtools: bedtools has no sessions. The help of each subcommand
says what else differs.

example:
  printf 'chr1\\t100\\n' > example.sizes
  printf 'chr1\\t10\\t20\\n' > example.bed
  printf 'add\\tchr1\\t15\\t30\\n' > example.script
  printf 'open\\tall\\trecords\\nprint\\tall\\n' >> example.script
  bedkeep session -g example.sizes -i example.bed < example.script
prints:
  chr1\t10\t20
  chr1\t15\t30
";

const MERGE: &[u8] =
    b"usage: bedkeep merge -g GENOME -i BED [-d N] [-s] [-c LIST [-o LIST]] [-width N]
                     [-limit N]

Prints a row for each block: its sequence, start and end, and its summaries.
Records that overlap or are book-ended are one block.
  -g GENOME   names and lengths of the sequences, two columns
  -i BED      the records, three to six columns, in any order
  -d N        records at most N bases apart are one block too
  -s          blocks of each strand by itself, without records of strand .;
              needs six columns
  -c LIST     columns by number, separated by commas: a summary of each
  -o LIST     operations: count, sum, min, max, collapse, distinct (default sum)
  -width N    columns of a BED without a record, 3 to 6 (default 3)
  -limit N    most records of a file, up to 100000000 (default 4000000)

Different from bedtools: the genome file is needed, and rows come in its order;
records needn't be sorted. With -s the blocks of + come before those of -, and
not by start. -c without -o sums. For sum, min and max a number is an optional -
and up to 15 digits, and all digits are printed; a value . is skipped, and any
other value makes the result . for its block. Standard input is /dev/stdin.

example:
  printf 'chr1\\t100\\n' > example.sizes
  printf 'chr1\\t15\\t30\\tb\\nchr1\\t10\\t20\\ta\\n' > example.bed
  bedkeep merge -g example.sizes -i example.bed -c 4 -o collapse
prints:
  chr1\t10\t30\ta,b
";

const CLUSTER: &[u8] = b"usage: bedkeep cluster -g GENOME -i BED [-d N] [-width N] [-limit N]

Prints every record with the number of its block, counted from 1. Records that
overlap or are book-ended are in one block.
  -g GENOME   names and lengths of the sequences, two columns
  -i BED      the records, three to six columns, in any order
  -d N        records at most N bases apart are in one block
  -width N    columns of a BED without a record, 3 to 6 (default 3)
  -limit N    most records of a file, up to 100000000 (default 4000000)

Different from bedtools: the genome file is needed, and rows come in its order;
records needn't be sorted. There is no -s. Standard input is /dev/stdin.

example:
  printf 'chr1\\t100\\n' > example.sizes
  printf 'chr1\\t50\\t60\\nchr1\\t15\\t30\\nchr1\\t10\\t20\\n' > example.bed
  bedkeep cluster -g example.sizes -i example.bed
prints:
  chr1\t10\t20\t1
  chr1\t15\t30\t1
  chr1\t50\t60\t2
";

const COMPLEMENT: &[u8] = b"usage: bedkeep complement -g GENOME -i BED [-L] [-width N] [-limit N]

Prints the intervals that no record covers.
  -g GENOME   names and lengths of the sequences, two columns
  -i BED      the records, three to six columns, in any order
  -L          only on sequences that have a record
  -width N    columns of a BED without a record, 3 to 6 (default 3)
  -limit N    most records of a file, up to 100000000 (default 4000000)

Different from bedtools: records needn't be sorted. A sequence of length 0 is
allowed and has no row. Standard input is /dev/stdin.

example:
  printf 'chr1\\t100\\n' > example.sizes
  printf 'chr1\\t15\\t30\\nchr1\\t10\\t20\\n' > example.bed
  bedkeep complement -g example.sizes -i example.bed
prints:
  chr1\t0\t10
  chr1\t30\t100
";

const GENOMECOV: &[u8] =
    b"usage: bedkeep genomecov -g GENOME -i BED -bg|-bga|-d [-width N] [-limit N]

Prints depth: how many records cover a position. Give one of -bg, -bga and -d.
  -g GENOME   names and lengths of the sequences, two columns
  -i BED      the records, three to six columns, in any order
  -bg         a row for each interval of one depth above 0
  -bga        the same, also where the depth is 0
  -d          a row for each position, counted from 1
  -width N    columns of a BED without a record, 3 to 6 (default 3)
  -limit N    most records of a file, up to 100000000 (default 4000000)

Different from bedtools: one of -bg, -bga and -d is needed, since there is no
histogram. Records needn't be sorted. Sequences without a record come in their
places in the genome file, and not last. Standard input is /dev/stdin.

example:
  printf 'chr1\\t100\\n' > example.sizes
  printf 'chr1\\t15\\t30\\nchr1\\t10\\t20\\n' > example.bed
  bedkeep genomecov -g example.sizes -i example.bed -bg
prints:
  chr1\t10\t15\t1
  chr1\t15\t20\t2
  chr1\t20\t30\t1
";

const INTERSECT: &[u8] =
    b"usage: bedkeep intersect -g GENOME -a BED -b BED [-wa] [-wb|-u|-v|-c] [-width N]
                         [-limit N]

Prints each overlap of a record of the first file with one of the second: the
part that both share.
  -g GENOME   names and lengths of the sequences, two columns
  -a BED      the records, three to six columns, in any order
  -b BED      the records of the second file
  -wa         the record whole
  -wb         also the other record whole
  -u          the record once if it has an overlap
  -v          the record once if it has none
  -c          each record with the number of its overlaps
  -width N    columns of a BED without a record, 3 to 6 (default 3)
  -limit N    most records of a file, up to 100000000 (default 4000000)

Different from bedtools: the genome file is needed, and rows come in its order.
The overlaps of one record come by start and end of the second file's records.
At most one of -u, -v and -c can be given, and none of them beside -wb.
Standard input is /dev/stdin.

example:
  printf 'chr1\\t100\\n' > example.sizes
  printf 'chr1\\t10\\t20\\ta\\nchr1\\t50\\t60\\tb\\n' > example.bed
  printf 'chr1\\t15\\t55\\n' > example_b.bed
  bedkeep intersect -g example.sizes -a example.bed -b example_b.bed
prints:
  chr1\t15\t20\ta
  chr1\t50\t55\tb
";

const SUBTRACT: &[u8] = b"usage: bedkeep subtract -g GENOME -a BED -b BED [-A] [-width N] [-limit N]

Prints the parts of each record of the first file that the second doesn't cover.
  -g GENOME   names and lengths of the sequences, two columns
  -a BED      the records, three to six columns, in any order
  -b BED      the records of the second file
  -A          only whole records that have no overlap
  -width N    columns of a BED without a record, 3 to 6 (default 3)
  -limit N    most records of a file, up to 100000000 (default 4000000)

Different from bedtools: the genome file is needed, and rows come in its order.
Standard input is /dev/stdin.

example:
  printf 'chr1\\t100\\n' > example.sizes
  printf 'chr1\\t10\\t20\\ta\\nchr1\\t50\\t60\\tb\\n' > example.bed
  printf 'chr1\\t15\\t55\\n' > example_b.bed
  bedkeep subtract -g example.sizes -a example.bed -b example_b.bed
prints:
  chr1\t10\t15\ta
  chr1\t55\t60\tb
";

const GETFASTA: &[u8] =
    b"usage: bedkeep getfasta -g GENOME -bed BED -fi FASTA [-s] [-tab] [-width N]
                        [-limit N]

Prints the bases of each record whose sequence the FASTA file has.
  -g GENOME   names and lengths of the sequences, two columns
  -bed BED    the records, three to six columns, in any order
  -fi FASTA   the bases of the sequences
  -s          with the strand, and the bases of records on - reversed and
              complemented; needs six columns
  -tab        head and bases on one line, separated by a TAB
  -width N    columns of a BED without a record, 3 to 6 (default 3)
  -limit N    most records of a file, up to 100000000 (default 4000000)

Different from bedtools: the genome file is needed, and rows come in its order.
No index file is read or made, and lines of the FASTA file may have any lengths.
A record past the end of its sequence is an error. One whose sequence the FASTA
file lacks has no row, without a warning. Standard input is /dev/stdin.

example:
  printf 'chr1\\t12\\n' > example.sizes
  printf 'chr1\\t6\\t10\\ta\\t0\\t-\\n' > example.bed
  printf '>chr1\\nAACCGGTTACGT\\n' > example.fa
  bedkeep getfasta -g example.sizes -bed example.bed -fi example.fa -s
prints:
  >chr1:6-10(-)
  GTAA
";

const RECORDS: &[u8] = b"usage: bedkeep records -g GENOME -i BED [-width N] [-limit N]

Prints every record with all its columns, in the order of the genome file and
then by start and end: the track itself. Copies of a record stay.
  -g GENOME   names and lengths of the sequences, two columns
  -i BED      the records, three to six columns, in any order
  -width N    columns of a BED without a record, 3 to 6 (default 3)
  -limit N    most records of a file, up to 100000000 (default 4000000)

Like bedtools sort -g, except that records of one interval come by name, score
and strand, and headings aren't printed. Standard input is /dev/stdin.

example:
  printf 'chr1\\t100\\n' > example.sizes
  printf 'chr1\\t50\\t60\\tb\\nchr1\\t10\\t20\\ta\\n' > example.bed
  bedkeep records -g example.sizes -i example.bed
prints:
  chr1\t10\t20\ta
  chr1\t50\t60\tb
";
