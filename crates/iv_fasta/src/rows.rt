//! The rows of getfasta, and the complement of bases.
ghost use Rattle.std.specs.Prelude.{◌≡◌, [], if◌then◌else◌, length, codes};
ghost use Rattle.iv_bytes.specs.Sinks.{Puts};
ghost use Rattle.iv_fasta.specs.FastaRows.{bracketed, shown_strand as strand_of, shown_bases, fasta_rows};
ghost use Rattle.iv_fasta.specs.Inside.FastaRows.{front, opposite};
ghost use Rattle.iv_fasta.specs.Complement.{complement as complement_of};

use crate::fasta::Fasta;
use iv_bytes::{Sink, WriteFault, put_all, put_pieces};
use iv_lines::{BedRecord, Genome, Strand};
use std::alloc::Allocator;

/// How getfasta shows records: the options `-s` and `-tab` of bedtools getfasta.
#[derive(Clone, Copy, Debug, PartialEq, Eq)]
pub struct FastaOutput {
    /// `-s`: the head shows the strand, and the bases of a record on `-` are read backwards and complemented.
    pub stranded: bool,
    /// `-tab`: head and bases are on one line, separated by a TAB.
    pub tab: bool,
}

/// How many bases of an opposite strand are put at a time.
const CHUNK: usize = 1024;

/// Puts the row of a record, as bedtools getfasta does: nothing if the FASTA file lacks the record's sequence.
///
/// The head is the sequence's name, `:`, start, `-` and stop, with strands also the strand in round brackets. It is
/// after a `>` on a line of its own, the bases on the next; or with `-tab` before them, separated by a TAB. With strands the
/// bases of a record on `-` are read backwards and complemented. Columns after the third are asked for only with strands. It
/// takes no memory. On a fault the sink has taken a prefix of the row.
pub fn put_fasta<R: BedRecord, A: Allocator + Copy, S: Sink>(
    output: FastaOutput,
    genome: &Genome<A>,
    feature: &R,
    fasta: &Fasta<A>,
    sink: &mut S,
) -> Result<(), WriteFault>
    ensures { Puts (S.state sink.old) (S.state sink.new) result (fasta_rows output genome.now fasta.now (R.as_record feature.now)) }
{
    let Some(bases) = fasta.bases(feature.seq(), feature.start(), feature.stop()) else {
        return Ok(());
    };
    let strand = shown_strand(output, feature);
    put_front(output, genome, feature, strand, sink)?;
    put_bases(strand, bases, sink)?;
    put_all(sink, b"\n")
}

/// The strand of a record if strands are shown.
fn shown_strand<R: BedRecord>(output: FastaOutput, feature: &R) -> Option<Strand>
    ensures { result ≡ strand_of output (R.as_record feature.now) }
{
    if output.stranded {
        feature.to_ref().strand()
    } else {
        None
    }
}

/// Puts all of a row that is before its bases.
fn put_front<R: BedRecord, A: Allocator + Copy, S: Sink>(
    output: FastaOutput,
    genome: &Genome<A>,
    feature: &R,
    strand: Option<Strand>,
    sink: &mut S,
) -> Result<(), WriteFault>
    requires { strand ≡ strand_of output (R.as_record feature.now) }
    ensures { Puts (S.state sink.old) (S.state sink.new) result (front output genome.now (R.as_record feature.now)) }
{
    let sequence = genome.name_or_empty(feature.seq());
    let mut start = itoa::Buffer::new();
    let mut stop = itoa::Buffer::new();
    put_pieces(
        sink,
        &[
            head_sign(output),
            sequence,
            b":",
            start.format(feature.start()).as_bytes(),
            b"-",
            stop.format(feature.stop()).as_bytes(),
            strand_mark(strand),
            head_end(output),
        ],
    )
}

/// What is before a head.
fn head_sign<'t>(output: FastaOutput) -> &'t [u8]
    ensures { result.now ≡ (if output.tab then [] else codes ">") }
{
    if output.tab { b"" } else { b">" }
}

/// What is between a head and its bases.
fn head_end<'t>(output: FastaOutput) -> &'t [u8]
    ensures { result.now ≡ (if output.tab then codes "\t" else codes "\n") }
{
    if output.tab { b"\t" } else { b"\n" }
}

/// What a head shows of a strand.
fn strand_mark<'t>(strand: Option<Strand>) -> &'t [u8]
    ensures { result.now ≡ bracketed strand }
{
    match strand {
        Some(Strand::Plus) => b"(+)",
        Some(Strand::Minus) => b"(-)",
        Some(Strand::Dot) => b"(.)",
        None => b"",
    }
}

/// Puts the bases that are shown of those that a record covers.
fn put_bases<S: Sink>(strand: Option<Strand>, bases: &[u8], sink: &mut S) -> Result<(), WriteFault>
    ensures { Puts (S.state sink.old) (S.state sink.new) result (shown_bases strand bases.now) }
{
    match strand {
        Some(Strand::Minus) => put_opposite(bases, sink),
        Some(Strand::Plus | Strand::Dot) | None => put_all(sink, bases),
    }
}

/// Puts the opposite strand of some bases, through a chunk on the stack.
fn put_opposite<S: Sink>(bases: &[u8], sink: &mut S) -> Result<(), WriteFault>
    ensures { Puts (S.state sink.old) (S.state sink.new) result (opposite bases.now) }
{
    let mut chunk = [0u8; CHUNK];
    let mut rest = bases;
    while !rest.is_empty() {
        let count = rest.len().min(CHUNK);
        let (front, back) = rest.split_at(rest.len() - count);
        write_opposite(&mut chunk[..count], back);
        put_all(sink, &chunk[..count])?;
        rest = front;
    }
    Ok(())
}

/// Writes the opposite strand of some bases over a chunk, which is as long.
fn write_opposite(chunk: &mut [u8], bases: &[u8])
    requires { length chunk.old ≡ length bases.now }
    ensures { chunk.new ≡ opposite bases.now }
{
    for at in 0..bases.len() {
        chunk[at] = complement(bases[bases.len() - 1 - at]);
    }
}

// A table, because a `match` takes three times as long, for each base of a record on `-`.
/// The complement of each byte.
const COMPLEMENTS: [u8; 256] = [
    0, 1, 2, 3, 4, 5, 6, 7, 8, 9, 10, 11, 12, 13, 14, 15, 16, 17, 18, 19, 20, 21, 22, 23, 24, 25,
    26, 27, 28, 29, 30, 31, 32, 33, 34, 35, 36, 37, 38, 39, 40, 41, 42, 43, 44, 45, 46, 47, 48, 49,
    50, 51, 52, 53, 54, 55, 56, 57, 58, 59, 60, 61, 62, 63, 64, 84, 86, 71, 72, 69, 70, 67, 68, 73,
    74, 77, 76, 75, 78, 79, 80, 81, 89, 83, 65, 65, 66, 87, 88, 82, 90, 91, 92, 93, 94, 95, 96,
    116, 118, 103, 104, 101, 102, 99, 100, 105, 106, 109, 108, 107, 110, 111, 112, 113, 121, 115,
    97, 97, 98, 119, 120, 114, 122, 123, 124, 125, 126, 127, 128, 129, 130, 131, 132, 133, 134,
    135, 136, 137, 138, 139, 140, 141, 142, 143, 144, 145, 146, 147, 148, 149, 150, 151, 152, 153,
    154, 155, 156, 157, 158, 159, 160, 161, 162, 163, 164, 165, 166, 167, 168, 169, 170, 171, 172,
    173, 174, 175, 176, 177, 178, 179, 180, 181, 182, 183, 184, 185, 186, 187, 188, 189, 190, 191,
    192, 193, 194, 195, 196, 197, 198, 199, 200, 201, 202, 203, 204, 205, 206, 207, 208, 209, 210,
    211, 212, 213, 214, 215, 216, 217, 218, 219, 220, 221, 222, 223, 224, 225, 226, 227, 228, 229,
    230, 231, 232, 233, 234, 235, 236, 237, 238, 239, 240, 241, 242, 243, 244, 245, 246, 247, 248,
    249, 250, 251, 252, 253, 254, 255,
];

/// The complement of a base: of a small letter the small one, and of a byte that is no letter of a base the byte itself.
pub fn complement(base: u8) -> u8
    ensures { result ≡ complement_of base }
{
    COMPLEMENTS[base as usize]
}
