//! Sequences of a genome file and of a FASTA file, by their ranks.
use crate::fixtures::SIZES;
use iv_fasta::Fasta;
use iv_lines::{Genome, LoadCause, LoadFault};
use std::test::Fail;

/// What a genome has at a rank: the rank of its name, the name and the length.
fn sequence_of(genome: &Genome, rank: u32) -> Option<(u32, &[u8], u64)> {
    let name = genome.name(rank)?;
    Some((genome.rank(name)?, name, genome.length(rank)?))
}

/// Whether these are the sequences of the genome, of which the second one has this length.
fn has_sequences(genome: &Genome, second: u64) -> bool {
    for (rank, want) in [
        (0, Some((0, b"chr1".as_slice(), 100))),
        (1, Some((1, b"chr2", second))),
        (2, Some((2, b"chr3", 0))),
        (3, None),
    ] {
        if sequence_of(genome, rank) != want {
            return false;
        }
    }
    genome.count() == 3 && genome.rank(b"chr").is_none()
}

/// Whether the second sequence may be given the greatest length, and the others keep theirs.
fn is_corrected(genome: &mut Genome) -> bool {
    if genome.count() != 3 || !has_sequences(genome, 50) {
        return false;
    }
    genome.set_length(1, 4_000_000_000);
    has_sequences(genome, 4_000_000_000)
}

#[test]
fn sequences_of_a_genome(rt: HostRuntime) -> Result<(), Fail> {
    let mut genome = Genome::parse(rt.alloc(), SIZES)?;
    assert!(rt; is_corrected(&mut genome));
    Ok(())
}

/// How many sequences a genome file may have.
const SEQUENCES: u32 = 1_000_000;

/// A genome file of this number of sequences, eleven bytes each.
fn genome_file(rt: &HostRuntime, count: u32) -> Result<String, Fail> {
    let mut text = String::new(rt.alloc());
    for number in 0..count {
        let line = format!(in rt.alloc(); "s{}\t9\n", u64::from(number) + 1_000_000)?;
        text.push_str(line.as_str())?;
    }
    Ok(text)
}

/// How many sequences a genome file has, or its fault.
fn parsed(rt: &HostRuntime, text: &[u8]) -> Result<u32, LoadFault> {
    Ok(Genome::parse(rt.alloc(), text)?.count())
}

#[test]
fn sequences_up_to_the_limit_and_above(rt: HostRuntime) -> Result<(), Fail> {
    let text = genome_file(&rt, SEQUENCES + 1)?;
    let text = text.as_bytes();
    let fault = LoadFault {
        line: 1_000_001,
        cause: LoadCause::TooMany,
    };
    assert!(rt; parsed(&rt, text) == Err(fault));
    assert!(rt; parsed(&rt, &text[..text.len().saturating_sub(11)]) == Ok(SEQUENCES));
    Ok(())
}

/// The FASTA file of these bytes.
pub(crate) fn fasta_of(rt: &HostRuntime, genome: &Genome, text: &[u8]) -> Result<Fasta, Fail> {
    let text = text.to_vec(rt.alloc())?;
    Ok(Fasta::parse(rt.alloc(), genome, text)?)
}

/// Whether these are the parts of the sequences. Bases beyond a sequence's end are none.
fn has_parts(fasta: &Fasta) -> bool {
    for (seq, start, stop, want) in [
        (0, 0, 10, Some(b"ACGTNacgtR".as_slice())),
        (0, 0, 1, Some(b"A")),
        (0, 2, 6, Some(b"GTNa")),
        (0, 9, 10, Some(b"R")),
        (0, 4, 4, Some(b"")),
        (0, 10, 10, Some(b"")),
        (0, 8, 11, Some(b"tR")),
        (0, 7, u64::MAX, Some(b"gtR")),
        (0, 11, 12, Some(b"")),
        (0, u64::MAX, u64::MAX, Some(b"")),
        (0, 6, 2, Some(b"")),
        (0, u64::MAX, 0, Some(b"")),
        (1, 0, 5, None),
        (1, 0, 0, None),
        (2, 0, 0, Some(b"")),
        (2, 0, 1, Some(b"")),
        (3, 0, 1, None),
        (u32::MAX, 0, u64::MAX, None),
    ] {
        if fasta.bases(seq, start, stop) != want {
            return false;
        }
    }
    true
}

/// Whether these are the lengths of the sequences, and those without one are lacking.
fn has_lengths(fasta: &Fasta) -> bool {
    for (seq, length) in [
        (0, Some(10)),
        (1, None),
        (2, Some(0)),
        (3, None),
        (u32::MAX, None),
    ] {
        if fasta.length(seq) != length || fasta.covers(seq) != length.is_some() {
            return false;
        }
    }
    true
}

/// The bases of the first and the third sequence of a genome, and of one that it lacks.
#[test]
fn parts_of_sequences(rt: HostRuntime) -> Result<(), Fail> {
    let genome = Genome::parse(rt.alloc(), b"s\t10\nu\t5\nz\t0\n")?;
    let text = b">x\nTTTT\n>s test\nACGT\nNacg\ntR\n>z\n>y\nGG\n";
    let fasta = fasta_of(&rt, &genome, text)?;
    assert!(rt; has_parts(&fasta) && has_lengths(&fasta));
    Ok(())
}
