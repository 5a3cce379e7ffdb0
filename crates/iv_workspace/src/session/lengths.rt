//! Corrected lengths.
ghost use Rattle.std.specs.Prelude.{◌≡◌, ◌+◌, ◌≤◌, ◌<◌, None, Some, All, length, false, IfErr, OnOk, OnErr, Ok, Err};
ghost use Rattle.std.specs.List.{list_any};
ghost use Rattle.iv_lines.specs.Genome.{most_length};
ghost use Rattle.iv_workspace.specs.Resizes.{has_other_bases, has_record_past, reaches_past, resized};

use super::Session;
use crate::fault::ResizeFault;
use iv_ledger::Meter;
use iv_pair::Second;
use iv_track::{Region, Track};
use std::alloc::Allocator;

/// Whether a record of the track ends past a length. Those on the sequence end at its present end or before, so it is enough to look
/// for one that shares a position with what is to be cut off.
pub(crate) fn track_reaches_past<A: Allocator + Copy>(
    track: &Track<A>,
    seq: u32,
    length: u64,
    end: u64,
    meter: &mut Meter,
) -> bool
    requires shorter { length < end }
    requires some { All (λ r. r.start < r.stop) track.now.records }
    requires within { All (λ r. r.seq ≡ seq → r.stop ≤ end) track.now.records }
    ensures { result ≡ list_any (reaches_past seq length) track.now.records }
{
    let cut_off = Region {
        seq,
        start: length,
        stop: end,
    };
    track.hits(cut_off, meter).next(meter).is_some()
}

/// The same of the second file.
pub(crate) fn second_reaches_past<A: Allocator + Copy>(
    second: &Second<A>,
    seq: u32,
    length: u64,
    end: u64,
) -> bool
    requires shorter { length < end }
    requires some { All (λ r. r.start < r.stop) second.now.records }
    requires within { All (λ r. r.seq ≡ seq → r.stop ≤ end) second.now.records }
    ensures { result ≡ list_any (reaches_past seq length) second.now.records }
{
    second.hits(seq, length, end).next().is_some()
}

impl<A: Allocator + Copy> Session<A> {
    /// Corrects the length of the sequence of this name. No view is rebuilt or becomes stale: each prints by the new
    /// length from then on. It takes no memory.
    ///
    /// A record that was read before may no longer fit; `fits` answers whether it does.
    ///
    /// # Errors
    ///
    /// `UnknownSeq`; then `Shorter`, if a record of the track or of the second file on the sequence has a stop above
    /// the length; then `Fixed`, if the FASTA file has another number of bases of it. Nothing changes.
    pub fn resize(&mut self, name: &[u8], length: u64) -> Result<(), ResizeFault>
        requires { length ≤ most_length }
        ensures ok { OnOk result (resized self.old name.now length ≡ Ok self.new) }
        ensures why { IfErr result (λ fault. resized self.old name.now length ≡ Err fault) }
        ensures err { OnErr result (self.new ≡ self.old) }
    {
        let Some(seq) = self.genome.rank(name) else {
            return Err(ResizeFault::UnknownSeq);
        };
        if self.has_record_past(seq, length) {
            return Err(ResizeFault::Shorter);
        }
        if self.has_other_bases(seq, length) {
            return Err(ResizeFault::Fixed);
        }
        self.genome.set_length(seq, length);
        Ok(())
    }

    /// Whether a record of the track or of the second file on the sequence of this rank has a stop above a length.
    fn has_record_past(&self, seq: u32, length: u64) -> bool
        ensures { result ≡ has_record_past self.now seq length }
    {
        let end = self.genome.length_or_zero(seq);
        if length >= end {
            return false;
        }
        let mut meter = Meter::new();
        if track_reaches_past(&self.track, seq, length, end, &mut meter) {
            return true;
        }
        match &self.second {
            Some(second) => second_reaches_past(second, seq, length, end),
            None => false,
        }
    }

    /// Whether the FASTA file has the sequence of this rank, and another number of bases of it.
    fn has_other_bases(&self, seq: u32, length: u64) -> bool
        ensures { result ≡ has_other_bases self.now.bases seq length }
    {
        let Some(fasta) = &self.fasta else {
            return false;
        };
        match fasta.length(seq) {
            Some(count) => count != length,
            None => false,
        }
    }
}
