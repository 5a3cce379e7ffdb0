//! A record that owns its columns, and the order of a track.
ghost use Rattle.std.specs.Prelude.{◌≡◌, ◌<◌, ◌↔◌, IfOk, IsOk, IsTrue};
ghost use Rattle.std.specs.Prelude.{refl};
ghost use Rattle.std.specs.Ordering.{as_partial_cmp, eq_by_cmp};
ghost use Rattle.std.specs.Cmp.{partial_equiv_from_equiv, eq_by_cmp_equiv, partial_order_from_agreeing_total};
ghost use Rattle.iv_lines.specs.Intervals.{record_of_interval};
ghost use Rattle.iv_lines.specs.Read.{Fits};
ghost use Rattle.iv_lines.specs.RecordValue.{IsPlaced, record_cmp, records_total};

use crate::genome::Genome;
use crate::interval::Interval;
use crate::record_ref::{RecordRef, Strand};
use std::alloc::{AllocError, Allocator, Global};
use std::cmp::Ordering;
use std::marker::Model;

/// One record that owns its columns: an interval that is 0-based and half-open, and the rest of its line.
///
/// Its order is the order of a track: by rank, start, stop, then the bytes of name, of score and
/// of strand. Two records that are equal in all of these are copies.
#[derive(Drop)]
pub struct Record<A: Allocator = Global> {
    interval: Interval,
    width: u8,
    rest: Vec<u8, A>,
}

impl<A: Allocator> Model for Record<A> {
    ghost use Rattle.iv_lines.specs.Inside.Rests.{IsWhole, record_with};
    ghost use Rattle.iv_lines.specs.RecordValue.{RecordValue};

    ghost Value = { RecordValue };

    ghost view = { λ r. record_with r.interval r.rest.items r.width };

    ghost invariant = { λ r. IsWhole r.interval r.rest.items r.width };
}

impl<A: Allocator> Record<A> {
    /// The record of three columns with this interval, which has a base. It takes no memory.
    pub fn of_interval(alloc: A, interval: Interval) -> Self
        requires { interval.start < interval.stop }
        ensures { result ≡ record_of_interval interval }
    {
        Record {
            interval,
            width: 3,
            rest: Vec::new(alloc),
        }
    }

    /// The same record, with its columns lent.
    #[inline(always)]
    pub fn as_ref(&self) -> RecordRef<'_>
        ensures { result ≡ self.now }
    {
        RecordRef::of_rest(self.interval, self.rest.as_slice(), self.width)
    }

    /// The rank of its sequence in the genome.
    pub fn seq(&self) -> u32
        ensures { result ≡ self.now.seq }
    {
        self.interval.seq
    }

    /// The start, from 0.
    pub fn start(&self) -> u64
        ensures { result ≡ self.now.start }
    {
        u64::from(self.interval.start)
    }

    /// The end, not included.
    pub fn stop(&self) -> u64
        ensures value { result ≡ self.now.stop }
        ensures some { self.now.start < result }
    {
        u64::from(self.interval.stop)
    }

    /// A lemma for callers' proofs: the record has a base, and its rank and its stop are numbers of 32 bits.
    /// The call does nothing.
    pub fn lemma_of_interval(&self)
        ensures { IsPlaced self.now }
    {
        // After this read the type's bounds are known.
        let _seq = self.interval.seq;
        let _stop = self.interval.stop;
    }

    /// The name, empty below width 4.
    pub fn name(&self) -> &[u8]
        ensures { result.now ≡ self.now.name }
    {
        self.as_ref().name()
    }

    /// The score as it was in its line, empty below width 5.
    pub fn score(&self) -> &[u8]
        ensures { result.now ≡ self.now.score }
    {
        self.as_ref().score()
    }

    /// The strand, `None` below width 6.
    pub fn strand(&self) -> Option<Strand>
        ensures { result ≡ self.now.strand }
    {
        self.as_ref().strand()
    }

    /// How many columns it has, 3 to 6.
    pub fn width(&self) -> u8
        ensures { result ≡ self.now.width }
    {
        self.width
    }

    /// Whether it is a record of this width on this genome.
    pub fn fits<B: Allocator + Copy>(&self, genome: &Genome<B>, width: u8) -> bool
        ensures { IsTrue result ↔ Fits genome.now width self.now }
    {
        self.as_ref().fits(genome, width)
    }
}

impl<A: Allocator + Copy> Record<A> {
    /// A copy of a record that is in a line.
    #[inline(always)]
    pub(crate) fn copy_of(feature: &RecordRef<'_>, alloc: A) -> Result<Self, AllocError>
        ensures ok { IfOk result (λ r. r ≡ feature.now) }
        ensures free { feature.now.width ≡ 3 → IsOk result }
    {
        let mut rest = Vec::new(alloc);
        if !feature.rest.is_empty() {
            rest = feature.rest.to_vec(alloc)?;
        }
        Ok(Record {
            interval: feature.interval,
            width: feature.width,
            rest,
        })
    }
}

// The comparisons are written out: derived ones would be proved as another term than the order that contracts name.
impl<A: Allocator> PartialEq for Record<A> {
    ghost eq = { eq_by_cmp record_cmp };

    ghost laws = { partial_equiv_from_equiv (eq_by_cmp_equiv records_total) };

    fn eq(&self, other: &Record<A>) -> bool {
        self.cmp(other).is_eq()
    }
}

impl<A: Allocator> Eq for Record<A> {
    ghost laws = { eq_by_cmp_equiv records_total };
}

impl<A: Allocator> PartialOrd for Record<A> {
    ghost partial_cmp = { as_partial_cmp record_cmp };

    ghost laws = { partial_order_from_agreeing_total record_cmp records_total (λ _ _. refl) (λ _ _. refl) };

    fn partial_cmp(&self, other: &Record<A>) -> Option<Ordering> {
        Some(self.cmp(other))
    }
}

impl<A: Allocator> Ord for Record<A> {
    ghost cmp = { record_cmp };

    ghost total = { records_total };

    ghost matches_partial_cmp = { λ _ _. refl };

    ghost matches_eq = { λ _ _. refl };

    #[inline]
    fn cmp(&self, other: &Record<A>) -> Ordering {
        self.as_ref().compare(&other.as_ref())
    }
}
