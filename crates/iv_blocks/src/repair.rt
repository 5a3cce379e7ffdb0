//! The parts of a repair: blocks that are looked up, joined, taken out and inserted.
ghost use Rattle.std.specs.Prelude.{◌≡◌, ◌≢◌, ◌+◌, ◌-◌, ◌*◌, ◌<◌, ◌≤◌, ℕ, max, None, true, All, IfOk, MatchOption, OnOk, OnErr, length};
ghost use Rattle.iv_lines.specs.Genome.{sequence_name};
ghost use Rattle.iv_lines.specs.Named.{names_of};
ghost use Rattle.iv_lines.specs.Read.{Fits};
ghost use Rattle.iv_ledger.specs.Entries.{IsLedger};
ghost use Rattle.iv_ledger.specs.Steps.{TakesUpTo};
ghost use Rattle.iv_cover.specs.Columns.{results_over};
ghost use Rattle.iv_blocks.specs.Groups.{listed};
ghost use Rattle.iv_blocks.specs.Inside.Groups.{between, between_on, is_apart, is_minus, members_between};
ghost use Rattle.iv_blocks.specs.KeptBlocks.{key_cmp};
ghost use Rattle.iv_blocks.specs.Inside.Lookups.{kept_in, IsLastBlock, IsFirstBlock};
ghost use Rattle.iv_blocks.specs.Inside.Insertion.{AreInserted, AreInsertedOn, key_of, with_block};
ghost use Rattle.iv_blocks.specs.Inside.Repairs.{without_block, AreOthers, StaysCovered, KeepsOthers, JoinsBefore, JoinsAfter, count_from};

use crate::blocks::{Blocks, bounds_of};
use crate::group::{Group, Key, Members, Side};
use crate::kept_block::KeptBlock;
use iv_cover::results;
use iv_ledger::Meter;
use iv_lines::{Genome, RecordRef};
use iv_track::Track;
use std::alloc::{AllocError, Allocator};

impl<A: Allocator + Copy> Blocks<A> {
    /// The last block of the group that starts at the position or before it: its start and its stop. One step.
    pub(crate) fn before(
        &self,
        group: Group,
        position: u32,
        meter: &mut Meter,
    ) -> Option<(u32, u32)>
        ensures found { MatchOption result
            ((x : ℕ) → x ≤ position → kept_in self.now.entries group x ≡ None)
            (λ b. IsLastBlock (kept_in self.now.entries group) position b) }
        ensures steps { TakesUpTo meter.old meter.new 1 }
    {
        let (key, stop) = self.ledger.at_or_before(&group.key(position), meter)?;
        of_group(group, key, stop)
    }

    /// The first block of the group that starts at the position or after it: its start and its stop. One step.
    pub(crate) fn from(&self, group: Group, position: u32, meter: &mut Meter) -> Option<(u32, u32)>
        ensures found { MatchOption result
            ((x : ℕ) → position ≤ x → kept_in self.now.entries group x ≡ None)
            (λ b. IsFirstBlock (kept_in self.now.entries group) position b) }
        ensures steps { TakesUpTo meter.old meter.new 1 }
    {
        let (key, stop) = self.ledger.at_or_after(&group.key(position), meter)?;
        of_group(group, key, stop)
    }

    /// Joins the interval from `start` to `stop` with the group's last block that starts at `start` or before it, if that
    /// reaches it. The block is taken out.
    ///
    /// Gives the start and the stop of the two together. At most 2 steps.
    pub(crate) fn join_before(
        &mut self,
        group: Group,
        start: u32,
        stop: u32,
        meter: &mut Meter,
    ) -> (u32, u32)
        requires { IsLedger key_cmp self.old.entries }
        ensures kept { KeepsOthers group self.old self.new }
        ensures joined { JoinsBefore self.old.options.distance (kept_in self.old.entries group) (kept_in self.new.entries group) start stop result }
        ensures steps { TakesUpTo meter.old meter.new 2 }
    {
        let Some((low, last)) = self.before(group, start, meter) else {
            return (start, stop);
        };
        if u64::from(start) > self.reach(last) {
            return (start, stop);
        }
        self.remove_block(group, low, meter);
        (low, last.max(stop))
    }

    /// Joins an interval up to `high` with the group's blocks that start at `from` or after it and that it reaches, one after
    /// another. They are taken out.
    ///
    /// Gives the stop of all together. At most one step, and 2 for each of these blocks.
    pub(crate) fn join_after(
        &mut self,
        group: Group,
        from: u32,
        high: u32,
        meter: &mut Meter,
    ) -> u32
        requires ordered { IsLedger key_cmp self.old.entries }
        requires upward { from ≤ high }
        ensures kept { KeepsOthers group self.old self.new }
        ensures joined { JoinsAfter self.old.options.distance (kept_in self.old.entries group) (kept_in self.new.entries group) from high result }
        ensures steps { TakesUpTo meter.old meter.new (1 + 2 * count_from (kept_in self.old.entries group) from (result + self.old.options.distance + 1 - from)) }
    {
        let mut high = high;
        'gather: while let Some((start, stop)) = self.from(group, from, meter) {
            if u64::from(start) > self.reach(high) {
                break;
            }
            self.remove_block(group, start, meter);
            high = high.max(stop);
        }
        high
    }

    /// The last position that an interval up to `stop` reaches.
    fn reach(&self, stop: u32) -> u64
        ensures { result ≡ stop + self.now.options.distance }
    {
        let distance = self.options.distance;
        u64::from(stop) + u64::from(distance)
    }

    /// Whether the blocks are the same without one record with these bounds: nothing is kept of the records in them, and the first
    /// of the group's other records from its start on begins there too, and reaches as far, as a copy does.
    ///
    /// At most 2 steps, and one for each other record, of any strand, that starts within these bounds.
    pub(crate) fn stays_covered(
        &self,
        track: &Track<A>,
        group: Group,
        start: u32,
        stop: u32,
        meter: &mut Meter,
    ) -> bool
        ensures covered { result ≡ true → StaysCovered self.now.options group track.now.records start stop }
        ensures steps { TakesUpTo meter.old meter.new (2 + length (between_on group.seq start stop track.now.records)) }
    {
        if self.ledger.has_results() {
            return false;
        }
        let mut members = Members::of(track, group, start, stop, meter);
        let Some(first) = members.next(meter) else {
            return false;
        };
        let (first_start, first_stop) = bounds_of(&first);
        if first_start != start {
            return false;
        }
        first_stop >= stop
    }

    /// Takes out the block of the group that starts here, if there is one. One step.
    pub(crate) fn remove_block(&mut self, group: Group, start: u32, meter: &mut Meter)
        ensures taken { self.new ≡ without_block self.old group start }
        ensures ordered { IsLedger key_cmp self.new.entries }
        ensures steps { TakesUpTo meter.old meter.new 1 }
    {
        self.ledger.remove(&group.key(start), meter);
    }

    /// Inserts the blocks of the records on the sequence of this rank over what is there, those of each strand.
    pub(crate) fn insert_sequence(
        &mut self,
        track: &Track<A>,
        genome: &Genome<A>,
        seq: u32,
        meter: &mut Meter,
    ) -> Result<(), AllocError>
        requires apart { self.old.options.stranded ≡ true }
        requires fit { All (Fits genome.now track.now.width) track.now.records }
        ensures { OnOk result (AreInsertedOn seq (names_of genome.now) track.now.records self.old self.new) }
    {
        let length = genome.length_u32(seq).unwrap_or(0);
        // As if a record over the whole sequence had been taken out of a block of its own.
        let whole = (0, length);
        let plus = Group {
            seq,
            side: Side::Plus,
        };
        self.split_block(track, genome, plus, whole, whole, meter)?;
        let minus = Group {
            seq,
            side: Side::Minus,
        };
        self.split_block(track, genome, minus, whole, whole, meter)
    }

    /// Inserts the blocks of a group's records that start within `block`, over what is there, once a record with the bounds `gone`
    /// is taken out of that block.
    ///
    /// It goes over those near `gone` alone: those that start before and don't reach it are in the first of the blocks, and once
    /// a block stops where `gone` does, or past it, all that are left are in that one. At most 2 steps, and 5 for each record, of
    /// any strand, that starts within `block`. After a refusal some of the blocks may be inserted.
    pub(crate) fn split_block(
        &mut self,
        track: &Track<A>,
        genome: &Genome<A>,
        group: Group,
        block: (u32, u32),
        gone: (u32, u32),
        meter: &mut Meter,
    ) -> Result<(), AllocError>
        requires apart { is_apart group.side ≡ self.old.options.stranded }
        requires fit { All (Fits genome.now track.now.width) track.now.records }
        requires rest { AreOthers self.old.options.distance block gone (members_between group block.0 block.1 track.now.records) }
        ensures ok { OnOk result (AreInserted group (names_of genome.now) (between block.0 block.1 track.now.records) self.old self.new) }
        ensures steps { TakesUpTo meter.old meter.new (2 + 5 * length (between_on group.seq block.0 block.1 track.now.records)) }
    {
        // The keys of the ledger ascend, even if nothing is inserted.
        let _ordered = self.ledger.len();
        let (low, high) = block;
        let from = self.first_near(track, low, gone.0);
        let mut members = Members::of(track, group, from, high, meter);
        let Some(first) = members.next(meter) else {
            return Ok(());
        };
        let (mut start, mut reached) = bounds_of(&first);
        if low < from {
            start = low;
        }
        'feature: while reached < gone.1 {
            let Some(feature) = members.next(meter) else {
                return self.insert_block(track, genome, group, start, reached, meter);
            };
            let (next_start, next_stop) = bounds_of(&feature);
            // If records start before `gone`, the block goes up to there without it too.
            let joined = self.reach(reached).max(u64::from(gone.0));
            if u64::from(next_start) <= joined {
                reached = reached.max(next_stop);
            } else {
                self.insert_block(track, genome, group, start, reached, meter)?;
                (start, reached) = (next_start, next_stop);
            }
        }
        self.insert_block(track, genome, group, start, high, meter)
    }

    /// From where on a record may reach `start`, or `low` if that is later.
    fn first_near(&self, track: &Track<A>, low: u32, start: u32) -> u32
        ensures from { low ≤ result }
        ensures within { result ≤ max low start }
        ensures near { low < result → All (λ r. r.start < result → r.stop + self.now.options.distance < start) track.now.records }
    {
        let distance = u64::from(self.options.distance);
        let near = u64::from(start).saturating_sub(distance);
        let first = near.saturating_sub(track.length_bound());
        first.max(u64::from(low)) as u32
    }

    /// Inserts the block of a group's records that start at `start` or after and below `stop`, over what is there.
    ///
    /// At most 3 steps, and one for each record, of any strand, that starts there.
    /// After a refusal the blocks are as before.
    pub(crate) fn insert_block(
        &mut self,
        track: &Track<A>,
        genome: &Genome<A>,
        group: Group,
        start: u32,
        stop: u32,
        meter: &mut Meter,
    ) -> Result<(), AllocError>
        ensures ok { OnOk result (self.new ≡ with_block self.old genome.now track.now.records group start stop) }
        ensures err { OnErr result (self.new ≡ self.old) }
        ensures was_ordered { OnOk result (IsLedger key_cmp self.old.entries) }
        ensures ordered { OnOk result (IsLedger key_cmp self.new.entries) }
        ensures steps { TakesUpTo meter.old meter.new (3 + length (between_on group.seq start stop track.now.records)) }
    {
        let block = self.kept_block(track, genome, group, start, stop, meter)?;
        self.ledger.put(group.key(start), block, meter)
    }

    /// What is kept of a block.
    ///
    /// At most 2 steps, and one for each record, of any strand, that starts in the block.
    fn kept_block(
        &self,
        track: &Track<A>,
        genome: &Genome<A>,
        group: Group,
        start: u32,
        stop: u32,
        meter: &mut Meter,
    ) -> Result<KeptBlock<A>, AllocError>
        ensures value { IfOk result (λ b. b ≡ record { stop = stop; results = results_over (sequence_name genome.now group.seq) (listed self.now.options.summaries) (members_between group start stop track.now.records) }) }
        ensures steps { TakesUpTo meter.old meter.new (2 + length (between_on group.seq start stop track.now.records)) }
    {
        if !self.ledger.has_results() {
            return Ok(KeptBlock::plain(stop));
        }
        let members = Members::of(track, group, start, stop, meter);
        let records = gather(self.alloc, members, meter)?;
        let name = genome.name_or_empty(group.seq);
        let summaries = self.options.summaries.as_slice();
        let results = results(self.alloc, summaries, name, records.as_slice())?;
        Ok(KeptBlock::copy_of(self.alloc, stop, results.as_slice())?)
    }
}

/// Start and stop of a block that is kept at a key, if it is one of the group.
pub(crate) fn of_group(group: Group, key: Key, stop: u32) -> Option<(u32, u32)>
    ensures { MatchOption result (key.0 ≡ group.seq → key.1 ≢ is_minus group.side)
        (λ b. (key ≡ key_of group b.0) × (b.1 ≡ stop)) }
{
    let (seq, minus, start) = key;
    if seq == group.seq && minus == group.side.is_minus() {
        Some((start, stop))
    } else {
        None
    }
}

/// The members that a walk has left, in order.
///
/// At most one step, and one for each record that the walk goes past.
fn gather<'a, A: Allocator + Copy>(
    alloc: A,
    members: Members<'a, A>,
    meter: &mut Meter,
) -> Result<Vec<RecordRef<'a>, A>, AllocError>
    ensures records { IfOk result (λ v. v.items ≡ members.entry.members) }
    ensures steps { TakesUpTo meter.old meter.new (1 + members.entry.passed_records) }
{
    let mut members = members;
    let mut records = Vec::new(alloc);
    while let Some(feature) = members.next(meter) {
        records.push(feature)?;
    }
    Ok(records)
}
