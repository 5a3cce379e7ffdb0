//! The blocks by key: an ordered map whose entries are short if no results are kept.
ghost use Rattle.std.specs.Prelude.{◌≡◌, ◌<◌, ◌^◌, false, true, [], length, map, OnOk, OnErr};
ghost use Rattle.std.specs.BTreeMap.{is_at, insert_entry};
ghost use Rattle.std.specs.List.{filter};
ghost use Rattle.std.specs.Map.{remove_entry};
ghost use Rattle.std.specs.Map.Iter.{TakesFirst};
ghost use Rattle.std.specs.Option.{option_map};
ghost use Rattle.std.specs.Ordering.{is_le};
ghost use Rattle.iv_ledger.specs.Entries.{IsLedger, first_from, last_until};
ghost use Rattle.iv_ledger.specs.Steps.{ticked};
ghost use Rattle.iv_blocks.specs.Inside.StoredBlocks.{plain_entry, key_and_stop, entry_shown};
ghost use Rattle.iv_blocks.specs.KeptBlocks.{key_cmp};

use crate::group::Key;
use crate::kept_block::KeptBlock;
use iv_ledger::{Ledger, Meter, Walk};
use std::alloc::{AllocError, Allocator};
use std::marker::Model;

/// The blocks by key, in one ledger: where each stops, and its results.
///
/// Its model is whether results are kept, and the list of the entries in the order of the keys. A call that takes a `Meter` is one
/// step.
#[derive(Drop)]
pub(crate) struct BlockLedger<A: Allocator + Copy> {
    storage: Storage<A>,
}

/// The ledger, by whether results are kept. If not, an entry takes 16 bytes.
#[derive(Drop)]
enum Storage<A: Allocator + Copy> {
    Plain(Ledger<Key, u32, A>),
    WithResults(Ledger<Key, KeptBlock<A>, A>),
}

impl<A: Allocator + Copy> Model for BlockLedger<A> {
    ghost use Rattle.iv_blocks.specs.Inside.StoredBlocks.{StoredBlocks, stored};

    ghost Value = { StoredBlocks };

    ghost view = { λ l. stored l.storage };
}

impl<A: Allocator + Copy> BlockLedger<A> {
    /// No block yet; nothing is allocated.
    pub(crate) fn new(alloc: A, with_results: bool) -> Self
        ensures { result ≡ record { with_results = with_results; entries = [] } }
    {
        if with_results {
            BlockLedger::with_results(Ledger::new(alloc))
        } else {
            BlockLedger::plain(Ledger::new(alloc))
        }
    }

    /// Blocks without results, by their stops.
    pub(crate) fn plain(ledger: Ledger<Key, u32, A>) -> Self
        ensures { result ≡ record { with_results = false; entries = map plain_entry ledger } }
    {
        BlockLedger {
            storage: Storage::Plain(ledger),
        }
    }

    /// Blocks with results.
    pub(crate) fn with_results(ledger: Ledger<Key, KeptBlock<A>, A>) -> Self
        ensures { result ≡ record { with_results = true; entries = ledger } }
    {
        BlockLedger {
            storage: Storage::WithResults(ledger),
        }
    }

    /// Whether results are kept.
    pub(crate) fn has_results(&self) -> bool
        ensures { result ≡ self.now.with_results }
    {
        matches!(&self.storage, Storage::WithResults(_))
    }

    /// How many blocks there are. It is no step.
    pub(crate) fn len(&self) -> usize
        ensures len { result ≡ length self.now.entries }
        ensures small { result < 2 ^ 63 }
        ensures ordered { IsLedger key_cmp self.now.entries }
    {
        match &self.storage {
            Storage::Plain(ledger) => ledger.len(),
            Storage::WithResults(ledger) => ledger.len(),
        }
    }

    /// The key and the stop of the block with the first key at or after this one, `None` if there is none.
    pub(crate) fn at_or_after(&self, key: &Key, meter: &mut Meter) -> Option<(Key, u32)>
        ensures entry { result ≡ option_map key_and_stop (first_from key_cmp self.now.entries key.now) }
        ensures ordered { IsLedger key_cmp self.now.entries }
        ensures step { meter.new ≡ ticked meter.old }
    {
        match &self.storage {
            Storage::Plain(ledger) => {
                let (key, stop) = ledger.at_or_after(key, meter)?;
                Some((*key, *stop))
            }
            Storage::WithResults(ledger) => {
                let (key, block) = ledger.at_or_after(key, meter)?;
                Some((*key, block.stop()))
            }
        }
    }

    /// The key and the stop of the block with the last key at or before this one, `None` if there is none.
    pub(crate) fn at_or_before(&self, key: &Key, meter: &mut Meter) -> Option<(Key, u32)>
        ensures entry { result ≡ option_map key_and_stop (last_until key_cmp self.now.entries key.now) }
        ensures ordered { IsLedger key_cmp self.now.entries }
        ensures step { meter.new ≡ ticked meter.old }
    {
        match &self.storage {
            Storage::Plain(ledger) => {
                let (key, stop) = ledger.at_or_before(key, meter)?;
                Some((*key, *stop))
            }
            Storage::WithResults(ledger) => {
                let (key, block) = ledger.at_or_before(key, meter)?;
                Some((*key, block.stop()))
            }
        }
    }

    /// Writes the block of a key, whether one is there or not. If no results are kept, the block has none.
    ///
    /// # Errors
    ///
    /// An allocation failed, and the ledger is unchanged.
    pub(crate) fn put(
        &mut self,
        key: Key,
        block: KeptBlock<A>,
        meter: &mut Meter,
    ) -> Result<(), AllocError>
        requires { self.old.with_results ≡ false → block.results ≡ [] }
        ensures ok { OnOk result (self.new ≡ record self.old { entries = insert_entry key_cmp self.old.entries key block }) }
        ensures err { OnErr result (self.new ≡ self.old) }
        ensures was_ordered { IsLedger key_cmp self.old.entries }
        ensures ordered { IsLedger key_cmp self.new.entries }
        ensures step { meter.new ≡ ticked meter.old }
    {
        match &mut self.storage {
            Storage::Plain(ledger) => {
                ledger.put(key, block.stop(), meter)?;
                Ok(())
            }
            Storage::WithResults(ledger) => {
                ledger.put(key, block, meter)?;
                Ok(())
            }
        }
    }

    /// Takes the block of a key out, if there is one. It takes no memory.
    pub(crate) fn remove(&mut self, key: &Key, meter: &mut Meter)
        ensures taken { self.new ≡ record self.old { entries = remove_entry (is_at (key_cmp key.now)) self.old.entries } }
        ensures ordered { IsLedger key_cmp self.new.entries }
        ensures step { meter.new ≡ ticked meter.old }
    {
        match &mut self.storage {
            Storage::Plain(ledger) => {
                ledger.take(key, meter);
            }
            Storage::WithResults(ledger) => {
                ledger.take(key, meter);
            }
        }
    }

    /// All blocks, in order. Beginning is one step, and each call of the walk's `next` another.
    pub(crate) fn walk_all(&self, meter: &mut Meter) -> LedgerWalk<'_, A>
        ensures entries { result ≡ self.now.entries }
        ensures step { meter.new ≡ ticked meter.old }
    {
        match &self.storage {
            Storage::Plain(ledger) => LedgerWalk {
                rest: Rest::Plain(ledger.walk_all(meter)),
            },
            Storage::WithResults(ledger) => LedgerWalk {
                rest: Rest::WithResults(ledger.walk_all(meter)),
            },
        }
    }

    /// The blocks from a key on, in order. Beginning is one step, and each call of the walk's `next` another.
    pub(crate) fn walk(&self, key: &Key, meter: &mut Meter) -> LedgerWalk<'_, A>
        ensures entries { result ≡ filter (λ e. is_le (key_cmp key.now e.0)) self.now.entries }
        ensures ordered { IsLedger key_cmp self.now.entries }
        ensures step { meter.new ≡ ticked meter.old }
    {
        match &self.storage {
            Storage::Plain(ledger) => LedgerWalk {
                rest: Rest::Plain(ledger.walk(key, meter)),
            },
            Storage::WithResults(ledger) => LedgerWalk {
                rest: Rest::WithResults(ledger.walk(key, meter)),
            },
        }
    }
}

/// A block as a walk gives it.
#[derive(Clone, Copy)]
pub(crate) struct BlockEntry<'a> {
    /// Where it is kept.
    pub(crate) key: Key,
    /// Where it stops, from 0, not included.
    pub(crate) stop: u32,
    /// Its results, each with a TAB in front of it.
    pub(crate) results: &'a [u8],
}

/// A walk over blocks, in order: an iterator whose `next` is counted.
///
/// Its model is the list of the entries that are left.
#[derive(Drop)]
pub(crate) struct LedgerWalk<'a, A: Allocator + Copy> {
    rest: Rest<'a, A>,
}

/// The entries that are left, by whether results are kept.
#[derive(Drop)]
enum Rest<'a, A: Allocator + Copy> {
    Plain(Walk<'a, Key, u32, A>),
    WithResults(Walk<'a, Key, KeptBlock<A>, A>),
}

impl<'a, A: Allocator + Copy> Model for LedgerWalk<'a, A> {
    ghost use Rattle.iv_blocks.specs.KeptBlocks.{Entries};
    ghost use Rattle.iv_blocks.specs.Inside.StoredBlocks.{entries_left};

    ghost Value = { Entries };

    ghost view = { λ w. entries_left w.rest };
}

impl<'a, A: Allocator + Copy> LedgerWalk<'a, A> {
    /// The next block, `None` after the last. Each call is one step, the last one too.
    pub(crate) fn next(&mut self, meter: &mut Meter) -> Option<BlockEntry<'a>>
        ensures next { TakesFirst entry_shown self.old result self.new }
        ensures step { meter.new ≡ ticked meter.old }
    {
        match &mut self.rest {
            Rest::Plain(walk) => {
                let (key, stop) = walk.next(meter)?;
                Some(BlockEntry {
                    key: *key,
                    stop: *stop,
                    results: &[],
                })
            }
            Rest::WithResults(walk) => {
                let (key, block) = walk.next(meter)?;
                Some(BlockEntry {
                    key: *key,
                    stop: block.stop(),
                    results: block.results(),
                })
            }
        }
    }
}
