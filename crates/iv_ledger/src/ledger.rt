//! An ordered map that counts its calls.
ghost use Rattle.std.specs.Prelude.{◌≡◌, ◌+◌, ◌^◌, ◌<◌, None, Some, [], length, map, IfOk, IfErr, OnOk, OnErr};
ghost use Rattle.std.specs.Option.{option_map, option_copied};
ghost use Rattle.std.specs.Map.{remove_entry, set_value};
ghost use Rattle.std.specs.BTreeMap.{is_at, insert_entry};
ghost use Rattle.std.specs.List.{filter};
ghost use Rattle.std.specs.Ordering.{is_le};
ghost use Rattle.iv_ledger.specs.Entries.{IsLedger, value_at, first_from, first_after, last_until, lent_entry};
ghost use Rattle.iv_ledger.specs.Inside.Chunks.{concatenated};
ghost use Rattle.iv_ledger.specs.Inside.Seen.{IsStored, seen};
ghost use Rattle.iv_ledger.specs.Steps.{ticked};

use crate::builder::MOST_ENTRIES;
use crate::entry_index::{self, find, index_after, index_from, insert_at, join_small, remove_at};
use crate::meter::Meter;
use crate::order::{Abbreviated, Keeps, Lends, Natural, Order, Seeks};
use crate::starts::Starts;
use crate::walk::Walk;
use std::alloc::{AllocError, Allocator, Global};
use std::marker::Model;
use std::mem;

/// An ordered map from keys to values that counts its calls, so that a contract can say how many a method makes.
///
/// Each call that takes a `Meter` adds one step to it, whatever it finds. Only `put` takes memory, and only for a new key. No key
/// occurs twice. Its model is the list of its entries in the order of the keys, as its order reads them.
///
/// The entries are in chunks, each a vector of some of them in order. No chunk is empty or has more than 256 entries, and the keys
/// ascend over all chunks. Beside the chunks are the abbreviations of their first keys, which only make a search faster: whatever
/// they are, a call answers the same.
#[derive(Drop)]
pub struct Ledger<K, V, A: Allocator = Global, O: Order<K> = Natural> {
    order: O,
    chunks: Vec<Vec<(K, V), A>, A>,
    starts: Starts<A>,
    len: usize,
}

impl<K, V, A: Allocator, O: Order<K>> Model for Ledger<K, V, A, O> {
    ghost use Rattle.std.specs.Prelude.{List};
    ghost use Rattle.iv_ledger.specs.Inside.Chunks.{concatenated};
    ghost use Rattle.iv_ledger.specs.Inside.Seen.{IsStored, seen_chunks};

    ghost Value = { List (O.Seen × V) };

    ghost view = { λ s. concatenated (seen_chunks (O.read s.order) s.chunks.items) };

    ghost invariant = { λ s. IsStored O.cmp (O.read s.order) (O.IsKey s.order) s.chunks.items s.len };
}

impl<K: Ord + Abbreviated + Drop, V: Drop, A: Allocator + Clone + Drop> Ledger<K, V, A> {
    /// No entry yet; nothing is allocated. It keeps the allocator for its entries.
    pub fn new(alloc: A) -> Self
        ensures { result ≡ [] }
    {
        Ledger::with_order(alloc, Natural)
    }
}

impl<K: Drop, V: Drop, A: Allocator + Clone + Drop, O: Order<K> + Drop> Ledger<K, V, A, O> {
    /// No entry yet, in this order; nothing is allocated.
    pub fn with_order(alloc: A, order: O) -> Self
        ensures { result ≡ [] }
    {
        Ledger {
            order,
            chunks: Vec::new(alloc),
            starts: Starts::new(),
            len: 0,
        }
    }

    /// The ledger of these chunks, which have so many entries, in this order.
    pub(crate) fn of_chunks(
        order: O,
        chunks: Vec<Vec<(K, V), A>, A>,
        len: usize,
    ) -> Result<Self, AllocError>
        requires { IsStored O.cmp (O.read order) (O.IsKey order) chunks.items len }
        ensures entries { IfOk result (λ l. l ≡ map (seen (O.read order)) (concatenated chunks.items)) }
        ensures ordered { IfOk result (λ l. IsLedger O.cmp l) }
    {
        let starts = Starts::of(chunks.allocator().clone()?, &order, &chunks)?;
        Ok(Ledger {
            order,
            chunks,
            starts,
            len,
        })
    }

    /// How many entries there are. It is no step.
    pub fn len(&self) -> usize
        ensures len { result ≡ length self.now }
        ensures small { result < 2 ^ 63 }
        ensures ordered { IsLedger O.cmp self.now }
    {
        self.len
    }

    /// The value at a key, `None` if the key is absent.
    pub fn get<Q>(&self, key: &Q, meter: &mut Meter) -> Option<&V>
    where
        O: Seeks<K, Q>,
        ensures value { option_copied result ≡ value_at O.cmp self.now (O.sought key.now) }
        ensures step { meter.new ≡ ticked meter.old }
    {
        meter.tick();
        match find(&self.order, &self.chunks, self.starts.as_slice(), key) {
            Ok(at) => Some(&self.chunks[at.chunk][at.index].1),
            Err(_) => None,
        }
    }

    /// Writes the value of a key, whether it is there or new, and gives the value before, `None` for a new key.
    ///
    /// # Errors
    ///
    /// An allocation failed, which happens for a new key alone. The ledger is unchanged.
    pub fn put<Q>(&mut self, key: Q, value: V, meter: &mut Meter) -> Result<Option<V>, AllocError>
    where
        O: Keeps<K, Q>,
        Q: Drop,
        ensures before { IfOk result (λ before. before ≡ value_at O.cmp self.old (O.sought key)) }
        ensures ok { OnOk result (self.new ≡ insert_entry O.cmp self.old (O.sought key) value) }
        ensures absent { OnErr result (value_at O.cmp self.old (O.sought key) ≡ None) }
        ensures err { OnErr result (self.new ≡ self.old) }
        ensures was_ordered { IsLedger O.cmp self.old }
        ensures ordered { IsLedger O.cmp self.new }
        ensures step { meter.new ≡ ticked meter.old }
    {
        meter.tick();
        match find(&self.order, &self.chunks, self.starts.as_slice(), &key) {
            Ok(at) => Ok(Some(mem::replace(&mut self.chunks[at.chunk][at.index].1, value))),
            Err(gap) => {
                if self.len == MOST_ENTRIES {
                    return Err(AllocError);
                }
                self.starts.make_room(&self.chunks, gap)?;
                let key = self.order.keep(key)?;
                let put = insert_at(&mut self.chunks, gap, (key, value));
                self.starts.follow_insert(&self.order, &self.chunks, gap);
                put?;
                self.len += 1;
                Ok(None)
            }
        }
    }

    /// Writes the value of a key that is there and gives the old one. It takes no memory.
    ///
    /// # Errors
    ///
    /// The key is absent: the new value is given back, and the ledger is unchanged.
    pub fn set<Q>(&mut self, key: &Q, value: V, meter: &mut Meter) -> Result<V, V>
    where
        O: Seeks<K, Q>,
        ensures ok { IfOk result (λ before. value_at O.cmp self.old (O.sought key.now) ≡ Some before) }
        ensures written { OnOk result (self.new ≡ set_value (is_at (O.cmp (O.sought key.now))) self.old value) }
        ensures absent { IfErr result (λ back. back ≡ value × (value_at O.cmp self.old (O.sought key.now) ≡ None)) }
        ensures err { OnErr result (self.new ≡ self.old) }
        ensures ordered { IsLedger O.cmp self.new }
        ensures step { meter.new ≡ ticked meter.old }
    {
        meter.tick();
        match find(&self.order, &self.chunks, self.starts.as_slice(), key) {
            Ok(at) => Ok(mem::replace(&mut self.chunks[at.chunk][at.index].1, value)),
            Err(_) => Err(value),
        }
    }

    /// Takes a key out and gives its value, `None` if the key is absent. It takes no memory.
    pub fn take<Q>(&mut self, key: &Q, meter: &mut Meter) -> Option<V>
    where
        O: Seeks<K, Q>,
        ensures value { result ≡ value_at O.cmp self.old (O.sought key.now) }
        ensures rest { self.new ≡ remove_entry (is_at (O.cmp (O.sought key.now))) self.old }
        ensures ordered { IsLedger O.cmp self.new }
        ensures step { meter.new ≡ ticked meter.old }
    {
        meter.tick();
        match find(&self.order, &self.chunks, self.starts.as_slice(), key) {
            Ok(at) => {
                let (_, value) = remove_at(&mut self.chunks, at);
                self.starts.follow_remove(&self.order, &self.chunks, at);
                let joined = join_small(&mut self.chunks, at.chunk);
                self.starts.follow_join(joined);
                self.len -= 1;
                Some(value)
            }
            Err(_) => None,
        }
    }

    /// The entry of the first key at or after this one, in order, `None` if there is none.
    pub fn at_or_after<'a, Q>(&'a self, key: &Q, meter: &mut Meter) -> Option<(O::Lent, &'a V)>
    where
        O: Seeks<K, Q> + Lends<'a, K>,
        ensures entry { option_map (lent_entry O.lent) result ≡ first_from O.cmp self.now (O.sought key.now) }
        ensures ordered { IsLedger O.cmp self.now }
        ensures step { meter.new ≡ ticked meter.old }
    {
        meter.tick();
        let at = index_from(&self.order, &self.chunks, self.starts.as_slice(), key);
        let entry = entry_index::first_from(&self.chunks, at)?;
        Some((self.order.lend(&entry.0), &entry.1))
    }

    /// The entry of the last key at or before this one, in order, `None` if there is none.
    pub fn at_or_before<'a, Q>(&'a self, key: &Q, meter: &mut Meter) -> Option<(O::Lent, &'a V)>
    where
        O: Seeks<K, Q> + Lends<'a, K>,
        ensures entry { option_map (lent_entry O.lent) result ≡ last_until O.cmp self.now (O.sought key.now) }
        ensures ordered { IsLedger O.cmp self.now }
        ensures step { meter.new ≡ ticked meter.old }
    {
        meter.tick();
        match find(&self.order, &self.chunks, self.starts.as_slice(), key) {
            Ok(at) => {
                let entry = &self.chunks[at.chunk][at.index];
                Some((self.order.lend(&entry.0), &entry.1))
            }
            Err(gap) => {
                let index = gap.index.checked_sub(1)?;
                let entry = &self.chunks[gap.chunk][index];
                Some((self.order.lend(&entry.0), &entry.1))
            }
        }
    }

    /// The entry of the first key after this one, in order, `None` if there is none.
    pub fn after<'a, Q>(&'a self, key: &Q, meter: &mut Meter) -> Option<(O::Lent, &'a V)>
    where
        O: Seeks<K, Q> + Lends<'a, K>,
        ensures entry { option_map (lent_entry O.lent) result ≡ first_after O.cmp self.now (O.sought key.now) }
        ensures ordered { IsLedger O.cmp self.now }
        ensures step { meter.new ≡ ticked meter.old }
    {
        meter.tick();
        let at = index_after(&self.order, &self.chunks, self.starts.as_slice(), key);
        let entry = entry_index::first_from(&self.chunks, at)?;
        Some((self.order.lend(&entry.0), &entry.1))
    }

    /// A walk over no entry.
    pub fn none(&self) -> Walk<'_, K, V, A, O>
        ensures { result ≡ [] }
    {
        Walk {
            order: &self.order,
            rest: &[],
            later: &[],
        }
    }

    /// All entries, in order. Beginning is one step, and each call of the walk's `next` another.
    pub fn walk_all(&self, meter: &mut Meter) -> Walk<'_, K, V, A, O>
        ensures entries { result ≡ self.now }
        ensures step { meter.new ≡ ticked meter.old }
    {
        meter.tick();
        Walk {
            order: &self.order,
            rest: &[],
            later: &self.chunks,
        }
    }

    /// The entries from a key on, in order. Beginning is one step, and each call of the walk's `next` another.
    pub fn walk<Q>(&self, key: &Q, meter: &mut Meter) -> Walk<'_, K, V, A, O>
    where
        O: Seeks<K, Q>,
        ensures entries { result ≡ filter (λ e. is_le (O.cmp (O.sought key.now) e.0)) self.now }
        ensures ordered { IsLedger O.cmp self.now }
        ensures step { meter.new ≡ ticked meter.old }
    {
        meter.tick();
        let at = index_from(&self.order, &self.chunks, self.starts.as_slice(), key);
        Walk::from_index(&self.order, &self.chunks, at)
    }
}
