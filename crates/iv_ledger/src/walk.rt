//! A walk over entries of a ledger.
ghost use Rattle.std.specs.Prelude.{◌≡◌, All};
ghost use Rattle.std.specs.Map.Iter.{TakesFirst};
ghost use Rattle.iv_ledger.specs.Inside.Chunks.{AreFilled, IsWithin, concatenated, from};
ghost use Rattle.iv_ledger.specs.Entries.{lent_entry};
ghost use Rattle.iv_ledger.specs.Inside.Seen.{seen_chunks};
ghost use Rattle.iv_ledger.specs.Steps.{ticked};

use crate::entry_index::EntryIndex;
use crate::meter::Meter;
use crate::order::{Lends, Natural, Order};
use std::alloc::{Allocator, Global};
use std::marker::Model;

/// A walk over entries of a ledger, in order: an iterator whose `next` is counted.
///
/// Its model is the entries that are left, as the ledger's order reads them.
#[derive(Drop)]
pub struct Walk<'a, K, V, A: Allocator = Global, O: Order<K> = Natural> {
    pub(crate) order: &'a O,
    pub(crate) rest: &'a [(K, V)],
    pub(crate) later: &'a [Vec<(K, V), A>],
}

impl<'a, K, V, A: Allocator, O: Order<K>> Model for Walk<'a, K, V, A, O> {
    ghost use Rattle.std.specs.Prelude.{List, All, ◌++◌, map};
    ghost use Rattle.iv_ledger.specs.Inside.Seen.{seen};
    ghost use Rattle.iv_ledger.specs.Inside.Chunks.{AreFilled, concatenated};

    ghost Value = { List (O.Seen × V) };

    ghost view = { λ w. map (seen (O.read w.order.now)) (w.rest.now ++ concatenated w.later.now) };

    ghost invariant = { λ w. AreFilled w.later.now × All (λ e. O.IsKey w.order.now e.0) (w.rest.now ++ concatenated w.later.now) };
}

impl<'a, K, V, A: Allocator, O: Order<K>> Walk<'a, K, V, A, O> {
    /// The entries from an index on.
    pub(crate) fn from_index(
        order: &'a O,
        chunks: &'a [Vec<(K, V), A>],
        at: EntryIndex,
    ) -> Walk<'a, K, V, A, O>
        requires within { IsWithin chunks.now at }
        requires filled { AreFilled chunks.now }
        requires keys { All (λ e. O.IsKey order.now e.0) (concatenated chunks.now) }
        ensures { result ≡ from (seen_chunks (O.read order.now) chunks.now) at }
    {
        match chunks.get(at.chunk) {
            Some(chunk) => Walk {
                order,
                rest: &chunk[at.index..],
                later: &chunks[at.chunk + 1..],
            },
            None => Walk {
                order,
                rest: &[],
                later: &[],
            },
        }
    }

    /// The next entry, `None` after the last. Each call is one step, the last one too.
    #[inline(always)]
    pub fn next(&mut self, meter: &mut Meter) -> Option<(O::Lent, &'a V)>
    where
        O: Lends<'a, K>,
        ensures next { TakesFirst (lent_entry O.lent) self.old result self.new }
        ensures step { meter.new ≡ ticked meter.old }
    {
        meter.tick();
        self.advance()
    }

    /// The next entry, `None` after the last. It is no step.
    #[inline(always)]
    fn advance(&mut self) -> Option<(O::Lent, &'a V)>
    where
        O: Lends<'a, K>,
        ensures { TakesFirst (lent_entry O.lent) self.old result self.new }
    {
        let order = self.order;
        if let Some((entry, rest)) = self.rest.split_first() {
            let lent = order.lend(&entry.0);
            self.rest = rest;
            return Some((lent, &entry.1));
        }
        let (chunk, later) = self.later.split_first()?;
        let (entry, rest) = chunk.split_first()?;
        let lent = order.lend(&entry.0);
        self.rest = rest;
        self.later = later;
        Some((lent, &entry.1))
    }

    /// The same walk once more, from where it is now. It is no step, and takes no memory.
    pub fn again(&self) -> Walk<'a, K, V, A, O>
        ensures { result ≡ self.now }
    {
        Walk {
            order: self.order,
            rest: self.rest,
            later: self.later,
        }
    }
}
