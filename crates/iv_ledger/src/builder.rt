//! A ledger that is built from its first entry to its last.
ghost use Rattle.std.specs.Prelude.{◌≡◌, ◌≤◌, ◌++◌, ◌∷◌, [], All, map, vec_len, IfOk, OnOk, OnErr};
ghost use Rattle.iv_ledger.specs.Entries.{IsLedger};
ghost use Rattle.iv_ledger.specs.Inside.Seen.{seen};
ghost use Rattle.iv_ledger.specs.Inside.Chunks.{AreFilled, concatenated, most_at_once};

use crate::entry_index::MOST_IN_CHUNK;
use crate::ledger::Ledger;
use crate::order::Order;
use std::alloc::{AllocError, Allocator, Global};
use std::marker::Model;
use std::mem;

/// How many entries each chunk except the last has in a ledger that is built at once: there is room for later ones.
const MOST_AT_ONCE: usize = 240;

/// More entries than there is memory for.
pub(crate) const MOST_ENTRIES: usize = 9_223_372_036_854_775_807;

/// A ledger that is built from its first entry to its last. No call of it is a step.
///
/// Its model is the list of its entries so far.
#[derive(Drop)]
pub struct LedgerBuilder<K, V, A: Allocator = Global> {
    chunks: Vec<Vec<(K, V), A>, A>,
    // The entries after those of the chunks.
    last: Vec<(K, V), A>,
    len: usize,
}

impl<K, V, A: Allocator> Model for LedgerBuilder<K, V, A> {
    ghost use Rattle.std.specs.Prelude.{List, ◌++◌};
    ghost use Rattle.iv_ledger.specs.Inside.Chunks.{ArePieces, concatenated};

    ghost Value = { List (K × V) };

    ghost view = { λ b. concatenated b.chunks.items ++ b.last.items };

    ghost invariant = { λ b. ArePieces b.chunks.items b.last b.len };
}

impl<K: Drop, V: Drop, A: Allocator + Clone + Drop> LedgerBuilder<K, V, A> {
    /// No entry yet; nothing is allocated. It keeps the allocator for its entries.
    pub fn new(alloc: A) -> Result<Self, AllocError>
        ensures { IfOk result (λ b. b ≡ []) }
    {
        Ok(LedgerBuilder {
            chunks: Vec::new(alloc.clone()?),
            last: Vec::new(alloc),
            len: 0,
        })
    }

    /// Adds an entry after all others.
    ///
    /// # Errors
    ///
    /// An allocation failed: the entries are as before.
    #[inline(always)]
    pub fn push(&mut self, key: K, value: V) -> Result<(), AllocError>
        ensures ok { OnOk result (self.new ≡ self.old ++ (key, value) ∷ []) }
        ensures err { OnErr result (self.new ≡ self.old) }
    {
        if self.len == MOST_ENTRIES {
            return Err(AllocError);
        }
        if self.last.len() == MOST_AT_ONCE {
            self.chunks.reserve(1)?;
            let mut next = Vec::with_capacity(self.chunks.allocator().clone()?, MOST_IN_CHUNK)?;
            next.push((key, value))?;
            self.chunks
                .push_reserved(mem::replace(&mut self.last, next));
            self.len += 1;
            return Ok(());
        }
        if self.last.is_empty() {
            self.last.reserve(MOST_IN_CHUNK)?;
        }
        self.last.push((key, value))?;
        self.len += 1;
        Ok(())
    }

    /// The ledger of these entries, in this order. What it reads of their keys ascends.
    pub fn finish<O: Order<K> + Drop>(self, order: O) -> Result<Ledger<K, V, A, O>, AllocError>
        requires keys { All (λ e. O.IsKey order e.0) self }
        requires ascend { IsLedger O.cmp (map (seen (O.read order)) self) }
        ensures entries { IfOk result (λ l. l ≡ map (seen (O.read order)) self) }
        ensures ordered { IfOk result (λ l. IsLedger O.cmp l) }
    {
        let LedgerBuilder { chunks, last, len } = self;
        Ledger::of_chunks(order, with_last(chunks, last)?, len)
    }
}

/// The chunks with the entries after theirs.
fn with_last<T: Drop, A: Allocator + Drop>(
    chunks: Vec<Vec<T, A>, A>,
    last: Vec<T, A>,
) -> Result<Vec<Vec<T, A>, A>, AllocError>
    requires filled { AreFilled chunks.items }
    requires last { vec_len last ≤ most_at_once }
    ensures all { IfOk result (λ all. concatenated all.items ≡ concatenated chunks.items ++ last.items) }
    ensures filled { IfOk result (λ all. AreFilled all.items) }
{
    if last.is_empty() {
        return Ok(chunks);
    }
    let mut chunks = chunks;
    chunks.push(last)?;
    Ok(chunks)
}
