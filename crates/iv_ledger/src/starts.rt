//! Numbers instead of keys, by which a search begins.
ghost use Rattle.std.specs.Prelude.{◌≡◌, ◌+◌, ◌<◌, ◌≤◌, [], None, vec_len, IfSome};
ghost use Rattle.iv_ledger.specs.Inside.Replaced.{IsReplaced};

use crate::entry_index::{EntryIndex, MOST_IN_CHUNK};
use crate::order::Order;
use std::alloc::{AllocError, Allocator};
use std::marker::Model;

/// The abbreviations of the first keys of chunks, side by side, so that a search for a chunk stays in few lines of memory.
///
/// They give a search its first guess, and no answer rests on them. So the contracts don't say which numbers they are. They say which
/// ones a call leaves as they were: all except those of the chunk at its index.
///
/// The model is their list.
#[derive(Drop)]
pub(crate) struct Starts<A: Allocator> {
    list: Option<Vec<u64, A>>,
}

impl<A: Allocator> Model for Starts<A> {
    ghost use Rattle.std.specs.Prelude.{ℕ, List};
    ghost use Rattle.iv_ledger.specs.Inside.Replaced.{listed};

    ghost Value = { List ℕ };

    ghost view = { λ s. listed s.list };
}

impl<A: Allocator + Clone + Drop> Starts<A> {
    /// No abbreviation yet; nothing is allocated.
    pub(crate) fn new() -> Self
        ensures { result ≡ [] }
    {
        Starts { list: None }
    }

    /// The abbreviations of these chunks.
    pub(crate) fn of<K, V, O: Order<K>>(
        alloc: A,
        order: &O,
        chunks: &[Vec<(K, V), A>],
    ) -> Result<Self, AllocError> {
        let mut list = Vec::with_capacity(alloc, chunks.len())?;
        for chunk in chunks {
            if let Some(entry) = chunk.first() {
                list.push(order.abbreviation(&entry.0))?;
            }
        }
        Ok(Starts { list: Some(list) })
    }

    /// The abbreviations, in the order of the chunks.
    pub(crate) fn as_slice(&self) -> &[u64]
        ensures { result.now ≡ self.now }
    {
        match &self.list {
            Some(list) => list,
            None => &[],
        }
    }

    /// Makes room for one more if an entry at this index will make a new chunk.
    pub(crate) fn make_room<T>(
        &mut self,
        chunks: &Vec<Vec<T, A>, A>,
        at: EntryIndex,
    ) -> Result<(), AllocError>
        ensures same { self.new ≡ self.old }
    {
        if let Some(chunk) = chunks.get(at.chunk) {
            if chunk.len() < MOST_IN_CHUNK {
                return Ok(());
            }
        }
        if let Some(list) = &mut self.list {
            list.reserve(1)?;
            return Ok(());
        }
        self.list = Some(Vec::with_capacity(chunks.allocator().clone()?, 4)?);
        Ok(())
    }

    /// Follows the chunks after an entry was inserted at an index.
    pub(crate) fn follow_insert<K, V, O: Order<K>>(
        &mut self,
        order: &O,
        chunks: &[Vec<(K, V), A>],
        at: EntryIndex,
    )
        ensures others { IsReplaced self.old at.chunk 1 2 self.new }
    {
        if let Some(list) = &mut self.list {
            insert_and_write(list, order, chunks, at);
        }
    }

    /// Follows the chunks after the entry at an index was taken out.
    pub(crate) fn follow_remove<K, V, O: Order<K>>(
        &mut self,
        order: &O,
        chunks: &[Vec<(K, V), A>],
        at: EntryIndex,
    )
        ensures others { IsReplaced self.old at.chunk 1 1 self.new }
    {
        if let Some(list) = &mut self.list {
            remove_or_write(list, order, chunks, at);
        }
    }

    /// Follows the chunks after the entries of the one after this, if there is one, were moved into it.
    pub(crate) fn follow_join(&mut self, joined: Option<usize>)
        ensures others { IfSome joined (λ chunk. IsReplaced self.old (chunk + 1) 1 1 self.new) }
        ensures none { joined ≡ None → self.new ≡ self.old }
    {
        let Some(chunk) = joined else {
            return;
        };
        if let Some(list) = &mut self.list {
            remove_next(list, chunk);
        }
    }
}

/// The index after this one in a list of so many items, or its end.
fn next_index(index: usize, len: usize) -> usize
    ensures next { index < len → result ≡ index + 1 }
    ensures end { len ≤ index → result ≡ len }
{
    if index < len { index + 1 } else { len }
}

/// The abbreviation of the first key of a chunk, if there is one.
fn first_start<K, V, A: Allocator, O: Order<K>>(
    order: &O,
    chunks: &[Vec<(K, V), A>],
    chunk: usize,
) -> Option<u64> {
    let entry = chunks.get(chunk)?.first()?;
    Some(order.abbreviation(&entry.0))
}

/// Inserts the abbreviation of a chunk if there are more chunks than abbreviations.
fn insert_start<K, V, A: Allocator, O: Order<K>>(
    list: &mut Vec<u64, A>,
    order: &O,
    chunks: &[Vec<(K, V), A>],
    chunk: usize,
)
    requires in_range { chunk ≤ vec_len list.old }
    ensures others { IsReplaced list.old.items chunk 0 1 list.new.items }
{
    if chunks.len() <= list.len() || list.capacity() <= list.len() {
        return;
    }
    let Some(start) = first_start(order, chunks, chunk) else {
        return;
    };
    match list.insert(chunk, start) {
        Ok(()) => {}
        Err(_) => unreachable!(),
    }
}

/// Writes the abbreviation of a chunk if the index is that of its first entry.
fn write_start<K, V, A: Allocator, O: Order<K>>(
    list: &mut Vec<u64, A>,
    order: &O,
    chunks: &[Vec<(K, V), A>],
    at: EntryIndex,
)
    ensures others { IsReplaced list.old.items at.chunk 1 1 list.new.items }
{
    if at.index > 0 || list.len() <= at.chunk {
        return;
    }
    let Some(start) = first_start(order, chunks, at.chunk) else {
        return;
    };
    list[at.chunk] = start;
}

/// Inserts the abbreviation of the next chunk if there are more chunks than abbreviations, and writes as `write_start` does.
fn insert_and_write<K, V, A: Allocator, O: Order<K>>(
    list: &mut Vec<u64, A>,
    order: &O,
    chunks: &[Vec<(K, V), A>],
    at: EntryIndex,
)
    ensures others { IsReplaced list.old.items at.chunk 1 2 list.new.items }
{
    let next = next_index(at.chunk, list.len());
    insert_start(list, order, chunks, next);
    write_start(list, order, chunks, at);
}

/// Removes the abbreviation of a chunk if there are fewer chunks than abbreviations, or else writes it as `write_start` does.
fn remove_or_write<K, V, A: Allocator, O: Order<K>>(
    list: &mut Vec<u64, A>,
    order: &O,
    chunks: &[Vec<(K, V), A>],
    at: EntryIndex,
)
    ensures others { IsReplaced list.old.items at.chunk 1 1 list.new.items }
{
    if list.len() <= chunks.len() {
        write_start(list, order, chunks, at);
        return;
    }
    remove_start(list, at.chunk);
}

/// Removes the abbreviation of the chunk after this one, if there is one.
fn remove_next<A: Allocator>(list: &mut Vec<u64, A>, chunk: usize)
    ensures others { IsReplaced list.old.items (chunk + 1) 1 1 list.new.items }
{
    if chunk >= list.len() {
        return;
    }
    remove_start(list, chunk + 1);
}

/// Removes the abbreviation of a chunk, if there is one.
fn remove_start<A: Allocator>(list: &mut Vec<u64, A>, chunk: usize)
    ensures others { IsReplaced list.old.items chunk 1 0 list.new.items }
{
    if chunk < list.len() {
        list.remove(chunk);
    }
}
