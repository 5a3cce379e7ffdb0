//! Indexes in a list of chunks, and what is done at them.
ghost use Rattle.std.specs.Prelude.{◌≡◌, ◌+◌, ◌-◌, ◌<◌, ◌≤◌, true, false, None, [], ◌∷◌, ◌++◌, length, take, drop, All, vec_len, vec_capacity, IfOk, OnOk, IfErr, OnErr, IfSome};
ghost use Rattle.std.specs.List.{filter, slice_get, HoldsAt};
ghost use Rattle.std.specs.Ordering.{is_le, is_lt};
ghost use Rattle.std.specs.List.Sorted.{IsPartitionPoint};
ghost use Rattle.iv_ledger.specs.Entries.{IsLedger};
ghost use Rattle.std.specs.Option.{option_copied};
ghost use Rattle.iv_ledger.specs.Inside.Chunks.{AreChunks, AreFilled, AreSmall, IsFound, IsGap, IsInside, IsWithin, IsSplit, IsIndexWithRoom, before, from, concatenated, most_in_chunk, starts_by};
ghost use Rattle.iv_ledger.specs.Inside.Replaced.{IsAmong, IsReplaced};
ghost use Rattle.iv_ledger.specs.Inside.Seen.{seen, seen_chunks};
ghost use Rattle.std.specs.Prelude.{map};

use crate::order::Seeks;
use std::alloc::{AllocError, Allocator};
use std::cmp::Ordering;

/// The most entries that one chunk has.
pub(crate) const MOST_IN_CHUNK: usize = 256;

/// Where an entry is in a list of chunks: the index of a chunk, and an index in it.
#[derive(Clone, Copy)]
pub(crate) struct EntryIndex {
    pub(crate) chunk: usize,
    pub(crate) index: usize,
}

/// Where the key is, or else the index before which it would go.
///
/// The abbreviations of the chunks' first keys give the chunk to begin with. They are a guess that is looked at: if the key turns out to
/// be in another chunk, its index is found by the keys alone.
pub(crate) fn find<K, V, A: Allocator, Q, O: Seeks<K, Q>>(
    order: &O,
    chunks: &[Vec<(K, V), A>],
    starts: &[u64],
    probe: &Q,
) -> Result<EntryIndex, EntryIndex>
    requires chunks { AreChunks O.cmp (seen_chunks (O.read order.now) chunks.now) }
    requires filled { AreFilled chunks.now }
    ensures found { IfOk result (IsFound O.cmp (seen_chunks (O.read order.now) chunks.now) (O.sought probe.now)) }
    ensures absent { IfErr result (IsGap O.cmp (seen_chunks (O.read order.now) chunks.now) (O.sought probe.now)) }
    ensures inside { IfOk result (IsInside chunks.now) }
    ensures within { IfErr result (IsWithin chunks.now) }
{
    match find_near(order, chunks, starts, probe) {
        Ok(at) => Ok(at),
        Err(gap) => {
            if is_above_last(order, chunks, probe, gap)
                && is_below_next(order, chunks, probe, gap)
            {
                return Err(gap);
            }
            find_by_keys(order, chunks, probe)
        }
    }
}

/// Where the key is in the chunk that the abbreviations point to, or else an index where it may be missing.
fn find_near<K, V, A: Allocator, Q, O: Seeks<K, Q>>(
    order: &O,
    chunks: &[Vec<(K, V), A>],
    starts: &[u64],
    probe: &Q,
) -> Result<EntryIndex, EntryIndex>
    ensures found { IfOk result (IsFound O.cmp (seen_chunks (O.read order.now) chunks.now) (O.sought probe.now)) }
    ensures absent { IfErr result (IsWithin chunks.now) }
{
    let abbreviation = order.guess(probe);
    let chunk = starts
        .partition_point(|start: &u64| -> bool { *start <= abbreviation })
        .saturating_sub(1);
    if chunks.len() <= chunk {
        return Err(EntryIndex { chunk: 0, index: 0 });
    }
    let entries = &chunks[chunk];
    let guess = in_proportion(starts, chunk, abbreviation, entries.len());
    match search_near(order, entries, probe, guess) {
        Ok(index) => Ok(EntryIndex { chunk, index }),
        Err(index) => Err(EntryIndex { chunk, index }),
    }
}

/// An index among so many entries of a chunk, as far on as the abbreviation is between the first of the chunk and that of the next.
fn in_proportion(starts: &[u64], chunk: usize, abbreviation: u64, len: usize) -> usize {
    let Some(first) = starts.get(chunk) else {
        return 0;
    };
    let Some(next) = starts.get(chunk + 1) else {
        return len / 2;
    };
    let before = abbreviation.saturating_sub(*first);
    let all = next.saturating_sub(*first);
    if all == 0 || before >= all || all >= 4_294_967_296 {
        return len / 2;
    }
    (before.wrapping_mul(len as u64) / all) as usize
}

/// Where the key is, or else an index where it may be missing. The search begins at a guess.
fn search_near<K, V, Q, O: Seeks<K, Q>>(
    order: &O,
    entries: &[(K, V)],
    probe: &Q,
    guess: usize,
) -> Result<usize, usize>
    ensures bound { IfOk result (λ i. i < length entries.now) }
    ensures found { IfOk result (HoldsAt (λ e. O.cmp (O.sought probe.now) (O.read order.now e.0) ≡ Ordering.Equal) entries.now) }
    ensures absent { IfErr result (λ i. i ≤ length entries.now) }
{
    let mut low = 0;
    let mut high = entries.len();
    let mut next = guess;
    let mut step = 2usize;
    while low < high {
        let at = between(low, high, next);
        match order.compare(probe, &entries[at].0) {
            Ordering::Equal => return Ok(at),
            Ordering::Greater => {
                low = at + 1;
                next = low.wrapping_add(step).min(middle(low, high));
            }
            Ordering::Less => {
                high = at;
                next = high.saturating_sub(step).max(middle(low, high));
            }
        }
        step = step.wrapping_mul(4);
    }
    Err(low)
}

/// The index in the middle.
fn middle(low: usize, high: usize) -> usize
    requires { low ≤ high }
    ensures { low < high → (low ≤ result) × (result < high) }
{
    low + (high - low) / 2
}

/// The probe if it is in the range, or else the middle.
fn between(low: usize, high: usize, probe: usize) -> usize
    requires { low < high }
    ensures low { low ≤ result }
    ensures high { result < high }
{
    if low <= probe && probe < high {
        return probe;
    }
    middle(low, high)
}

/// Whether the key is above all entries before an index. At the first index of a later chunk the answer is no.
fn is_above_last<K, V, A: Allocator, Q, O: Seeks<K, Q>>(
    order: &O,
    chunks: &[Vec<(K, V), A>],
    probe: &Q,
    at: EntryIndex,
) -> bool
    requires chunks { AreChunks O.cmp (seen_chunks (O.read order.now) chunks.now) }
    requires filled { AreFilled chunks.now }
    requires within { IsWithin chunks.now at }
    ensures first { result ≡ true → at.index ≡ 0 → at.chunk ≡ 0 }
    ensures chunk { result ≡ true → 0 < at.index → at.chunk < length chunks.now }
    ensures entries { result ≡ true → All (λ e. O.cmp (O.sought probe.now) e.0 ≡ Ordering.Greater) (before (seen_chunks (O.read order.now) chunks.now) at) }
{
    let Some(last) = at.index.checked_sub(1) else {
        return at.chunk == 0;
    };
    let chunk = at.chunk;
    if chunks.len() <= chunk {
        return false;
    }
    let entries = &chunks[chunk];
    let entry = &entries[last];
    order.compare(probe, &entry.0).is_gt()
}

/// Whether the key is below all entries from an index on.
fn is_below_next<K, V, A: Allocator, Q, O: Seeks<K, Q>>(
    order: &O,
    chunks: &[Vec<(K, V), A>],
    probe: &Q,
    at: EntryIndex,
) -> bool
    requires chunks { AreChunks O.cmp (seen_chunks (O.read order.now) chunks.now) }
    requires filled { AreFilled chunks.now }
    requires within { IsWithin chunks.now at }
    ensures { result ≡ true → All (λ e. O.cmp (O.sought probe.now) e.0 ≡ Ordering.Less) (from (seen_chunks (O.read order.now) chunks.now) at) }
{
    match first_from(chunks, at) {
        Some(entry) => order.compare(probe, &entry.0).is_lt(),
        None => true,
    }
}

/// Where the key is, or else the index before which it would go, by the keys alone.
fn find_by_keys<K, V, A: Allocator, Q, O: Seeks<K, Q>>(
    order: &O,
    chunks: &[Vec<(K, V), A>],
    probe: &Q,
) -> Result<EntryIndex, EntryIndex>
    requires chunks { AreChunks O.cmp (seen_chunks (O.read order.now) chunks.now) }
    requires filled { AreFilled chunks.now }
    ensures found { IfOk result (IsFound O.cmp (seen_chunks (O.read order.now) chunks.now) (O.sought probe.now)) }
    ensures absent { IfErr result (IsGap O.cmp (seen_chunks (O.read order.now) chunks.now) (O.sought probe.now)) }
    ensures inside { IfOk result (IsInside chunks.now) }
    ensures within { IfErr result (IsWithin chunks.now) }
{
    let starts = chunks_by(order, chunks, probe);
    if starts == 0 {
        return Err(EntryIndex { chunk: 0, index: 0 });
    }
    let chunk = starts - 1;
    match search(order, &chunks[chunk], probe) {
        Ok(index) => Ok(EntryIndex { chunk, index }),
        Err(index) => Err(EntryIndex { chunk, index }),
    }
}

/// How many chunks start at the key or before it.
fn chunks_by<K, V, A: Allocator, Q, O: Seeks<K, Q>>(
    order: &O,
    chunks: &[Vec<(K, V), A>],
    probe: &Q,
) -> usize
    requires { AreChunks O.cmp (seen_chunks (O.read order.now) chunks.now) }
    ensures bound { result ≤ length chunks.now }
    ensures parted { IsPartitionPoint (λ c. starts_by O.cmp (O.sought probe.now) c.items ≡ true) (λ c. starts_by O.cmp (O.sought probe.now) c.items ≡ false) (seen_chunks (O.read order.now) chunks.now) result }
{
    let mut low = 0;
    let mut high = chunks.len();
    while low < high {
        let at = middle(low, high);
        if starts_until(order, &chunks[at], probe) {
            low = at + 1;
        } else {
            high = at;
        }
    }
    low
}

/// Where the key is among entries in order, or else the index before which it would go.
fn search<K, V, Q, O: Seeks<K, Q>>(order: &O, entries: &[(K, V)], probe: &Q) -> Result<usize, usize>
    requires { IsLedger O.cmp (map (seen (O.read order.now)) entries.now) }
    ensures bound { IfOk result (λ i. i < length entries.now) }
    ensures found { IfOk result (HoldsAt (λ e. O.cmp (O.sought probe.now) (O.read order.now e.0) ≡ Ordering.Equal) entries.now) }
    ensures absent { IfErr result (λ i. i ≤ length entries.now) }
    ensures parted { IfErr result (IsPartitionPoint (λ e. O.cmp (O.sought probe.now) e.0 ≡ Ordering.Greater) (λ e. O.cmp (O.sought probe.now) e.0 ≡ Ordering.Less) (map (seen (O.read order.now)) entries.now)) }
{
    let mut low = 0;
    let mut high = entries.len();
    while low < high {
        let at = middle(low, high);
        match order.compare(probe, &entries[at].0) {
            Ordering::Equal => return Ok(at),
            Ordering::Greater => low = at + 1,
            Ordering::Less => high = at,
        }
    }
    Err(low)
}

/// Whether the first key of a chunk is at the key or before it.
fn starts_until<K, V, A: Allocator, Q, O: Seeks<K, Q>>(
    order: &O,
    chunk: &Vec<(K, V), A>,
    probe: &Q,
) -> bool
    ensures { result ≡ starts_by O.cmp (O.sought probe.now) (map (seen (O.read order.now)) chunk.now.items) }
{
    match chunk.first() {
        Some(entry) => order.compare(probe, &entry.0).is_ge(),
        None => true,
    }
}

/// The index from which on the entries are at the key or after it.
pub(crate) fn index_from<K, V, A: Allocator, Q, O: Seeks<K, Q>>(
    order: &O,
    chunks: &[Vec<(K, V), A>],
    starts: &[u64],
    probe: &Q,
) -> EntryIndex
    requires chunks { AreChunks O.cmp (seen_chunks (O.read order.now) chunks.now) }
    requires filled { AreFilled chunks.now }
    ensures within { IsWithin chunks.now result }
    ensures entries { from (seen_chunks (O.read order.now) chunks.now) result ≡ filter (λ e. is_le (O.cmp (O.sought probe.now) e.0)) (concatenated (seen_chunks (O.read order.now) chunks.now)) }
{
    match find(order, chunks, starts, probe) {
        Ok(at) => at,
        Err(gap) => gap,
    }
}

/// The index from which on the entries are after the key.
pub(crate) fn index_after<K, V, A: Allocator, Q, O: Seeks<K, Q>>(
    order: &O,
    chunks: &[Vec<(K, V), A>],
    starts: &[u64],
    probe: &Q,
) -> EntryIndex
    requires chunks { AreChunks O.cmp (seen_chunks (O.read order.now) chunks.now) }
    requires filled { AreFilled chunks.now }
    ensures within { IsWithin chunks.now result }
    ensures entries { from (seen_chunks (O.read order.now) chunks.now) result ≡ filter (λ e. is_lt (O.cmp (O.sought probe.now) e.0)) (concatenated (seen_chunks (O.read order.now) chunks.now)) }
{
    match find(order, chunks, starts, probe) {
        Ok(at) => EntryIndex {
            chunk: at.chunk,
            index: at.index + 1,
        },
        Err(gap) => gap,
    }
}

/// The first entry from an index on.
pub(crate) fn first_from<T, A: Allocator>(chunks: &[Vec<T, A>], at: EntryIndex) -> Option<&T>
    requires within { IsWithin chunks.now at }
    requires filled { AreFilled chunks.now }
    ensures { option_copied result ≡ slice_get (from chunks.now at) 0 }
{
    match chunks.get(at.chunk)?.get(at.index) {
        Some(entry) => Some(entry),
        None => chunks.get(at.chunk + 1)?.first(),
    }
}

/// Inserts an entry at an index: all chunks except that of the index are the same, which became one or two.
///
/// # Errors
///
/// An allocation failed: the entries are as before.
pub(crate) fn insert_at<T: Drop, A: Allocator + Clone + Drop>(
    chunks: &mut Vec<Vec<T, A>, A>,
    at: EntryIndex,
    entry: T,
) -> Result<(), AllocError>
    requires within { IsWithin chunks.old.items at }
    requires filled { AreFilled chunks.old.items }
    ensures ok { OnOk result (concatenated chunks.new.items ≡ before chunks.old.items at ++ entry ∷ from chunks.old.items at) }
    ensures err { OnErr result (concatenated chunks.new.items ≡ concatenated chunks.old.items) }
    ensures filled { AreFilled chunks.new.items }
    ensures others { IsReplaced chunks.old.items at.chunk 1 2 chunks.new.items }
{
    if chunks.is_empty() {
        let mut first = Vec::with_capacity(chunks.allocator().clone()?, MOST_IN_CHUNK)?;
        first.push(entry)?;
        chunks.push(first)?;
        return Ok(());
    }
    let index = with_room(chunks, at)?;
    chunks[index.chunk].insert(index.index, entry)?;
    Ok(())
}

/// The index of the same entry in a chunk that is not full: a full one is halved.
///
/// # Errors
///
/// An allocation failed: nothing is changed.
fn with_room<T: Drop, A: Allocator + Clone + Drop>(
    chunks: &mut Vec<Vec<T, A>, A>,
    at: EntryIndex,
) -> Result<EntryIndex, AllocError>
    requires chunk_in_range { at.chunk < vec_len chunks.old }
    requires within { IsWithin chunks.old.items at }
    requires filled { AreFilled chunks.old.items }
    ensures ok { IfOk result (IsIndexWithRoom chunks.old.items at chunks.new.items) }
    ensures others { IfOk result (λ q. IsAmong chunks.old.items at.chunk 1 2 chunks.new.items q.chunk) }
    ensures err { OnErr result (chunks.new.items ≡ chunks.old.items) }
    ensures filled { AreFilled chunks.new.items }
{
    let len = chunks[at.chunk].len();
    if len < MOST_IN_CHUNK {
        return Ok(at);
    }
    let half = len / 2;
    halve(chunks, at.chunk, half)?;
    if at.index <= half {
        return Ok(at);
    }
    Ok(EntryIndex {
        chunk: at.chunk + 1,
        index: at.index - half,
    })
}

/// Makes two chunks of one: its entries before an index, and those from it on.
///
/// # Errors
///
/// An allocation failed: nothing is changed.
fn halve<T: Drop, A: Allocator + Clone + Drop>(
    chunks: &mut Vec<Vec<T, A>, A>,
    chunk: usize,
    half: usize,
) -> Result<(), AllocError>
    requires chunk_in_range { chunk < vec_len chunks.old }
    requires index_in_range { HoldsAt (λ c. half ≤ vec_len c) chunks.old.items chunk }
    requires room { HoldsAt (λ c. vec_len c ≤ half + most_in_chunk) chunks.old.items chunk }
    ensures ok { OnOk result (IsSplit chunks.old.items chunk half chunks.new.items) }
    ensures err { OnErr result (chunks.new.items ≡ chunks.old.items) }
{
    let mut right = Vec::with_capacity(chunks.allocator().clone()?, MOST_IN_CHUNK)?;
    chunks.reserve(1)?;
    move_tail(&mut chunks[chunk], half, &mut right);
    match chunks.insert(chunk + 1, right) {
        Ok(()) => Ok(()),
        Err(_) => unreachable!(),
    }
}

/// Moves the items from an index on into another vector, which is empty and has room for them.
fn move_tail<T, A: Allocator>(left: &mut Vec<T, A>, half: usize, right: &mut Vec<T, A>)
    requires in_range { half ≤ vec_len left.old }
    requires room { vec_len left.old ≤ half + vec_capacity right.old }
    requires empty { right.old.items ≡ [] }
    ensures kept { left.new.items ≡ take half left.old.items }
    ensures moved { right.new.items ≡ drop half left.old.items }
{
    while half < left.len() {
        right.push_reserved(left.take_last());
    }
    right.reverse();
}

/// Takes the entry at an index out, and with it a chunk that it leaves empty: all other chunks are the same.
pub(crate) fn remove_at<T: Drop, A: Allocator + Drop>(
    chunks: &mut Vec<Vec<T, A>, A>,
    at: EntryIndex,
) -> T
    requires inside { IsInside chunks.old.items at }
    requires filled { AreFilled chunks.old.items }
    ensures value { from chunks.old.items at ≡ result ∷ drop 1 (from chunks.old.items at) }
    ensures rest { concatenated chunks.new.items ≡ before chunks.old.items at ++ drop 1 (from chunks.old.items at) }
    ensures filled { AreFilled chunks.new.items }
    ensures others { IsReplaced chunks.old.items at.chunk 1 1 chunks.new.items }
{
    let chunk = &mut chunks[at.chunk];
    let entry = chunk.remove(at.index);
    if chunk.is_empty() {
        chunks.remove(at.chunk);
    }
    entry
}

/// Moves the entries of a chunk into the one before it if one of the two is this chunk and both have few, and gives the index of the
/// chunk that has them all. It takes no memory.
///
/// All other chunks are the same.
pub(crate) fn join_small<T: Drop, A: Allocator + Drop>(
    chunks: &mut Vec<Vec<T, A>, A>,
    chunk: usize,
) -> Option<usize>
    requires filled { AreFilled chunks.old.items }
    ensures same { concatenated chunks.new.items ≡ concatenated chunks.old.items }
    ensures filled { AreFilled chunks.new.items }
    ensures others { IfSome result (λ c. IsReplaced chunks.old.items c 2 1 chunks.new.items) }
    ensures near { IfSome result (λ c. (c ≤ chunk) × (chunk ≤ c + 1)) }
    ensures none { result ≡ None → chunks.new.items ≡ chunks.old.items }
{
    if join_next(chunks, chunk) {
        return Some(chunk);
    }
    let before = chunk.checked_sub(1)?;
    if join_next(chunks, before) {
        return Some(before);
    }
    None
}

/// Moves the entries of the next chunk into this one if both have few, and gives whether they have.
fn join_next<T: Drop, A: Allocator + Drop>(chunks: &mut Vec<Vec<T, A>, A>, chunk: usize) -> bool
    requires filled { AreFilled chunks.old.items }
    ensures same { concatenated chunks.new.items ≡ concatenated chunks.old.items }
    ensures filled { AreFilled chunks.new.items }
    ensures others { result ≡ true → IsReplaced chunks.old.items chunk 2 1 chunks.new.items }
    ensures none { result ≡ false → chunks.new.items ≡ chunks.old.items }
{
    if !are_small(chunks, chunk) {
        return false;
    }
    let next = chunks.remove(chunk + 1);
    append_all(&mut chunks[chunk], next);
    true
}

/// Whether a chunk and the next one have together less than half of the entries that one may have, and the first has room for them.
fn are_small<T, A: Allocator>(chunks: &[Vec<T, A>], chunk: usize) -> bool
    ensures { result ≡ true → AreSmall chunks.now chunk }
{
    if chunks.len() < 2 || chunks.len() - 2 < chunk {
        return false;
    }
    let left = &chunks[chunk];
    let right = &chunks[chunk + 1];
    let len = left.len() + right.len();
    len < MOST_IN_CHUNK / 2 && len <= left.capacity()
}

/// Adds the items of a vector to one that has room for them.
fn append_all<T: Drop, A: Allocator + Drop>(left: &mut Vec<T, A>, right: Vec<T, A>)
    requires room { vec_len left.old + vec_len right ≤ vec_capacity left.old }
    ensures all { left.new.items ≡ left.old.items ++ right.items }
{
    let mut right = right;
    match left.append(&mut right) {
        Ok(()) => {}
        Err(_) => unreachable!(),
    }
}
