//! Values under names, in order, and the hashes of names.
ghost use Rattle.std.specs.Prelude.{◌≡◌, ◌≤◌, length, ◌<◌, ◌^◌, ◌++◌, ◌∷◌, [], None, Some, IfNone, IfSome, OnOk, OnErr, slice_get};
ghost use Rattle.std.specs.Map.{lookup, remove_entry, values_of};
ghost use Rattle.std.specs.Option.{option_map};
ghost use Rattle.std.specs.Str.{bytes_eq};
ghost use Rattle.iv_lines.specs.NameHash.{IsAfter, finished, written};
ghost use Rattle.iv_lines.specs.Named.{name_index, AreApart};

use indexmap::IndexMap;
use std::alloc::{AllocError, Allocator, Global};
use std::hash::{BuildHasher, DefaultHasher, FoldHasher, Hasher};
use std::marker::Model;
use std::ops::{Index, IndexMut};

/// Values, each under a name, in the order in which they came.
///
/// No name occurs twice. Its model is the list of the names with their values.
#[derive(Drop)]
pub struct NameMap<V, A: Allocator = Global> {
    // The keys are plain vectors: for lookups by slices a key type of our own would need an `Equivalent` of its own.
    named: IndexMap<Vec<u8, A>, V, ContentSeed, A>,
}

impl<V, A: Allocator> Model for NameMap<V, A> {
    ghost use Rattle.std.specs.Prelude.{List, ℕ, map};

    ghost Value = { List (List ℕ × V) };

    ghost view = { λ m. map {B = List ℕ × V} (λ e. (e.0.items, e.1)) m.named.entries };
}

impl<V: Drop, A: Allocator + Copy> NameMap<V, A> {
    /// No name yet; nothing is allocated. The names will be hashed by `hasher`.
    pub fn new(alloc: A, hasher: ContentSeed) -> Self
        ensures { result ≡ [] }
    {
        NameMap {
            named: IndexMap::with_hasher(alloc, hasher),
        }
    }

    /// Hashes the names again. They stay as they are, also after a fault.
    pub fn rehash(&mut self, alloc: A, hasher: ContentSeed) -> Result<(), AllocError>
        ensures ok { OnOk result (self.new ≡ self.old) }
        ensures err { OnErr result (self.new ≡ self.old) }
    {
        let mut again = IndexMap::with_capacity_and_hasher(alloc, self.named.len(), hasher)?;
        again.append(&mut self.named)?;
        self.named = again;
        Ok(())
    }

    /// Adds a value under a new name, at the end.
    ///
    /// # Errors
    ///
    /// An allocation failed. Nothing changes.
    pub fn push(&mut self, alloc: A, name: &[u8], value: V) -> Result<(), AllocError>
        requires fresh { name_index self.old name.now ≡ None }
        ensures ok { OnOk result (self.new ≡ self.old ++ (name.now, value) ∷ []) }
        ensures err { OnErr result (self.new ≡ self.old) }
    {
        let mut key = Vec::new(alloc);
        key.extend_from_slice(name)?;
        self.named.insert(key, value)?;
        Ok(())
    }

    /// Takes the value of a name out, if there is one. The others keep their order.
    pub fn remove(&mut self, name: &[u8]) -> Option<V>
        ensures value { result ≡ lookup (bytes_eq name.now) self.old }
        ensures rest { self.new ≡ remove_entry (bytes_eq name.now) self.old }
        ensures none { IfNone result (self.new ≡ self.old) }
        ensures no_more { length self.new ≤ length self.old }
    {
        self.named.shift_remove(name)
    }

    /// The index of a name, byte for byte, from 0.
    pub fn index_of(&self, name: &[u8]) -> Option<usize>
        ensures value { result ≡ name_index self.now name.now }
        ensures within { IfSome result (λ index. index < length self.now) }
    {
        self.named.get_index_of(name)
    }

    /// The index of a name, with the value under it.
    pub fn find(&self, name: &[u8]) -> Option<(usize, &V)>
        ensures index { option_map (λ p. p.0) result ≡ name_index self.now name.now }
        ensures value { option_map (λ p. p.1.now) result ≡ lookup (bytes_eq name.now) self.now }
        ensures at { IfSome result (λ p. slice_get (values_of self.now) p.0 ≡ Some p.1.now) }
    {
        match self.named.get_full(name) {
            Some((index, _, value)) => Some((index, value)),
            None => None,
        }
    }

    /// The name at an index, with its value.
    pub fn at(&self, index: usize) -> Option<(&[u8], &V)>
        ensures value { option_map (λ p. (p.0.now, p.1.now)) result ≡ slice_get self.now index }
        ensures small { IfSome result (λ _. index < 2 ^ 63) }
    {
        let (name, value) = self.named.as_slice().get_index(index)?;
        Some((name.as_slice(), value))
    }

    /// How many names there are.
    pub fn len(&self) -> usize
        ensures value { result ≡ length self.now }
        ensures small { result < 2 ^ 63 }
    {
        self.named.len()
    }

    /// A lemma for callers' proofs: no name occurs twice. The call does nothing.
    pub fn lemma_of_names(&self)
        ensures { AreApart self.now }
    {
        // The map's keys are known to be distinct once its length is asked for.
        let _count = self.named.len();
    }
}

impl<V, A: Allocator> Index<usize> for NameMap<V, A> {
    type Output = V;

    ghost can_index = { λ m index. index < length m };

    ghost index_gives = { λ m index value. slice_get (values_of m) index ≡ Some value };

    fn index(&self, index: usize) -> &V {
        &self.named[index]
    }
}

impl<V, A: Allocator> IndexMut<usize> for NameMap<V, A> {
    ghost use Rattle.std.specs.Borrow.{sem};
    ghost use Rattle.iv_lines.specs.NameMap.{lends_value};

    fn index_mut(&mut self, index: usize) -> &mut V
        requires { index < length self.old }
        ensures* writes_back { sem 𝓛 (lends_value V.row A.row A.Allocator self.entry index result) }
        ensures value { slice_get (values_of self.old) index ≡ Some result.now }
    {
        &mut self.named[index]
    }
}

/// A text below this size has so few names that it does no harm if they all collide.
const SHORT: usize = 32768;

/// Hashes a name: fast, if it does no harm that names collide, or slower and after a text.
#[derive(Clone, Copy)]
pub enum NameHasher {
    /// Names may be made to collide.
    Fast(FoldHasher),
    /// The hasher to which the text was written.
    Seeded(DefaultHasher),
}

impl Hasher for NameHasher {
    ghost write = { written };

    ghost finish = { finished };

    fn finish(&self) -> u64 {
        match self {
            NameHasher::Fast(hasher) => hasher.finish(),
            NameHasher::Seeded(hasher) => hasher.finish(),
        }
    }

    fn write(&mut self, bytes: &[u8]) {
        match self {
            NameHasher::Fast(hasher) => hasher.write(bytes),
            NameHasher::Seeded(hasher) => hasher.write(bytes),
        }
    }
}

/// Hashes each name after the whole text of its file, unless the text is short.
///
/// Names that collide after one text need not do so after another, and each name is a part of the text.
#[derive(Clone, Copy)]
pub struct ContentSeed {
    /// What a hash begins with.
    pub begun: NameHasher,
}

impl ContentSeed {
    /// For the names of a file with this text.
    pub fn of(text: &[u8]) -> Self
        ensures { 32768 ≤ length text.now → IsAfter text.now result.begun }
    {
        if text.len() < SHORT {
            return ContentSeed {
                begun: NameHasher::Fast(FoldHasher::default()),
            };
        }
        let mut begun = DefaultHasher::new();
        begun.write(text);
        // Up to a whole word: after that a name's hash takes its words in one step each.
        begun.write(&[0; 8][text.len() % 8..]);
        ContentSeed::begun(begun)
    }

    /// For names that are hashed after what was written to this hasher.
    pub fn begun(hasher: DefaultHasher) -> Self
        ensures { result.begun ≡ NameHasher.Seeded hasher }
    {
        ContentSeed {
            begun: NameHasher::Seeded(hasher),
        }
    }
}

impl BuildHasher for ContentSeed {
    type Hasher = NameHasher;

    ghost build_hasher = { λ s. s.begun };

    fn build_hasher(&self) -> NameHasher {
        self.begun
    }
}
