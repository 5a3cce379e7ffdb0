//! What the keys of a ledger mean, and in which order they are.
ghost use Rattle.std.specs.Prelude.{◌≡◌, ⊤, refl, IfOk};
ghost use Rattle.std.specs.Cmp.{IsTotalOrder};
ghost use Rattle.std.specs.declared.cmp.Ordering.{Ordering};

use std::alloc::AllocError;
use std::cmp::Ordering;

/// How a ledger reads its keys.
///
/// A key may be less than what it means: an index into bytes that the order owns. So a contract speaks of what is read of a key.
pub trait Order<K> {
    /// What is read of a key.
    type Seen;

    ghost read: { Self → K → Self.Seen };

    ghost cmp: { Self.Seen → Self.Seen → Ordering };

    /// The key is one of this order.
    ghost IsKey: { Self → K → Type 0 };

    /// A number for a first guess of where a key is. No answer rests on it.
    fn abbreviation(&self, key: &K) -> u64;

    ghost total: { IsTotalOrder cmp };
}

/// How keys are compared with what is sought.
pub trait Seeks<K, Q>: Order<K> {
    ghost sought: { Q → Self.Seen };

    /// The number of what is sought, for a first guess of where it is.
    fn guess(&self, probe: &Q) -> u64;

    /// Compares what is sought with a key.
    fn compare(&self, probe: &Q, key: &K) -> Ordering
        ensures { result ≡ Self.cmp (sought probe.now) (Self.read self.now key.now) };
}

/// How a key is made of what was sought and isn't there.
pub trait Keeps<K, Q>: Seeks<K, Q> {
    /// A key for this. All other keys mean what they meant, also if there is no memory for this one.
    fn keep(&mut self, probe: Q) -> Result<K, AllocError>
        ensures kept { (k : K) → Self.IsKey self.old k → Self.IsKey self.new k × (Self.read self.new k ≡ Self.read self.old k) }
        ensures key { IfOk result (λ k. Self.IsKey self.new k × (Self.read self.new k ≡ Self.sought probe)) };
}

/// How a key is lent.
pub trait Lends<'a, K>: Order<K> {
    /// A key with what it means.
    type Lent;

    ghost lent: { Self.Lent → Self.Seen };

    /// The key with what it means.
    fn lend(&'a self, key: &'a K) -> Self::Lent
        requires { Self.IsKey self.now key.now }
        ensures { lent result ≡ Self.read self.now key.now };
}

/// A key with a number for a first guess of where it is.
///
/// Of two keys the lesser one should have no greater number, and keys that lie apart different ones. Only the time of a search rests on
/// it: whatever the numbers are, a search finds the same.
pub trait Abbreviated {
    /// The number.
    fn abbreviation(&self) -> u64;
}

/// The order that the keys have by themselves.
#[derive(Drop)]
pub struct Natural;

impl<K: Ord + Abbreviated> Order<K> for Natural {
    type Seen = K;

    ghost read = { λ o k. k };

    ghost cmp = { K.cmp };

    ghost IsKey = { λ o k. ⊤ };

    fn abbreviation(&self, key: &K) -> u64 {
        key.abbreviation()
    }

    ghost total = { K.total };
}

impl<K: Ord + Abbreviated> Seeks<K, K> for Natural {
    ghost sought = { λ k. k };

    fn guess(&self, probe: &K) -> u64 {
        probe.abbreviation()
    }

    fn compare(&self, probe: &K, key: &K) -> Ordering {
        probe.cmp(key)
    }
}

impl<K: Ord + Abbreviated> Keeps<K, K> for Natural {
    fn keep(&mut self, probe: K) -> Result<K, AllocError> {
        Ok(probe)
    }
}

impl<'a, K: Ord + Abbreviated + 'a> Lends<'a, K> for Natural {
    type Lent = &'a K;

    ghost lent = { λ k. k.now };

    fn lend(&'a self, key: &'a K) -> &'a K {
        key
    }
}

/// A number of 64 bits with these as its upper and its lower half.
fn halves(upper: u32, lower: u32) -> u64 {
    ((upper as u64) << 32) | lower as u64
}

impl Abbreviated for u32 {
    fn abbreviation(&self) -> u64 {
        *self as u64
    }
}

impl Abbreviated for (u32, u32) {
    fn abbreviation(&self) -> u64 {
        halves(self.0, self.1)
    }
}

/// The strand takes the last bit of the second number.
impl Abbreviated for (u32, bool, u32) {
    fn abbreviation(&self) -> u64 {
        let lower = self.2 / 2;
        halves(self.0, if self.1 { lower + 2_147_483_648 } else { lower })
    }
}
