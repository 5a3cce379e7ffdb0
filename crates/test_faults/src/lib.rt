//! For tests: an allocator that refuses one allocation, readers and writers that go wrong, texts of files and words of a line.
#![tactic(auto)]

ghost use Rattle.std.specs.Prelude.{IfSome, ◌≡◌, ◌<◌};

mod harness;
mod stream;
mod texts;
mod words;

pub use harness::{begun, put, refused, seen};
use std::alloc::{AllocError, Allocator};
use std::cell::Cell;
pub use stream::{Bad, FAILURES, Manner, Stream};
pub use texts::copied;
pub use words::words_of;

/// Passes every call on to the allocator inside it, but refuses one allocation, that of the given number.
///
/// A test that runs with 1, 2, 3 and so on, until no allocation is refused any more, has met each place
/// where the code under test can run out of memory. It lends the allocator out as a `&`, which is an
/// allocator too, and asks at the end whether the refusal came.
#[derive(Drop)]
pub struct RefusesNth<B> {
    inner: B,
    /// How many allocations there are up to the one that is refused, which counts; none after it.
    left: Cell<u64>,
    /// How many allocations were refused.
    refused: Cell<u64>,
}

impl<B> RefusesNth<B> {
    /// Allocations count from 1.
    pub fn new(inner: B, number: u64) -> RefusesNth<B>
        requires { 0 < number }
    {
        RefusesNth {
            inner,
            left: Cell::new(number),
            refused: Cell::new(0),
        }
    }

    /// Refuses no further allocation.
    pub fn grant(&self) {
        self.left.set(0);
    }

    /// Refuses one more allocation, that of the given number from here on, which counts from 1.
    pub fn again(&self, number: u64)
        requires { 0 < number }
    {
        self.left.set(number);
    }

    /// How many allocations were refused.
    pub fn refusals(&self) -> u64 {
        self.refused.get()
    }

    /// Whether an allocation failed.
    pub fn has_refused(&self) -> bool {
        self.refusals() > 0
    }

    /// The allocator inside, unless this allocation is the one to be refused.
    fn open(&self) -> Option<&B>
        ensures { IfSome result (λ inner. inner.now ≡ self.now.inner) }
    {
        match self.left.get() {
            0 => Some(&self.inner),
            1 => {
                self.left.set(0);
                self.refused.set(self.refusals().saturating_add(1));
                None
            }
            left => {
                self.left.set(left - 1);
                Some(&self.inner)
            }
        }
    }
}

// Each block comes from the allocator inside, and goes back to it.
unsafe impl<B: Allocator> Allocator for RefusesNth<B> {
    ghost dealloc_token = { λ test_faults ty ptr. B.dealloc_token test_faults.inner ty ptr };

    fn allocate(&self, size: usize, align: usize) -> Result<*mut u8, AllocError> {
        match self.open() {
            Some(inner) => inner.allocate(size, align),
            None => Err(AllocError),
        }
    }

    unsafe fn deallocate(&self, ptr: *mut u8, size: usize, align: usize) {
        self.inner.deallocate(ptr, size, align);
    }
}
