//! A record, wherever its columns are.
ghost use Rattle.std.specs.Prelude.{◌≡◌, ◌<◌};
ghost use Rattle.iv_lines.specs.RecordValue.{RecordValue};

use crate::record::Record;
use crate::record_ref::RecordRef;
use std::alloc::Allocator;

/// A checked record. Its interval is known; its other columns may have to be cut from its line.
pub trait BedRecord: Drop {
    /// The record that it is.
    ghost as_record: { Self → RecordValue };

    /// The rank of its sequence in the genome.
    fn seq(&self) -> u32
        ensures { result ≡ (as_record self.now).seq };

    /// The start, from 0.
    fn start(&self) -> u64
        ensures { result ≡ (as_record self.now).start };

    /// The end, not included.
    fn stop(&self) -> u64
        ensures value { result ≡ (as_record self.now).stop }
        ensures some { (as_record self.now).start < result };

    /// The record with all its columns.
    fn to_ref(&self) -> RecordRef<'_>
        ensures { result ≡ as_record self.now };
}

impl<A: Allocator> BedRecord for Record<A> {
    ghost as_record = { λ r. r };

    fn seq(&self) -> u32 {
        Record::seq(self)
    }

    fn start(&self) -> u64 {
        Record::start(self)
    }

    fn stop(&self) -> u64 {
        Record::stop(self)
    }

    fn to_ref(&self) -> RecordRef<'_> {
        self.as_ref()
    }
}

impl<'a> BedRecord for RecordRef<'a> {
    ghost as_record = { λ r. r };

    fn seq(&self) -> u32 {
        RecordRef::seq(self)
    }

    fn start(&self) -> u64 {
        RecordRef::start(self)
    }

    fn stop(&self) -> u64 {
        RecordRef::stop(self)
    }

    fn to_ref(&self) -> RecordRef<'_> {
        self.again()
    }
}

impl<R: BedRecord> BedRecord for &R {
    ghost as_record = { λ r. R.as_record r.now };

    fn seq(&self) -> u32 {
        (**self).seq()
    }

    fn start(&self) -> u64 {
        (**self).start()
    }

    fn stop(&self) -> u64 {
        (**self).stop()
    }

    fn to_ref(&self) -> RecordRef<'_> {
        (**self).to_ref()
    }
}
