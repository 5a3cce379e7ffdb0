//! Puts into ledgers, each allocation refused in turn: a refused one leaves all as it was.
use crate::session_files::Refusing;
use iv_track::{Ledger, Meter};
use std::test::Fail;
use test_faults::{RefusesNth, refused};

/// A ledger of the keys below a count, each with itself as its value.
fn ledger_of<'a>(alloc: Refusing<'a>, count: u32) -> Result<Ledger<u32, u32, Refusing<'a>>, Fail> {
    let mut meter = Meter::new();
    let mut ledger = Ledger::new(alloc);
    for key in 0..count {
        ledger.put(key, key, &mut meter)?;
    }
    Ok(ledger)
}

/// Fails unless a ledger has just the keys below a count.
fn check(ledger: &Ledger<u32, u32, Refusing<'_>>, count: u32) -> Result<(), Fail> {
    let mut meter = Meter::new();
    let mut walk = ledger.walk_all(&mut meter);
    for key in 0..count {
        if walk.next(&mut meter) != Some((&key, &key)) {
            return Err(Fail::new("another key"));
        }
    }
    if walk.next(&mut meter).is_none() && ledger.len() == count as usize {
        Ok(())
    } else {
        Err(Fail::new("more keys"))
    }
}

/// Puts one more key. Whether that was refused.
fn is_refused(ledger: &mut Ledger<u32, u32, Refusing<'_>>, count: u32) -> Result<bool, Fail> {
    Ok(ledger.put(count, count, &mut Meter::new()).is_err())
}

/// How many allocations the put of one more key has: `Ledger::put`.
fn allocations_by(alloc: Refusing<'_>, count: u32) -> Result<u64, Fail> {
    refused(
        alloc,
        || ledger_of(alloc, count),
        |ledger| is_refused(ledger, count),
        |ledger, is_refused| check(ledger, count.saturating_add(u32::from(!is_refused))),
    )
}

/// The same with an allocator of its own.
fn allocations(rt: &HostRuntime, count: u32) -> Result<u64, Fail> {
    let alloc = RefusesNth::new(rt.alloc(), u64::MAX);
    allocations_by(&alloc, count)
}

/// The first key takes memory, and each after which a full chunk is split.
#[test]
fn puts(rt: HostRuntime) -> Result<(), Fail> {
    let mut growing = 0u32;
    for count in 0..300 {
        growing = growing.saturating_add(u32::from(allocations(&rt, count)? > 0));
    }
    assert!(rt; 1 < growing);
    Ok(())
}
