//! Ordered maps whose calls are counted.
use iv_track::{Ledger, Meter};
use std::test::Fail;

/// Whether calls of a ledger without an entry answer what they are to, in nine steps.
fn is_called(ledger: &mut Ledger<u32, char>) -> Result<bool, Fail> {
    let mut meter = Meter::new();
    let new = ledger.put(3, 'a', &mut meter)?.is_none()
        && ledger.put(5, 'b', &mut meter)?.is_none();
    let before = ledger.at_or_before(&4, &mut meter) == Some((&3, &'a'));
    let from = ledger.at_or_after(&4, &mut meter) == Some((&5, &'b'));
    let last = ledger.after(&5, &mut meter).is_none();
    let set = ledger.set(&5, 'c', &mut meter) == Ok('b');
    let absent = ledger.set(&4, 'd', &mut meter) == Err('d');
    let taken = ledger.take(&3, &mut meter) == Some('a');
    let at = ledger.get(&5, &mut meter) == Some(&'c');
    let found = before && from && last && at;
    Ok(new && found && set && absent && taken && meter.steps() == 9 && ledger.len() == 1)
}

#[test]
fn calls_of_a_ledger(rt: HostRuntime) -> Result<(), Fail> {
    let mut ledger = Ledger::new(rt.alloc());
    assert!(rt; is_called(&mut ledger)?);
    assert!(rt; ledger.put(5, 'e', &mut Meter::new())? == Some('c') && ledger.len() == 1);
    Ok(())
}

/// The ledger of three entries.
fn ledger(rt: &HostRuntime) -> Result<Ledger<u32, char>, Fail> {
    let mut ledger = Ledger::new(rt.alloc());
    for (key, value) in [(5u32, 'c'), (1, 'a'), (3, 'b')] {
        if ledger.put(key, value, &mut Meter::new())?.is_some() {
            return Err(Fail::new("a value before the first one"));
        }
    }
    Ok(ledger)
}

/// Whether a walk over that ledger gives what it is to, in five steps.
fn is_walked_over(ledger: &Ledger<u32, char>) -> bool {
    let mut meter = Meter::new();
    let mut walk = ledger.walk(&2, &mut meter);
    for want in [Some((&3, &'b')), Some((&5, &'c')), None, None] {
        if walk.next(&mut meter) != want {
            return false;
        }
    }
    meter.steps() == 5
}

#[test]
fn walk_of_a_ledger(rt: HostRuntime) -> Result<(), Fail> {
    let ledger = ledger(&rt)?;
    assert!(rt; is_walked_over(&ledger) && ledger.len() == 3);
    Ok(())
}
