//! Runs with each of their allocations refused in turn.
use crate::RefusesNth;
use std::test::Fail;

/// Makes a call with its first allocation refused, once more with its second, and so on, until one meets no refusal. It answers how many
/// allocations there are.
///
/// Each time `prepare` makes what the call is made on, with each allocation granted. `call` makes it, and answers whether it was refused
/// because an allocation failed. `holds_after` looks at what is there then: all as before if the call was refused, and else as the call
/// leaves it. A call that was refused is made again with each allocation granted.
///
/// # Errors
///
/// The first that one of them has; and one if a call is refused though no allocation was, or if there is no end of allocations.
pub fn refused<B, T, P, C, H>(
    alloc: &RefusesNth<B>,
    prepare: P,
    call: C,
    holds_after: H,
) -> Result<u64, Fail>
where
    T: Drop,
    P: Fn() -> Result<T, Fail>,
    C: Fn(&mut T) -> Result<bool, Fail>,
    H: Fn(&mut T, bool) -> Result<(), Fail>,
    requires prepare { P.IsAlwaysCallable prepare }
    requires call { C.IsAlwaysCallable call }
    requires after { H.IsAlwaysCallable holds_after }
{
    for number in 1..10_000u64 {
        alloc.grant();
        let mut on = prepare()?;
        if !is_met(alloc, &mut on, number, &call, &holds_after)? {
            return Ok(number - 1);
        }
    }
    Err(Fail::new("no end of allocations"))
}

/// Makes a call with the allocation of this number refused. Whether there is one.
fn is_met<B, T, C, H>(
    alloc: &RefusesNth<B>,
    on: &mut T,
    number: u64,
    call: &C,
    holds_after: &H,
) -> Result<bool, Fail>
where
    C: Fn(&mut T) -> Result<bool, Fail>,
    H: Fn(&mut T, bool) -> Result<(), Fail>,
    requires call { C.IsAlwaysCallable call.now }
    requires after { H.IsAlwaysCallable holds_after.now }
{
    let before = alloc.refusals();
    alloc.again(number.max(1));
    let is_refused = call(on)?;
    alloc.grant();
    let is_met = alloc.refusals() != before;
    if is_refused && !is_met {
        return Err(Fail::new("out of memory though no allocation failed"));
    }
    holds_after(on, is_refused)?;
    if is_refused {
        if call(on)? {
            return Err(Fail::new("out of memory though each allocation was granted"));
        }
        holds_after(on, false)?;
    }
    Ok(is_met)
}

/// A value after a call on it.
///
/// # Errors
///
/// That of the call.
pub fn begun<T: Drop, F>(value: T, begin: F) -> Result<T, Fail>
where
    F: Fn(&mut T) -> Result<(), Fail>,
    requires { F.IsAlwaysCallable begin }
{
    let mut value = value;
    begin(&mut value)?;
    Ok(value)
}

/// What a call makes of a value, which is freed then.
///
/// # Errors
///
/// That of the value, or of the call.
pub fn seen<T: Drop, S, F>(value: Result<T, Fail>, look: F) -> Result<S, Fail>
where
    F: Fn(&mut T) -> Result<S, Fail>,
    requires { F.IsAlwaysCallable look }
{
    let mut value = value?;
    look(&mut value)
}

/// Puts a value in the place of another, which is freed.
pub fn put<T: Drop>(place: &mut T, value: T) {
    *place = value;
}
