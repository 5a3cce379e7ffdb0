//! Calls of a session, and what is left by them.
use crate::session_files::{Files, Refused, Refusing, session_of};
use crate::session_texts::{Keeps, Open, open_views, stale_of, text_of};
use iv_bytes::MemSink;
use iv_lines::lines_of;
use iv_track::EditFault;
use iv_view::ViewFault;
use iv_workspace::{Accepted, PrintFault};
use std::test::Fail;
use test_faults::{RefusesNth, begun, put, refused, seen};

/// A region, as a line of a script has it.
#[derive(Clone, Copy)]
pub(crate) struct Place<'t> {
    pub(crate) sequence: &'t [u8],
    pub(crate) start: &'t [u8],
    pub(crate) end: &'t [u8],
}

/// A call of a session that allocates.
#[derive(Clone, Copy)]
pub(crate) enum Call<'t> {
    /// `Session::new`, `Session::from_places`, `Genome::parse`, `BedFile::parse`, `BedFile::into_places`, `Fasta::parse`
    Begin,
    /// `Session::open_view`, `results_in`
    Open(Open<'t>),
    /// `Session::add`, `Session::edit`, `Track::add`, `Rests::keep`, `results`
    Add(&'t [u8]),
    /// `Session::remove`, `Track::remove`
    Remove(&'t [u8]),
    /// `Session::replace`, `Track::stage`
    Replace(&'t [u8], &'t [u8]),
    /// `Session::add_second`, `Second::add`
    AddSecond(&'t [u8]),
    /// `Session::remove_second`, `Second::remove`
    RemoveSecond(&'t [u8]),
    /// `Session::replace_second`, `Second::replace`
    ReplaceSecond(&'t [u8], &'t [u8]),
    /// `Session::print_view`, `Session::print_view_counted`
    Print(&'t [u8]),
    /// `Session::print_all`, `Session::print_all_counted`
    PrintAll,
    /// `Session::show_view`
    Show(&'t [u8], Place<'t>),
    /// `Session::show_all`
    ShowAll(Place<'t>),
}

/// What a call is made on.
#[derive(Clone, Copy)]
pub(crate) struct Setting<'t> {
    pub(crate) files: Files<'t>,
    pub(crate) views: &'t [Open<'t>],
    /// Lines of records that are added once the views are open.
    pub(crate) added: &'t [u8],
    /// Whether these leave each kept view stale.
    pub(crate) is_stale: bool,
}

/// A call, and the files whose session shows what the call leaves.
#[derive(Clone, Copy)]
pub(crate) struct Row<'t> {
    pub(crate) on: Setting<'t>,
    pub(crate) call: Call<'t>,
    /// The fault of an edit that is refused for another reason if each allocation is granted.
    pub(crate) fault: Option<EditFault>,
    pub(crate) after: Files<'t>,
}

/// What is to be seen: before a call, after it, and what it prints.
#[derive(Clone, Copy)]
struct Wanted<'t> {
    before: &'t [u8],
    after: &'t [u8],
    printed: &'t [u8],
}

/// Does an edit of the track.
fn edited(session: &mut Refused<'_>, call: Call<'_>) -> Result<Result<Accepted, EditFault>, Fail> {
    match call {
        Call::Add(line) => {
            let feature = session.read(line)?;
            Ok(session.add(&feature))
        }
        Call::Remove(line) => {
            let feature = session.read(line)?;
            Ok(session.remove(&feature))
        }
        Call::Replace(old, new) => {
            let old = session.read(old)?;
            let new = session.read(new)?;
            Ok(session.replace(&old, &new))
        }
        _ => edited_second(session, call),
    }
}

/// Does an edit of the second file.
fn edited_second(
    session: &mut Refused<'_>,
    call: Call<'_>,
) -> Result<Result<Accepted, EditFault>, Fail> {
    match call {
        Call::AddSecond(line) => {
            let feature = session.read_second(line)?;
            Ok(session.add_second(&feature))
        }
        Call::RemoveSecond(line) => {
            let feature = session.read_second(line)?;
            Ok(session.remove_second(&feature))
        }
        Call::ReplaceSecond(old, new) => {
            let old = session.read_second(old)?;
            let new = session.read_second(new)?;
            Ok(session.replace_second(&old, &new))
        }
        _ => Err(Fail::new("not an edit")),
    }
}

/// Prints what a call asks for.
fn print(
    session: &mut Refused<'_>,
    call: Call<'_>,
    sink: &mut MemSink,
) -> Result<Result<(), PrintFault>, Fail> {
    match call {
        Call::Print(name) => Ok(session.print_view(name, sink)),
        Call::PrintAll => Ok(session.print_all(sink)),
        Call::Show(name, place) => {
            let region = session.region(place.sequence, place.start, place.end)?;
            Ok(session.show_view(name, region, sink))
        }
        Call::ShowAll(place) => {
            let region = session.region(place.sequence, place.start, place.end)?;
            Ok(session.show_all(region, sink))
        }
        _ => Err(Fail::new("not a print")),
    }
}

/// Whether what a call has printed is current.
fn is_current(session: &Refused<'_>, row: &Row<'_>) -> Result<bool, Fail> {
    match row.call {
        Call::Print(name) | Call::Show(name, _) => Ok(session.is_current(name)),
        _ => Ok(stale_of(session, row.on.views)?.0 == 0),
    }
}

/// Makes a print. Whether it was refused, as one of stale views alone may be; then nothing is written, and else what is wanted, into
/// room for just that.
fn is_print_refused(
    rt: &HostRuntime,
    session: &mut Refused<'_>,
    row: &Row<'_>,
    wanted: &[u8],
) -> Result<bool, Fail> {
    let mut sink = MemSink::new(rt.alloc(), wanted.len(), 999)?;
    match print(session, row.call, &mut sink)? {
        Ok(()) if sink.bytes() == wanted && is_current(session, row)? => Ok(false),
        Err(PrintFault::Refused(ViewFault::NoMemory))
            if row.on.is_stale && sink.bytes().is_empty() => Ok(true),
        _ => Err(Fail::new("another print")),
    }
}

/// Does an edit. Whether it was refused because an allocation failed. Else it has its fault, or answers how many views are stale, of one
/// state at most, and of none if no allocation was refused.
fn is_edit_refused(
    alloc: Refusing<'_>,
    session: &mut Refused<'_>,
    row: &Row<'_>,
) -> Result<bool, Fail> {
    let before = alloc.refusals();
    let answer = edited(session, row.call)?;
    let is_met = alloc.refusals() != before;
    let (stale, states) = stale_of(session, row.on.views)?;
    match answer {
        Ok(accepted) if accepted.stale == stale && states <= u32::from(is_met) => {
            check_fault(row.fault, None)
        }
        Err(EditFault::NoMemory) => Ok(true),
        Err(fault) => check_fault(row.fault, Some(fault)),
        Ok(_) => Err(Fail::new("another number of stale views")),
    }
}

/// Gives false if an edit has the fault that it is to have.
fn check_fault(wanted: Option<EditFault>, fault: Option<EditFault>) -> Result<bool, Fail> {
    if fault == wanted {
        Ok(false)
    } else {
        Err(Fail::new("another answer to an edit"))
    }
}

/// Opens a view. Whether that was refused; then it isn't open, and else it is current.
fn is_opening_refused(session: &mut Refused<'_>, open: Open<'_>) -> Result<bool, Fail> {
    let (name, arguments, _) = open;
    match session.open_view(name, arguments) {
        Ok(()) if session.is_current(name) => Ok(false),
        Err(ViewFault::NoMemory) if !session.is_open(name) => Ok(true),
        _ => Err(Fail::new("another answer to an opening")),
    }
}

/// Makes a call of a session. Whether it was refused.
fn is_refused_on(
    rt: &HostRuntime,
    alloc: Refusing<'_>,
    session: &mut Refused<'_>,
    row: &Row<'_>,
    printed: &[u8],
) -> Result<bool, Fail> {
    match row.call {
        Call::Open(open) => is_opening_refused(session, open),
        Call::Print(_) | Call::PrintAll | Call::Show(_, _) | Call::ShowAll(_) => {
            is_print_refused(rt, session, row, printed)
        }
        _ => is_edit_refused(alloc, session, row),
    }
}

/// Makes a call. Whether it was refused.
fn is_refused<'a>(
    rt: &HostRuntime,
    alloc: Refusing<'a>,
    on: &mut Option<Refused<'a>>,
    row: &Row<'_>,
    printed: &[u8],
) -> Result<bool, Fail> {
    if let Some(session) = on {
        return is_refused_on(rt, alloc, session, row, printed);
    }
    put(on, session_of(alloc, row.on.files));
    Ok(on.is_none())
}

/// How many of the views have a state.
fn count_kept(views: &[Open<'_>]) -> u32 {
    let mut count = 0u32;
    for (_, _, keeps) in views {
        count = count.saturating_add(u32::from(*keeps != Keeps::Nothing));
    }
    count
}

/// Adds a record. If views are to be stale, the first of its allocations is refused without which it is added.
fn add(
    alloc: Refusing<'_>,
    session: &mut Refused<'_>,
    line: &[u8],
    is_stale: bool,
) -> Result<(), Fail> {
    for number in 1..100u64 {
        alloc.again(if is_stale { number } else { u64::MAX });
        if edited(session, Call::Add(line))?.is_ok() {
            alloc.grant();
            return Ok(());
        }
    }
    Err(Fail::new("no end of allocations"))
}

/// Opens the views of a setting, and adds its records.
fn begin(alloc: Refusing<'_>, session: &mut Refused<'_>, on: &Setting<'_>) -> Result<(), Fail> {
    open_views(session, on.views)?;
    for line in lines_of(on.added) {
        add(alloc, session, line, on.is_stale)?;
    }
    check_stale(session, on)
}

/// Fails unless each kept view is stale, or none, as a setting has it.
fn check_stale(session: &Refused<'_>, on: &Setting<'_>) -> Result<(), Fail> {
    let (stale, _) = stale_of(session, on.views)?;
    let wanted = if on.is_stale { count_kept(on.views) } else { 0 };
    if stale == wanted {
        Ok(())
    } else {
        Err(Fail::new("other views are stale"))
    }
}

/// The same after a call that was refused. A refused print of all views may leave some of them current.
fn check_refused(session: &Refused<'_>, row: &Row<'_>) -> Result<(), Fail> {
    let (stale, _) = stale_of(session, row.on.views)?;
    match row.call {
        Call::PrintAll | Call::ShowAll(_) if stale > 0 => Ok(()),
        _ => check_stale(session, &row.on),
    }
}

/// The session, unless an allocation failed.
fn session_in<'s, 'a>(on: &'s mut Option<Refused<'a>>) -> Result<&'s mut Refused<'a>, Fail> {
    match on {
        Some(session) => Ok(session),
        None => Err(Fail::new("no session")),
    }
}

/// What a call is made on: nothing, if it begins the session.
fn prepared<'a>(alloc: Refusing<'a>, row: &Row<'_>) -> Result<Option<Refused<'a>>, Fail> {
    if let Call::Begin = row.call {
        return Ok(None);
    }
    begun(session_of(alloc, row.on.files), |on| {
        begin(alloc, session_in(on)?, &row.on)
    })
}

/// Fails unless a session shows this, and nothing that was current is stale after a refusal.
fn check_text(
    rt: &HostRuntime,
    session: &mut Refused<'_>,
    row: &Row<'_>,
    is_refused: bool,
    wanted: &[u8],
) -> Result<(), Fail> {
    if is_refused {
        check_refused(session, row)?;
    }
    open_views(session, row.on.views)?;
    if text_of(rt, session)?.bytes() == wanted {
        Ok(())
    } else {
        Err(Fail::new("a session that shows something else"))
    }
}

/// Fails unless a call left what it is to leave.
fn check(
    rt: &HostRuntime,
    on: &mut Option<Refused<'_>>,
    row: &Row<'_>,
    is_refused: bool,
    wanted: Wanted<'_>,
) -> Result<(), Fail> {
    match on {
        Some(session) if is_refused => check_text(rt, session, row, true, wanted.before),
        Some(session) => check_text(rt, session, row, false, wanted.after),
        None if is_refused => Ok(()),
        None => Err(Fail::new("no session")),
    }
}

/// Opens the view that a call opens.
fn open_called(session: &mut Refused<'_>, call: Call<'_>) -> Result<(), Fail> {
    match call {
        Call::Open(open) => open_views(session, &[open]),
        _ => Ok(()),
    }
}

/// What a call prints of a session; nothing, if it is no print.
fn printed_by(
    rt: &HostRuntime,
    session: &mut Refused<'_>,
    call: Call<'_>,
) -> Result<MemSink, Fail> {
    let mut sink = MemSink::new(rt.alloc(), 1_000_000, 1_000_000)?;
    if let Call::Print(_) | Call::PrintAll | Call::Show(_, _) | Call::ShowAll(_) = call {
        print(session, call, &mut sink)??;
    }
    Ok(sink)
}

/// What a session of the files after a call shows, and what the call prints of it.
fn shown(
    rt: &HostRuntime,
    session: &mut Refused<'_>,
    row: &Row<'_>,
) -> Result<(MemSink, MemSink), Fail> {
    open_views(session, row.on.views)?;
    open_called(session, row.call)?;
    let printed = printed_by(rt, session, row.call)?;
    Ok((text_of(rt, session)?, printed))
}

/// The same from the files on.
fn shown_after(
    rt: &HostRuntime,
    alloc: Refusing<'_>,
    row: &Row<'_>,
) -> Result<(MemSink, MemSink), Fail> {
    seen(Ok(session_of(alloc, row.after)), |on| {
        shown(rt, session_in(on)?, row)
    })
}

/// What is shown before a call; nothing, if it begins the session.
fn shown_before(rt: &HostRuntime, alloc: Refusing<'_>, row: &Row<'_>) -> Result<MemSink, Fail> {
    seen(prepared(alloc, row), |on| match on {
        Some(session) => text_of(rt, session),
        None => Ok(MemSink::new(rt.alloc(), 0, 1)?),
    })
}

/// Makes the call of a row with each of its allocations refused in turn: how many there are.
fn allocations_by(
    rt: &HostRuntime,
    alloc: Refusing<'_>,
    row: &Row<'_>,
    wanted: Wanted<'_>,
) -> Result<u64, Fail> {
    refused(
        alloc,
        || prepared(alloc, row),
        |on| is_refused(rt, alloc, on, row, wanted.printed),
        |on, is_refused| check(rt, on, row, is_refused, wanted),
    )
}

/// The same, with what is to be seen.
fn allocations_in(rt: &HostRuntime, alloc: Refusing<'_>, row: &Row<'_>) -> Result<u64, Fail> {
    let before = shown_before(rt, alloc, row)?;
    let (after, printed) = shown_after(rt, alloc, row)?;
    let wanted = Wanted {
        before: before.bytes(),
        after: after.bytes(),
        printed: printed.bytes(),
    };
    allocations_by(rt, alloc, row, wanted)
}

/// The same with an allocator of its own.
pub(crate) fn allocations(rt: &HostRuntime, row: &Row<'_>) -> Result<u64, Fail> {
    let alloc = RefusesNth::new(rt.alloc(), u64::MAX);
    allocations_in(rt, &alloc, row)
}

/// Whether a view of a setting prints this.
pub(crate) fn prints(
    rt: &HostRuntime,
    on: Setting<'_>,
    name: &[u8],
    wanted: &[u8],
) -> Result<bool, Fail> {
    let alloc = RefusesNth::new(rt.alloc(), u64::MAX);
    let row = Row {
        on,
        call: Call::Print(name),
        fault: None,
        after: on.files,
    };
    let (_, printed) = shown_after(rt, &alloc, &row)?;
    Ok(printed.bytes() == wanted)
}
