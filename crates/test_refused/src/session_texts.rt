//! What a session shows: the rows of its views, and which of these are stale.
use crate::session_files::Refused;
use iv_bytes::MemSink;
use std::test::Fail;

/// What is kept for a view.
#[derive(Clone, Copy, PartialEq, Eq)]
pub(crate) enum Keeps {
    /// Nothing: it is never stale.
    Nothing,
    /// Blocks of one distance.
    Blocks,
    /// Blocks of strands, of another distance or with results.
    OtherBlocks,
    Depth,
}

/// A view that is open: its name, its arguments, and what is kept for it.
pub(crate) type Open<'t> = (&'t [u8], &'t [&'t [u8]], Keeps);

/// Opens the views that aren't open.
pub(crate) fn open_views(session: &mut Refused<'_>, views: &[Open<'_>]) -> Result<(), Fail> {
    for (name, arguments, _) in views {
        if !session.is_open(name) {
            session.open_view(name, arguments)?;
        }
    }
    Ok(())
}

/// How many of the views are stale, and of how many states: all views that need the same one are stale together.
pub(crate) fn stale_of(session: &Refused<'_>, views: &[Open<'_>]) -> Result<(u32, u32), Fail> {
    let (mut stale, mut states) = (0u32, 0u32);
    for keeps in [
        Keeps::Nothing,
        Keeps::Blocks,
        Keeps::OtherBlocks,
        Keeps::Depth,
    ] {
        let (count, open) = stale_with(session, views, keeps);
        if count > 0 && (count != open || keeps == Keeps::Nothing) {
            return Err(Fail::new("a stale view beside another one with its state"));
        }
        stale = stale.saturating_add(count);
        states = states.saturating_add(u32::from(count > 0));
    }
    Ok((stale, states))
}

/// How many of the views for which this is kept are stale, and how many there are.
fn stale_with(session: &Refused<'_>, views: &[Open<'_>], keeps: Keeps) -> (u32, u32) {
    let (mut stale, mut open) = (0u32, 0u32);
    for (name, _, kept) in views {
        if *kept == keeps {
            open = open.saturating_add(1);
            stale = stale.saturating_add(u32::from(!session.is_current(name)));
        }
    }
    (stale, open)
}

/// What all views print. One of them is to be `records`, which prints the track.
pub(crate) fn text_of(rt: &HostRuntime, session: &mut Refused<'_>) -> Result<MemSink, Fail> {
    let mut sink = MemSink::new(rt.alloc(), 1_000_000, 1_000_000)?;
    session.print_all(&mut sink)?;
    Ok(sink)
}
