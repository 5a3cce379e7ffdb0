//! Blocks and depth, each built of the records of a session by one call.
use crate::fixtures::{alone, holds_of, session_of};
use iv_blocks::{BlockOptions, Blocks};
use iv_bytes::MemSink;
use iv_cover::Kept;
use iv_depth::{Depth, DepthOutput};
use iv_track::Meter;
use iv_workspace::Session;
use std::test::Fail;

/// Two records that overlap, and one ten bases after them.
const RECORDS: &[u8] = b"chr1\t15\t30\nchr1\t40\t50\nchr1\t10\t20\n";

/// Whether the blocks of records at most so many bases apart are these rows.
fn are_blocks(
    rt: &HostRuntime,
    session: &Session,
    distance: u32,
    want: &[u8],
) -> Result<bool, Fail> {
    let (track, genome) = (session.track(), session.genome());
    let mut meter = Meter::new();
    let options = BlockOptions::unstranded(distance);
    let blocks = Blocks::build(rt.alloc(), options, track, genome, &mut meter)?;
    let mut sink = MemSink::new(rt.alloc(), 100, 3)?;
    blocks.print_merge(track, genome, &mut meter, &mut sink)?;
    Ok(sink.bytes() == want)
}

/// Whether the depth has these rows.
fn is_depth(rt: &HostRuntime, session: &Session, want: &[u8]) -> Result<bool, Fail> {
    let (track, genome) = (session.track(), session.genome());
    let mut meter = Meter::new();
    let depth = Depth::build(rt.alloc(), (), track, genome, &mut meter)?;
    let mut sink = MemSink::new(rt.alloc(), 100, 3)?;
    depth.print(DepthOutput::Covered, track, genome, &mut meter, &mut sink)?;
    Ok(sink.bytes() == want)
}

/// Whether blocks and depth of those records are so.
fn are_built(rt: &HostRuntime, session: &Session) -> Result<bool, Fail> {
    let depth = b"chr1\t10\t15\t1\nchr1\t15\t20\t2\nchr1\t20\t30\t1\nchr1\t40\t50\t1\n";
    Ok(
        are_blocks(rt, session, 9, b"chr1\t10\t30\nchr1\t40\t50\n")?
            && are_blocks(rt, session, 10, b"chr1\t10\t50\n")?
            && is_depth(rt, session, depth)?,
    )
}

#[test]
fn blocks_and_depth(rt: HostRuntime) -> Result<(), Fail> {
    let session = session_of(&rt, &alone(RECORDS, 9))?;
    holds_of(are_built(&rt, &session))
}
