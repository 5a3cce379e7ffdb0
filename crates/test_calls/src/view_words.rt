//! What arguments ask for as a view.
use iv_depth::DepthOutput;
use iv_fasta::FastaOutput;
use iv_pair::{IntersectOutput, PairOutput};
use iv_session::ViewWords;
use iv_view::{KeptView, ViewFault, WrittenView};
use std::test::Fail;

/// What arguments ask for on a track of three columns beside a second file.
fn view_of(rt: &HostRuntime, words: &[&[u8]]) -> Result<ViewWords, ViewFault> {
    ViewWords::read(rt.alloc(), 3, true, false, words)
}

#[test]
fn words_of_kept_views(rt: HostRuntime) {
    for (words, want) in [
        ([b"cluster".as_slice()].as_slice(), KeptView::Cluster(0)),
        (&[b"cluster", b"-d", b"0100"], KeptView::Cluster(100)),
        (&[b"complement"], KeptView::Complement { limited: false }),
        (
            &[b"complement", b"-L"],
            KeptView::Complement { limited: true },
        ),
        (
            &[b"genomecov", b"-bg"],
            KeptView::Genomecov(DepthOutput::Covered),
        ),
        (
            &[b"genomecov", b"-bga"],
            KeptView::Genomecov(DepthOutput::All),
        ),
        (
            &[b"genomecov", b"-d"],
            KeptView::Genomecov(DepthOutput::EachPosition),
        ),
    ] {
        assert!(rt; view_of(&rt, words) == Ok(ViewWords::Kept(want)));
    }
}

#[test]
fn words_of_written_views(rt: HostRuntime) {
    for (words, want) in [
        (
            [b"intersect".as_slice()].as_slice(),
            PairOutput::Intersect(IntersectOutput::Shared),
        ),
        (
            &[b"intersect", b"-wa"],
            PairOutput::Intersect(IntersectOutput::Whole),
        ),
        (
            &[b"intersect", b"-wb"],
            PairOutput::Intersect(IntersectOutput::SharedAndHit),
        ),
        (
            &[b"intersect", b"-wb", b"-wa"],
            PairOutput::Intersect(IntersectOutput::WholeAndHit),
        ),
        (
            &[b"intersect", b"-wa", b"-u"],
            PairOutput::Intersect(IntersectOutput::IfHit),
        ),
        (
            &[b"intersect", b"-v"],
            PairOutput::Intersect(IntersectOutput::IfNoHit),
        ),
        (
            &[b"intersect", b"-c", b"-wa"],
            PairOutput::Intersect(IntersectOutput::Count),
        ),
        (&[b"subtract"], PairOutput::Subtract { whole: false }),
        (&[b"subtract", b"-A"], PairOutput::Subtract { whole: true }),
    ] {
        let want = ViewWords::Written(WrittenView::Paired(want));
        assert!(rt; view_of(&rt, words) == Ok(want));
    }
}

/// The options of getfasta go together in any order.
#[test]
fn words_of_getfasta(rt: HostRuntime) {
    for (words, stranded, tab) in [
        ([b"getfasta".as_slice()].as_slice(), false, false),
        (&[b"getfasta", b"-s"], true, false),
        (&[b"getfasta", b"-tab"], false, true),
        (&[b"getfasta", b"-s", b"-tab"], true, true),
        (&[b"getfasta", b"-tab", b"-s"], true, true),
    ] {
        let want = WrittenView::Getfasta(FastaOutput { stranded, tab });
        let read = ViewWords::read(rt.alloc(), 6, false, true, words);
        assert!(rt; read == Ok(ViewWords::Written(want)));
    }
}

#[test]
fn words_that_ask_for_no_view(rt: HostRuntime) {
    for (words, want) in [
        ([b"genomecov".as_slice()].as_slice(), ViewFault::Words),
        (&[b"intersect", b"-u", b"-v"], ViewFault::Words),
        (&[b"intersect", b"-c", b"-wb"], ViewFault::Words),
        (&[b"merge", b"-s"], ViewFault::NoStrand),
    ] {
        assert!(rt; view_of(&rt, words) == Err(want));
    }
}
