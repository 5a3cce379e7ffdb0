//! Sources, which give bytes in pieces.
ghost use Rattle.std.specs.Prelude.{◌≡◌, ◌==◌, ◌<◌, ◌≤◌, ◌+◌, length, take, min, true, [], if◌then◌else◌, IfOk, OnErr, IsErr, IsTrue};
ghost use Rattle.std.specs.Io.KnownBytes.{IsAtEnd};
ghost use Rattle.iv_bytes.specs.Sources.{SourceState, Gives, answered};

use thiserror::Error;

/// A read failed. The source that answers it is failed from then on.
#[derive(Clone, Copy, Debug, PartialEq, Eq, Error)]
#[error("input cannot be read")]
pub struct ReadFault;

/// Gives bytes.
pub trait Source {
    /// What remains, whether it is failed, and how often it has answered that nothing remains.
    ghost state: { Self → SourceState };

    /// Writes the next bytes to the front and says how many; none only at the end. A fault gives nothing and fails the source for good.
    fn pull(&mut self, into: &mut [u8]) -> Result<usize, ReadFault>
        requires { 0 < length into.old }
        ensures some { IfOk result (λ n. n ≤ length into.new) }
        ensures ok { IfOk result (λ n. Gives (answered n (state self.old)) (state self.new) (take n into.new)) }
        ensures end { IfOk result (λ n. n ≡ 0 → IsAtEnd (state self.new).remaining) }
        ensures kept { OnErr result (Gives (record (state self.old) { failed = true }) (state self.new) []) }
        ensures failing { IsTrue (state self.old).failed → IsErr result };

    /// Whether a pull has failed.
    fn failed(&self) -> bool
        ensures { result ≡ (state self.now).failed };
}

/// How often a source has answered that no byte is left, once it has answered with so many. The count stays at 255.
pub(crate) fn counted(ends: u8, count: usize) -> u8
    ensures { result ≡ if count == 0 then min (ends + 1) 255 else ends }
{
    if count == 0 {
        ends.saturating_add(1)
    } else {
        ends
    }
}
