//! The headers of a FASTA file.
ghost use Rattle.std.specs.Prelude.{◌≡◌, ◌<◌, ◌≤◌, ◌∷◌, ◌++◌, ℕ, List, [], true, false, IfNone, IfSome, length, drop};
ghost use Rattle.std.specs.List.{before_first};
ghost use Rattle.iv_lines.specs.Lines.{lines};
ghost use Rattle.iv_fasta.specs.Fasta.{header_name};
ghost use Rattle.iv_fasta.specs.Inside.Fasta.{is_blank};

use bstr::ByteSlice;
use iv_lines::split_line;

/// Whether a name ends before this byte.
fn ends_name(b: u8) -> bool
    ensures { result ≡ is_blank b }
{
    b == b' ' || b == b'\t'
}

/// What is before the first space or TAB of a text, or all of it.
fn before_blank(text: &[u8]) -> &[u8]
    ensures { result.now ≡ before_first is_blank text.now }
{
    for (at, b) in text.iter().enumerate() {
        if ends_name(*b) {
            return &text[..at];
        }
    }
    text
}

/// The name of the header in a line.
pub(crate) fn name_in(line: &[u8]) -> &[u8]
    ensures { result.now ≡ header_name line.now }
{
    match line {
        [_, rest @ ..] => before_blank(rest),
        [] => line,
    }
}

/// The first line of a text, if it ends in the text, and where the next one begins. The end of the last text ends its line.
pub(crate) fn ended_line(text: &[u8], is_last: bool) -> Option<(&[u8], usize)>
    requires { 0 < length text.now }
    ensures lines { IfSome result (λ l. (more : List ℕ) → (is_last ≡ true → more ≡ []) → lines (text.now ++ more) ≡ l.0.now ∷ lines (drop l.1 text.now ++ more)) }
    ensures some { IfSome result (λ l. 0 < l.1) }
    ensures within { IfSome result (λ l. l.1 ≤ length text.now) }
    ensures none { IfNone result (is_last ≡ false) }
{
    if is_last {
        return Some(split_line(text));
    }
    match text.find_byte(b'\n') {
        Some(feed) => Some(split_line(&text[..feed + 1])),
        None => None,
    }
}
