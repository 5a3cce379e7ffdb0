//! A hint: at most three indented lines.
ghost use Rattle.std.specs.Prelude.{◌≡◌, ◌≤◌, true};
ghost use Rattle.iv_hints.specs.Inside.Shown.{AreShown, feeds, is_letter};

use std::alloc::{AllocError, Global};
use std::fmt;

/// How many lines a hint has at most.
const MOST_LINES: usize = 3;

/// How many bytes of a value are shown.
const MOST_VALUE_BYTES: usize = 120;

/// The front of a value, as a hint shows it: bytes that are no character of ASCII that is shown are escaped.
#[derive(Clone, Copy)]
pub(crate) struct Escaped<'a>(pub(crate) &'a [u8]);

impl fmt::Display for Escaped<'_> {
    fn fmt<W: fmt::Write>(&self, f: &mut fmt::Formatter<W>) -> fmt::Result {
        for byte in self.0.iter().take(MOST_VALUE_BYTES) {
            match *byte {
                b' '..=b'~' => f.write_char(*byte as char)?,
                b'\t' => f.write_str("\\t")?,
                b'\r' => f.write_str("\\r")?,
                other => write!(f, "\\x{other:02x}")?,
            }
        }
        f.write_str(if self.0.len() > MOST_VALUE_BYTES {
            " .."
        } else {
            ""
        })
    }
}

/// Lines that are indented by two spaces, of ASCII's characters that are shown.
#[derive(Drop)]
pub struct Hint {
    pub(crate) alloc: Global,
    text: Vec<u8>,
    lines: usize,
    /// The number of the line and that of its field that the first line names, unless they are 0.
    pub(crate) place: (u64, usize),
    ghost few: { lines ≤ 3 },
    ghost ended: { feeds text.items ≡ lines },
    ghost shown: { AreShown text.items },
}

impl Hint {
    /// A hint that says nothing yet.
    pub(crate) fn new(alloc: Global) -> Hint {
        Hint {
            alloc,
            text: Vec::new(alloc),
            lines: 0,
            place: (0, 0),
        }
    }

    /// Its lines, each ended by LF, at most three. Another control byte is in none of them.
    pub fn bytes(&self) -> &[u8]
        ensures shown { AreShown result.now }
        ensures few { feeds result.now ≤ 3 }
    {
        self.text.as_slice()
    }

    /// Whether it says nothing.
    pub(crate) fn is_empty(&self) -> bool {
        self.lines == 0
    }

    /// Adds a line, as long as there are fewer than three.
    pub(crate) fn put_line(&mut self, line: &[u8]) -> Result<(), AllocError> {
        if self.lines < MOST_LINES {
            self.put_shown(b"  ")?;
            if self.lines == 0 {
                self.put_place()?;
            }
            self.put_shown(line)?;
            self.end_line()?;
        }
        Ok(())
    }

    /// Adds the front of the first line: its place.
    fn put_place(&mut self) -> Result<(), AllocError> {
        let (line, field) = self.place;
        let text = match self.place {
            (0, 0) => String::new(self.alloc),
            (0, _) => format!(in self.alloc; "field {field}: ")?,
            (_, 0) => format!(in self.alloc; "line {line}: ")?,
            _ => format!(in self.alloc; "line {line}, field {field}: ")?,
        };
        self.put_shown(text.as_bytes())
    }

    /// Adds the bytes of a text that are shown.
    fn put_shown(&mut self, text: &[u8]) -> Result<(), AllocError> {
        for byte in text {
            match *byte {
                b' '..=b'~' => self.push(*byte)?,
                _ => {}
            }
        }
        Ok(())
    }

    /// Adds a byte that is shown.
    fn push(&mut self, byte: u8) -> Result<(), AllocError>
        requires { is_letter byte ≡ true }
    {
        self.text.push(byte)?;
        Ok(())
    }

    /// Ends a line, unless three have ended.
    fn end_line(&mut self) -> Result<(), AllocError> {
        if self.lines < MOST_LINES {
            self.text.push(b'\n')?;
            self.lines += 1;
        }
        Ok(())
    }
}
