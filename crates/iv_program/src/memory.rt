//! Files in memory.
ghost use Rattle.std.specs.Prelude.{◌≡◌, ◌<◌, None, false};
ghost use Rattle.std.specs.Option.{option_copied};
ghost use Rattle.iv_program.specs.Memory.{bytes_named};

use crate::files::InputFiles;
use iv_bytes::{MemSource, ReadFault, Source};

/// The name and the bytes of a file in memory.
#[derive(Clone, Copy, Debug)]
pub struct NamedBytes<'a> {
    pub name: &'a [u8],
    pub bytes: &'a [u8],
}

/// The bytes of the first file of this name, if there is one.
fn bytes_of<'a>(files: &[NamedBytes<'a>], name: &[u8]) -> Option<&'a [u8]>
    ensures { option_copied result ≡ bytes_named files.now name.now }
{
    match files.iter().find(|file| file.name == name) {
        Some(file) => Some(file.bytes),
        None => None,
    }
}

/// Files in memory, for tests: each gives at most `piece` bytes at a time and `good` in all, and fails exactly at a pull that finds
/// `good` of them given. A name that no file has can't be opened.
#[derive(Drop)]
pub struct MemFiles<'a> {
    files: &'a [NamedBytes<'a>],
    good: usize,
    piece: usize,
    failed: bool,
    ghost some: { 0 < piece },
}

impl<'a> MemFiles<'a> {
    /// A piece is at least one byte. None of the files is failed.
    pub fn new(files: &'a [NamedBytes<'a>], good: usize, piece: usize) -> MemFiles<'a>
        requires { 0 < piece }
        ensures { (result.files.now ≡ files.now) × (result.good ≡ good) × (result.piece ≡ piece) × (result.failed ≡ false) }
    {
        MemFiles {
            files,
            good,
            piece,
            failed: false,
        }
    }
}

impl<'a> InputFiles for MemFiles<'a> {
    type File = MemSource<'a>;

    // What happened to them is not known.
    ghost state = { λ f. record { contents = bytes_named f.files.now; events = None; failed = f.failed } };

    fn open(&mut self, name: &[u8]) -> Result<MemSource<'a>, ReadFault> {
        match bytes_of(self.files, name) {
            Some(bytes) => Ok(MemSource::new(bytes, self.good, self.piece)),
            None => {
                self.failed = true;
                Err(ReadFault)
            }
        }
    }

    fn close(&mut self, file: MemSource<'a>) {
        self.failed = file.failed() || self.failed;
    }
}
