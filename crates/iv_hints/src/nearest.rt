//! The word that was probably meant.
use std::alloc::{AllocError, Global};
use strsim::generic_levenshtein;

/// How many bytes a word has at most for which a near one is looked for.
const MOST_BYTES: usize = 40;

/// A word without the dashes that it begins with.
fn letters_of(word: &[u8]) -> &[u8] {
    match word {
        [b'-', b'-', letters @ ..] | [b'-', letters @ ..] => letters,
        _ => word,
    }
}

/// How many letters of two words are others. It is 3 or more if half of a short word are.
fn distance(alloc: Global, word: &[u8], known: &[u8]) -> Result<usize, AllocError> {
    let (letters, wanted) = (letters_of(word), letters_of(known));
    if letters.eq_ignore_ascii_case(wanted) {
        return Ok(if word == known { 3 } else { 0 });
    }
    let distance = generic_levenshtein(alloc, letters, wanted)?;
    Ok(if distance > wanted.len() / 2 {
        3
    } else {
        distance
    })
}

/// The word of a list that is nearest to one that isn't of it, if it is at most two letters away; else empty.
pub(crate) fn near_in(
    alloc: Global,
    list: &[&'static [u8]],
    word: &[u8],
) -> Result<&'static [u8], AllocError> {
    let mut least: usize = 3;
    let mut found: &'static [u8] = b"";
    for known in list.iter().filter(|_| word.len() <= MOST_BYTES) {
        let distance = distance(alloc, word, known)?;
        if distance < least {
            least = distance;
            found = known;
        }
    }
    Ok(found)
}
