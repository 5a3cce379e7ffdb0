//! The words of a text.
ghost use Rattle.std.specs.Prelude.{◌≡◌, ◌≤◌, map, take};
ghost use Rattle.iv_lines.specs.Fields.{words as words_of};

use iv_lines::Fields;
use std::marker::Model;

/// How many words of a text are looked at: no view has as many.
const MOST_WORDS: usize = 9;

/// The first words of a text, at most 9: its maximal runs without a space.
#[derive(Drop)]
pub struct Words<'a> {
    arguments: [&'a [u8]; 9],
    count: usize,
}

impl<'a> Model for Words<'a> {
    ghost use Rattle.std.specs.Prelude.{List, ℕ, ◌≤◌, map, take};

    ghost Value = { List (List ℕ) };

    ghost view = { λ w. map (λ argument. argument.now) (take w.count w.arguments) };

    ghost invariant = { λ w. w.count ≤ 9 };
}

impl<'a> Words<'a> {
    /// The words of a text. It takes no memory.
    pub fn of(text: &'a [u8]) -> Words<'a>
        ensures { result ≡ take 9 (words_of text.now) }
    {
        let mut arguments: [&'a [u8]; 9] = [&[]; 9];
        let mut count = 0;
        let mut fields = Fields::of(text, b' ');
        while let Some(field) = fields.next() {
            if !field.is_empty() && count < MOST_WORDS {
                arguments[count] = field;
                count += 1;
            }
        }
        Words { arguments, count }
    }

    /// The words, in order.
    pub fn as_slice(&self) -> &[&'a [u8]]
        ensures { map (λ argument. argument.now) result.now ≡ self.now }
    {
        &self.arguments[..self.count]
    }
}
