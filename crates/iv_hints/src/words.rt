//! The hint on arguments that ask for no run, and on the words of a view.
use crate::facts::{Facts, flag, is_between};
use crate::hint::Hint;
use crate::nearest::near_in;
use crate::vocabulary::{OPERATIONS, SUBJECTS};
use iv_args::{OptionUsage, OptionValue, RUNS, RunUsage, Subcommand};
use iv_lines::read_number;
use std::alloc::AllocError;

/// The options that are known: of a run's arguments, or of a view in a script.
#[derive(Clone, Copy)]
struct Options {
    run: &'static RunUsage,
    is_view: bool,
}

/// A mistake: what the table calls it, the number of the word, and the option before it.
#[derive(Clone, Copy)]
struct Mistake {
    on: &'static [u8],
    at: usize,
    option: Option<&'static OptionUsage>,
}

/// What comes after an option, in a few words, and whether a word is that.
fn needs(option: &OptionUsage, word: &[u8]) -> (&'static [u8], bool) {
    let number = read_number(word);
    let mut items = word.split(|byte| *byte == b',');
    match option.value {
        OptionValue::Nothing => (b"nothing", false),
        OptionValue::Genome => (b"GENOME", true),
        OptionValue::Bed => (b"BED", true),
        OptionValue::Fasta => (b"FASTA", true),
        OptionValue::Width => (b"a number from 3 to 6", matches!(word, [b'3'..=b'6'])),
        OptionValue::Limit => (
            b"a number from 1 to 100000000",
            number.is_some_and(|count| count >= 1 && count <= 100_000_000),
        ),
        OptionValue::Distance => (
            b"a number from 0 to 1000000000",
            number.is_some_and(|count| count <= 1_000_000_000),
        ),
        OptionValue::Columns => (
            b"numbers of columns, as in 4,5",
            items.all(|item| read_number(item).is_some()),
        ),
        OptionValue::Operations => (
            b"count, sum, min, max, collapse or distinct",
            items.all(|item| OPERATIONS.split(is_between).any(|known| known == item)),
        ),
    }
}

/// A word, and nothing after the last one.
fn word_at<'a>(words: &[&'a [u8]], at: usize) -> &'a [u8] {
    words.get(at).copied().unwrap_or(b"")
}

/// The word after an option.
pub(crate) fn value_after<'a>(words: &[&'a [u8]], option: &[u8]) -> &'a [u8] {
    match words.iter().position(|word| *word == option) {
        Some(at) => word_at(words, at.saturating_add(1)),
        None => b"",
    }
}

impl Options {
    /// All of them, in three lists.
    fn lists(self) -> [&'static [OptionUsage]; 3] {
        if self.is_view {
            [self.run.view, &[], &[]]
        } else {
            [self.run.needed, self.run.view, self.run.others]
        }
    }

    /// The option of this name.
    fn find(self, name: &[u8]) -> Option<&'static OptionUsage> {
        let lists = self.lists();
        lists
            .iter()
            .find_map(|list| list.iter().find(|option| option.name == name))
    }

    /// The first word that is no option and no value, or no value that its option takes.
    fn stray(self, words: &[&[u8]]) -> Option<Mistake> {
        let mut option: Option<&'static OptionUsage> = None;
        let mut is_open = false;
        for (at, word) in words.iter().enumerate() {
            let known = self.find(word);
            let is_value = option.is_some_and(|option| needs(option, word).1);
            let on: &'static [u8] = match (is_open, known) {
                (true, None) if is_value => b"",
                (true, _) => b"bad_value",
                (false, Some(_)) => b"",
                (false, None) if matches!(*word, [b'-', _, ..]) => b"option",
                (false, None) => b"stray",
            };
            if !on.is_empty() {
                return Some(Mistake { on, at, option });
            }
            option = known.or(option);
            is_open = known.is_some_and(|option| option.value != OptionValue::Nothing);
        }
        let (on, at) = (b"bad_value", words.len());
        Some(Mistake { on, at, option }).filter(|_| is_open)
    }

    /// A mistake of all words together: a word that is given twice, an option that is missing, or options that exclude one another.
    fn together(self, words: &[&[u8]]) -> Mistake {
        let is_double = |word: &&[u8]| {
            words.iter().filter(|other| *other == word).count() > 1 && self.find(word).is_some()
        };
        let double = words.iter().position(is_double);
        let is_missing = |option: &&OptionUsage| !self.is_view && !words.contains(&option.name);
        let missing = self.run.needed.iter().find(is_missing);
        Mistake {
            on: match (double, missing) {
                (Some(_), _) => b"twice",
                (None, Some(_)) => b"missing",
                (None, None) => b"together",
            },
            at: double.unwrap_or(words.len()),
            option: missing,
        }
    }

    /// Puts the first mistake in the words after the subcommand.
    fn put(self, words: &[&[u8]], hint: &mut Hint) -> Result<(), AllocError> {
        let found = self.stray(words).unwrap_or(self.together(words));
        let word = word_at(words, found.at);
        let mut names: Vec<&'static [u8]> = Vec::new(hint.alloc);
        for list in self.lists() {
            for option in list {
                names.push(option.name)?;
            }
        }
        let name_of = |option: &OptionUsage| option.name;
        let needs_of = |option: &OptionUsage| needs(option, b"").0;
        Facts::new(
            hint.alloc,
            found.on,
            &[
                (b"word", word),
                (b"value", word_at(words, found.at.saturating_sub(1))),
                (b"option", found.option.map_or(b"", name_of)),
                (b"needs", found.option.map_or(b"", needs_of)),
                (b"near", near_in(hint.alloc, names.as_slice(), word)?),
                (b"run", self.run.name),
                (b"rule", self.run.rule),
                (b"records", self.run.needed.get(1).map_or(b"-i", name_of)),
                (b"list", value_after(words, b"-c")),
                (b"of_view", flag(self.is_view)),
            ],
        )?
        .put(hint)
    }
}

/// Puts the first mistake in the arguments, or in the words of a view.
pub(crate) fn put_words(words: &[&[u8]], is_view: bool, hint: &mut Hint) -> Result<(), AllocError> {
    let word = word_at(words, 0);
    let is_run = |run: &&RunUsage| word == run.name && !(is_view && run.run == Subcommand::Session);
    let run = RUNS.iter().find(is_run);
    match run {
        Some(run) => Options { run, is_view }.put(words.get(1..).unwrap_or(&[]), hint)?,
        None => {
            let known: Vec<&'static [u8]> = SUBJECTS.split(is_between).collect(hint.alloc)?;
            let near = near_in(hint.alloc, known.as_slice(), word)?;
            let on: &'static [u8] = if is_view { b"view" } else { b"subject" };
            Facts::new(hint.alloc, on, &[(b"word", word), (b"near", near)])?.put(hint)?;
        }
    }
    if !is_view {
        let run = run.map_or(b"".as_slice(), |run| run.name);
        Facts::new(hint.alloc, b"try", &[(b"run", run)])?.put(hint)?;
    }
    Ok(())
}
