//! The names that are nearest to a word that nothing has.
//!
//! The nearest are what people call so, as `kf5` is called F5, and a name that differs in capitals alone. Of the others the distance
//! is that of optimal string alignment: a name is near if there is one edit at most for each three bytes of the word. All short and long
//! names are gone over once, and those of the entry's extended capabilities.

use crate::voice::known_as::{KNOWN_AS, is_called};
use std::alloc::Allocator;
use std::str::from_utf8;
use strsim::osa_distance;
use ti_entry::Entry;
use ti_names::NameTable;
use ti_sink::ShortPage;
use ti_words::{Kind, Subject};

/// How many indices there are of the kind that has most.
const MOST_NAMES: usize = 414;

/// There is one edit at most for so many bytes of a word.
const BYTES_OF_AN_EDIT: usize = 3;

/// The most names that are reported.
const MOST_REPORTED: usize = 3;

/// A near name, and how many edits lead to it.
#[derive(Clone, Copy)]
struct NearName<'n> {
    edits: usize,
    name: &'n str,
}

/// The names that are near a word, each once, as they were found.
#[derive(Drop)]
struct NearNames<'w, 'n, A: Allocator> {
    alloc: A,
    word: &'w str,
    found: Vec<NearName<'n>, A>,
    is_refused: bool,
}

impl<'n, A: Allocator + Copy> NearNames<'_, 'n, A> {
    fn push(&mut self, edits: usize, name: &'n str) {
        self.is_refused |= self.found.push(NearName { edits, name }).is_err();
    }

    /// Adds a name, if few edits lead to it.
    fn add_edited(&mut self, name: &'n str) {
        let most = self.word.len() / BYTES_OF_AN_EDIT;
        let more = name.chars().count().abs_diff(self.word.chars().count());
        if more > most {
            return;
        }
        match osa_distance(self.alloc, self.word, name) {
            Ok(edits) if edits > most => (),
            Ok(edits) => self.push(edits, name),
            Err(_) => self.is_refused = true,
        }
    }

    /// Adds a name, if it is near and not there yet.
    fn add(&mut self, name: &'n str) {
        if self.found.iter().any(|one| one.name == name) {
            return;
        }
        if is_called(self.word, name) {
            self.push(0, name)
        } else {
            self.add_edited(name)
        }
    }

    /// Adds the names of what the word is known for.
    fn add_known(&mut self) {
        'words: for (word, name) in KNOWN_AS {
            if self.word.eq_ignore_ascii_case(word) {
                self.push(0, name)
            }
        }
    }

    fn add_standard(&mut self, table: NameTable) {
        'kinds: for kind in [Kind::Flag, Kind::Number, Kind::Text] {
            'indices: for index in 0..MOST_NAMES {
                if let Some(name) = table.name_at(kind, index) {
                    self.add(name);
                }
            }
        }
    }

    fn add_extended(&mut self, entry: &Entry<'n>) {
        'items: for (subject, _) in entry.items() {
            if let Subject::Extended(_, name) = subject {
                if let Ok(name) = from_utf8(name) {
                    self.add(name);
                }
            }
        }
    }
}

/// Writes the names that are nearest to a word, the nearest first: at most three, and none if memory is refused.
pub fn write_nearest<'n, A: Allocator + Copy>(
    page: &mut ShortPage,
    alloc: A,
    word: &str,
    entry: &Entry<'n>,
) {
    let mut near = NearNames {
        alloc,
        word,
        found: Vec::new(alloc),
        is_refused: false,
    };
    near.add_known();
    near.add_standard(NameTable::All);
    near.add_standard(NameTable::Long);
    near.add_extended(entry);
    let sorted = near.found.sort_by(|one, other| one.edits.cmp(&other.edits));
    if near.is_refused || sorted.is_err() {
        return;
    }
    'names: for (index, one) in near.found.iter().take(MOST_REPORTED).enumerate() {
        page.put(if index == 0 { "; nearest: " } else { ", " });
        page.name(one.name.as_bytes());
    }
}
