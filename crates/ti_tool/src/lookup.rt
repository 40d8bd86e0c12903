//! The files that words name.

ghost use Rattle.std.specs.Prelude.{◌≡◌, ◌<◌, List, None, IfOk, flat_map, is_some, map, string_bytes};
ghost use Rattle.ti_line.specs.Requests.{texts_of};
ghost use Rattle.ti_tool.specs.FileRuns.{AreLookups, IsLookup, are_several as the_are_several, line_on_none as the_line_on_none, lines_on_none as the_lines_on_none, takes_folders as the_takes_folders};
ghost use Rattle.ti_tool.specs.Streams.{Lookup, file_name, lookup};

use crate::file_answer::file_line;
use crate::outcome::is_minus;
use crate::store::{Files, FoundFile, Store, one_file};
use std::alloc::{AllocError, Allocator};
use ti_line::EntryAction;

/// Whether a directory names the files in it.
fn takes_folders(of_entry: &EntryAction<'_>) -> bool
    ensures { result ≡ the_takes_folders of_entry.now }
{
    matches!(
        of_entry,
        EntryAction::Show(_)
            | EntryAction::Json(_)
            | EntryAction::Check(_, _)
            | EntryAction::Lint(_, _)
    )
}

/// The files that a word names. A word that the system refuses names a file that can't be read.
fn look_up<S: Store, A: Allocator + Copy>(
    store: &S,
    alloc: A,
    of_entry: &EntryAction<'_>,
    word: &str,
) -> Result<Files<A>, AllocError>
    ensures { IfOk result (λ files. IsLookup (S.known store.now) of_entry.now word.now
        (lookup files.are_in_folder
        (map (λ f. file_name (string_bytes f.name) (is_some f.fault)) files.found.items))) }
{
    if takes_folders(of_entry) && !is_minus(word) {
        match store.find(alloc, word) {
            Ok(files) => Ok(files),
            Err(error) => one_file(alloc, word, Some(error)),
        }
    } else {
        one_file(alloc, word, None)
    }
}

/// The line on a folder in which no entry was found, else nothing.
fn line_on_none<A: Allocator + Copy>(
    alloc: A,
    of_entry: &EntryAction<'_>,
    word: &str,
    files: &Files<A>,
) -> Result<Vec<u8, A>, AllocError>
    ensures { IfOk result (λ line. line.items ≡ the_line_on_none of_entry.now word.now
        (lookup files.now.are_in_folder
        (map (λ f. file_name (string_bytes f.name) (is_some f.fault)) files.now.found.items))) }
{
    if takes_folders(of_entry) && files.are_in_folder && files.found.is_empty() {
        file_line(alloc, word, b"no entry was read\n")
    } else {
        Ok(Vec::new(alloc))
    }
}

/// The files that words name.
#[derive(Drop)]
pub struct Sought<A: Allocator> {
    pub files: Vec<FoundFile<A>, A>,
    /// Whether results have their names.
    pub are_several: bool,
    /// The lines on folders in which `lint` found no entry.
    pub lines: Vec<u8, A>,
}

/// The files that words name.
pub fn look_all_up<S: Store, A: Allocator + Copy>(
    store: &S,
    alloc: A,
    of_entry: &EntryAction<'_>,
    words: &[&str],
) -> Result<Sought<A>, AllocError>
    ensures { IfOk result (λ all. (founds : List Lookup)
        × AreLookups (S.known store.now) of_entry.now (texts_of words.now) founds
        × (map (λ f. file_name (string_bytes f.name) (is_some f.fault)) all.files.items
        ≡ flat_map (λ l. l.files) founds)
        × (all.are_several ≡ the_are_several (texts_of words.now) founds)
        × (all.lines.items ≡ the_lines_on_none of_entry.now (texts_of words.now) founds)) }
{
    let mut all = Vec::new(alloc);
    let mut are_several = words.len() > 1;
    let mut lines = Vec::new(alloc);
    for word in words {
        let mut files = look_up(store, alloc, of_entry, word)?;
        let line = line_on_none(alloc, of_entry, word, &files)?;
        lines.extend_from_slice(line.as_slice())?;
        all.append(&mut files.found)?;
        are_several = are_several || files.are_in_folder;
    }
    Ok(Sought {
        files: all,
        are_several,
        lines,
    })
}
