//! Where files are, and what is in them.

ghost use Rattle.std.specs.Prelude.{◌≡◌, ◌∷◌, ◌⊎◌, [], Bool, IfOk, OnOk, is_some, map, string_bytes, true};
ghost use Rattle.ti_tool.specs.Streams.{AreAppended, AreContents, AreFound, Gives, IsOne, KnownFiles, file_name, lookup, unknown_files};

use std::alloc::{AllocError, Allocator};
use std::io;
use std::io::{ErrorKind, Read};
use ti_base::{MOST_ENTRY_BYTES, MOST_INTERRUPTIONS};

/// A file that a word of the command line names, or that lies in a folder that it names; or why the system does not give it.
#[derive(Drop)]
pub struct FoundFile<A: Allocator> {
    /// Its name.
    pub name: String<A>,
    /// Why it can't be read, if that is known before it is opened.
    pub fault: Option<io::Error>,
}

/// The files that words find.
#[derive(Drop)]
pub struct Files<A: Allocator> {
    /// Those in a folder by their paths, else the one.
    pub found: Vec<FoundFile<A>, A>,
    /// Whether they lie in a folder that was named.
    pub are_in_folder: bool,
}

/// Where files are.
pub trait Store {
    // What is known of the files.
    ghost known: { Self → KnownFiles } = { λ _. unknown_files };

    /// The files that a word names: the one of this name, or if it is a folder all below it.
    fn find<A: Allocator + Copy>(&self, alloc: A, name: &str) -> io::Result<Files<A>>
        ensures one { IfOk result (λ files. (files.are_in_folder ≡ true) ⊎ ((refused : Bool)
            × IsOne name.now refused (lookup files.are_in_folder
            (map (λ f. file_name (string_bytes f.name) (is_some f.fault)) files.found.items)))) }
        ensures known { IfOk result (λ files. AreFound ((known self.now).found name.now)
            (lookup files.are_in_folder
            (map (λ f. file_name (string_bytes f.name) (is_some f.fault)) files.found.items))) };

    /// Appends what a file holds, up to one byte more than an entry can have.
    fn read<A: Allocator>(&self, name: &str, contents: &mut Vec<u8, A>) -> io::Result<()>
        ensures contents { OnOk result (AreAppended (AreContents ((known self.now).contents name.now))
            contents.old.items contents.new.items) };
}

/// No file can be read.
#[derive(Clone, Copy, Debug)]
pub struct NoStore;

impl Store for NoStore {
    fn find<A: Allocator + Copy>(&self, alloc: A, name: &str) -> io::Result<Files<A>> {
        Ok(one_file(alloc, name, Some(io::Error::from(ErrorKind::Unsupported)))?)
    }

    fn read<A: Allocator>(&self, _name: &str, _contents: &mut Vec<u8, A>) -> io::Result<()> {
        Err(io::Error::from(ErrorKind::Unsupported))
    }
}

/// The one file of a name.
pub fn one_file<A: Allocator + Copy>(
    alloc: A,
    name: &str,
    fault: Option<io::Error>,
) -> Result<Files<A>, AllocError>
    ensures { IfOk result (λ files. IsOne name.now (is_some fault)
        (lookup files.are_in_folder
        (map (λ f. file_name (string_bytes f.name) (is_some f.fault)) files.found.items))) }
{
    let mut found = Vec::new(alloc);
    found.push(FoundFile {
        name: String::from_str(alloc, name)?,
        fault,
    })?;
    Ok(Files {
        found,
        are_in_folder: false,
    })
}

/// The most bytes that are read at a time.
const PIECE: usize = 512;

/// Appends what a source has, up to one byte more than an entry can have, so that what is too large is refused as such.
///
/// Interrupted reads are tried again, at most [`MOST_INTERRUPTIONS`] of them.
pub fn read_contents<R: Read, A: Allocator>(
    source: &mut R,
    contents: &mut Vec<u8, A>,
) -> io::Result<()>
    ensures { OnOk result (AreAppended (Gives (R.remaining source.old) (R.remaining source.new))
        contents.old.items contents.new.items) }
{
    let mut piece = [0; PIECE];
    let mut room = MOST_ENTRY_BYTES + 1;
    let mut retries = MOST_INTERRUPTIONS;
    'pieces: while 0 < room {
        match source.read(&mut piece[..room.min(PIECE)]) {
            Ok(0) => return Ok(()),
            Ok(count) => {
                contents.extend_from_slice(&piece[..count])?;
                room -= count;
            }
            Err(error) if error.kind() == ErrorKind::Interrupted && 0 < retries => retries -= 1,
            Err(error) => return Err(error),
        }
    }
    Ok(())
}
