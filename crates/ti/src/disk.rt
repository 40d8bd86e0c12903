//! The files of the system, and the folders that they lie in.

use std::alloc::{AllocError, Allocator};
use std::cell::Cell;
use std::collections::BTreeSet;
use std::fs::Metadata;
use std::io::ErrorKind;
use std::os::unix::fs::MetadataExt;
use std::{fs, io};
use ti_tool::{FoundFile, Store, one_file, read_contents};

/// Which file it is, whatever its names are: its device, and its number there.
type Identity = (u64, u64);

/// The files that the program reaches.
#[derive(Drop)]
pub struct Disk<'a> {
    rt: &'a HostRuntime,
    /// The files that were found so far.
    seen: Cell<BTreeSet<Identity>>,
}

impl<'a> Disk<'a> {
    /// Those of the system, none of which was found yet.
    pub fn new(rt: &'a HostRuntime) -> Self {
        Disk {
            rt,
            seen: Cell::new(BTreeSet::new(rt.alloc())),
        }
    }

    /// Whether a file was not found before. It is now.
    fn is_new(&self, file: &Metadata) -> Result<bool, AllocError> {
        let mut seen = self.seen.replace(BTreeSet::new(self.rt.alloc()));
        let inserted = seen.insert((file.dev(), file.ino()));
        self.seen.set(seen);
        Ok(inserted?)
    }

    /// Whether a link leads to a regular file that was not found before. It is not opened, so that no device or pipe blocks.
    fn leads_to_new(&self, link: &str) -> Result<bool, AllocError> {
        match fs::metadata(self.rt, link) {
            Ok(file) if file.is_file() => self.is_new(&file),
            _ => Ok(false),
        }
    }
}

impl<'a> Store for Disk<'a> {
    fn find<A: Allocator + Copy>(&self, alloc: A, name: &str) -> io::Result<ti_tool::Files<A>> {
        let file = fs::metadata(self.rt, name)?;
        if !file.is_dir() {
            let _ = self.is_new(&file)?;
            return Ok(one_file(alloc, name, None)?);
        }
        let mut walk = Walk::new(alloc, name)?;
        walk.visit_all(self)?;
        walk.add_links(self)?;
        walk.found
            .sort_by(|one, other| one.name.as_str().cmp(other.name.as_str()))?;
        Ok(ti_tool::Files {
            found: walk.found,
            are_in_folder: true,
        })
    }

    fn read<A: Allocator>(&self, name: &str, contents: &mut Vec<u8, A>) -> io::Result<()> {
        let mut file = fs::open(self.rt, name)?;
        read_contents(&mut file, contents)
    }
}

/// A walk through a folder and those below it.
#[derive(Drop)]
struct Walk<A: Allocator> {
    alloc: A,
    /// The folders that were not visited yet.
    folders: Vec<String<A>, A>,
    /// The links, which may lead to files.
    links: Vec<String<A>, A>,
    /// The regular files, and the folders that can't be read.
    found: Vec<FoundFile<A>, A>,
}

impl<A: Allocator + Copy> Walk<A> {
    /// A walk that begins with a folder.
    fn new(alloc: A, name: &str) -> Result<Self, AllocError> {
        let mut folders = Vec::new(alloc);
        folders.push(String::from_str(alloc, name)?)?;
        Ok(Walk {
            alloc,
            folders,
            links: Vec::new(alloc),
            found: Vec::new(alloc),
        })
    }

    /// Visits all folders, each after the one in which it lies.
    fn visit_all(&mut self, disk: &Disk<'_>) -> Result<(), AllocError> {
        for _ in 0..u64::MAX {
            let Some(folder) = self.folders.pop() else {
                return Ok(());
            };
            if let Err(error) = self.visit(disk, folder.as_str()) {
                self.refuse(folder.as_str(), error)?;
            }
        }
        Ok(())
    }

    /// Adds what is in a folder. Names that are not UTF-8 are counted.
    fn visit(&mut self, disk: &Disk<'_>, folder: &str) -> io::Result<()> {
        let mut unnamed = 0_u64;
        for entry in fs::read_dir(disk.rt, folder)? {
            match entry {
                Ok(entry) => self.add(disk, entry.path().as_str(), &entry.metadata()?)?,
                Err(error) if error.kind() == ErrorKind::InvalidFilename => {
                    unnamed = unnamed.saturating_add(1);
                }
                Err(error) => self.refuse(folder, error)?,
            }
        }
        self.refuse_names(folder, unnamed)?;
        Ok(())
    }

    /// Adds what has a path.
    fn add(&mut self, disk: &Disk<'_>, path: &str, file: &Metadata) -> Result<(), AllocError> {
        let name = String::from_str(self.alloc, path)?;
        if file.is_dir() {
            self.folders.push(name)?;
        } else if file.is_symlink() {
            self.links.push(name)?;
        } else if file.is_file() {
            let _ = disk.is_new(file)?;
            self.found.push(FoundFile { name, fault: None })?;
        }
        Ok(())
    }

    /// Adds the links to regular files that were not found before: of several to one file the first.
    fn add_links(&mut self, disk: &Disk<'_>) -> Result<(), AllocError> {
        let mut links = std::mem::replace(&mut self.links, Vec::new(self.alloc));
        links.sort_by(|one, other| one.as_str().cmp(other.as_str()))?;
        for name in links {
            if disk.leads_to_new(name.as_str())? {
                self.found.push(FoundFile { name, fault: None })?;
            }
        }
        Ok(())
    }

    /// Adds a folder that can't be read.
    fn refuse(&mut self, folder: &str, error: io::Error) -> Result<(), AllocError> {
        let name = String::from_str(self.alloc, folder)?;
        self.found.push(FoundFile {
            name,
            fault: Some(error),
        })?;
        Ok(())
    }

    /// Adds a folder in which so many names are not UTF-8.
    fn refuse_names(&mut self, folder: &str, count: u64) -> Result<(), AllocError> {
        let reason = match count {
            0 => return Ok(()),
            1 => format!(in self.alloc; "1 name is not UTF-8")?,
            _ => format!(in self.alloc; "{count} names are not UTF-8")?,
        };
        let error = io::Error::new(ErrorKind::InvalidFilename, reason.as_str());
        self.refuse(folder, error)
    }
}
