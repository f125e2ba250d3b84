//! The real files, as a shelf. It is a few lines over std, and no clause says which bytes a file
//! gives: it is trusted to read the file that it is told to, at the place that it is told to.

ghost use Rattle.std.specs.Prelude.{◌≡◌, ◌≤◌, length, IfOk, None};

use crate::shelf::{Failed, Shelf};
use std::io::{Read, Seek, SeekFrom};
use std::marker::Model;
use std::rt::Files;
use std::{fs, io};

/// The files of the system. Each error of std is a fault, want of memory too. Contracts see how
/// many faults there were. The file that was read last stays open, so that a read from where the
/// last one ended goes on in it, also in one that can be read once alone, as a pipe.
#[derive(Drop)]
pub struct FileShelf<'a, R: Files> {
    files: &'a R,
    faults: u64,
    open: Option<OpenFile<R::File>>,
}

/// A file that is being read.
#[derive(Drop)]
struct OpenFile<F> {
    name: String,
    file: F,
    at: u64,
}

impl<'a, R: Files> Model for FileShelf<'a, R> {
    ghost use Rattle.std.specs.Prelude.{ℕ};

    ghost Value = { ℕ };

    ghost view = { λ shelf. shelf.faults };
}

impl<'a, R: Files + AllocGlobal> FileShelf<'a, R> {
    /// The shelf of the files that this runtime reaches, with no fault yet.
    pub fn new(files: &'a R) -> Self
        ensures { result ≡ 0 }
    {
        FileShelf {
            files,
            faults: 0,
            open: None,
        }
    }

    /// Reads from byte `at` of the file of that name, and keeps it open. Where there is no memory
    /// for its name it is closed.
    fn read(&mut self, name: &str, at: u64, into: &mut [u8]) -> io::Result<usize>
        ensures count { IfOk result (λ count. count ≤ length into.new) }
        ensures faults { self.new ≡ self.old }
    {
        if let Some(open) = &mut self.open {
            if open.at == at && open.name.as_str() == name {
                let count = open.file.read(into)?;
                open.at = at.saturating_add(count as u64);
                return Ok(count);
            }
        }
        let mut file = fs::open(self.files, name)?;
        if at > 0 {
            file.seek(SeekFrom::Start(at))?;
        }
        let count = file.read(into)?;
        let at = at.saturating_add(count as u64);
        self.open = match String::from_str(self.files.alloc(), name) {
            Ok(name) => Some(OpenFile { name, file, at }),
            Err(_) => None,
        };
        Ok(count)
    }
}

impl<'a, R: Files + AllocGlobal> Shelf for FileShelf<'a, R> {
    ghost held = { λ _ _. None };

    ghost faults = { λ faults _. faults };

    fn read_at(&mut self, name: &str, at: u64, into: &mut [u8]) -> Result<usize, Failed> {
        match self.read(name, at, into) {
            Ok(count) => Ok(count),
            Err(_) => {
                self.open = None;
                self.faults = self.faults.saturating_add(1);
                Err(Failed)
            }
        }
    }
}
