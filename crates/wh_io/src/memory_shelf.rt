//! A shelf in memory, which fails when it is told to: for tests of what reads.
//!
//! Its contract is exact: it says which reads fail, how many bytes the others give, and what the
//! shelf is afterwards. A read takes no memory.

ghost use Rattle.std.specs.Prelude.{◌≡◌, ◌↔◌, ◌-◌, ◌≤◌, ℕ, List, [], length, min, IsErr, IfOk, OnOk, OnErr, Some, None, position};
ghost use Rattle.std.specs.Option.{option_copied};
ghost use Rattle.std.specs.Str.{bytes_eq};
ghost use Rattle.wh_io.specs.Outside.{Gives, ReadsAt, HasCause};
ghost use Rattle.wh_io.specs.Memory.{ShelfState, file_named, ReadFails, after_read, AddsFile};

use crate::shelf::{Failed, Shelf};
use std::alloc::{AllocError, Global};
use std::marker::Model;

/// A file with its name.
#[derive(Drop)]
struct MemoryFile {
    name: String,
    bytes: Vec<u8>,
}

impl Model for MemoryFile {
    ghost use Rattle.std.specs.Prelude.{List, ℕ, string_bytes};

    ghost Value = { List ℕ × List ℕ };

    ghost view = { λ file. (string_bytes file.name, file.bytes.items) };
}

/// A shelf that holds its files in memory. It tells what they hold.
#[derive(Drop)]
pub struct MemoryShelf {
    files: Vec<MemoryFile>,
    failing: Vec<u64>,
    calls: u64,
    faults: u64,
}

impl Model for MemoryShelf {
    ghost use Rattle.wh_io.specs.Memory.{ShelfState};

    ghost Value = { ShelfState };

    ghost view = { λ shelf. record {
      files = shelf.files.items;
      failing = shelf.failing.items;
      calls = shelf.calls;
      faults = shelf.faults;
    } };
}

impl MemoryShelf {
    /// A shelf with no file. The reads with these numbers, counted from 0, are to fail.
    pub fn new(alloc: Global, failing: &[u64]) -> Result<Self, AllocError>
        ensures { IfOk result
            (λ shelf. shelf ≡ record { files = []; failing = failing.now; calls = 0; faults = 0 }) }
    {
        Ok(MemoryShelf {
            files: Vec::new(alloc),
            failing: Vec::from_slice(alloc, failing)?,
            calls: 0,
            faults: 0,
        })
    }

    /// Puts a file on the shelf, in place of an earlier one of that name.
    pub fn add_file(&mut self, name: &str, bytes: &[u8]) -> Result<(), AllocError>
        ensures ok { OnOk result (AddsFile self.old self.new name.now bytes.now) }
        ensures err { OnErr result (self.new ≡ self.old) }
    {
        let alloc = *self.files.allocator();
        let file = MemoryFile {
            name: String::from_str(alloc, name)?,
            bytes: Vec::from_slice(alloc, bytes)?,
        };
        match place_of(&self.files, name) {
            Some(place) => self.files[place] = file,
            None => self.files.push(file)?,
        }
        Ok(())
    }
}

impl Shelf for MemoryShelf {
    ghost held = { λ shelf name. file_named shelf.files name };

    ghost faults = { λ shelf _. shelf.faults };

    /// Fails exactly where the call is to fail, or where there is no file of that name; the buffer then stays as it
    /// was.
    fn read_at(&mut self, name: &str, at: u64, into: &mut [u8]) -> Result<usize, Failed>
        ensures bytes { ReadsAt (file_named self.old.files name.now) at into.new result }
        ensures kept { (other : List ℕ) → file_named self.new.files other ≡ file_named self.old.files other }
        ensures later { (other : List ℕ) → self.old.faults ≤ self.new.faults }
        ensures cause { HasCause self.old.faults self.new.faults result }
        ensures fails { IsErr result ↔ ReadFails self.old name.now }
        ensures most { IfOk result
            (λ n. (file : List ℕ) → file_named self.old.files name.now ≡ Some file → n ≡ min (length file - at) (length into.new)) }
        ensures state { self.new ≡ after_read self.old result }
        ensures buffer { OnErr result (into.new ≡ into.old) }
    {
        let call = self.calls;
        self.calls = call.saturating_add(1);
        if self.failing.contains(&call) {
            self.faults = self.faults.saturating_add(1);
            return Err(Failed);
        }
        match bytes_of(&self.files, name) {
            Some(file) => Ok(copy_part(file, at, into)),
            None => {
                self.faults = self.faults.saturating_add(1);
                Err(Failed)
            }
        }
    }
}

/// The bytes of the file of that name.
fn bytes_of<'a>(files: &'a [MemoryFile], name: &str) -> Option<&'a [u8]>
    ensures { option_copied result ≡ file_named files.now name.now }
{
    for file in files {
        if file.name.as_str() == name {
            return Some(file.bytes.as_slice());
        }
    }
    None
}

/// The place of the first file of that name.
fn place_of(files: &[MemoryFile], name: &str) -> Option<usize>
    ensures { result ≡ position (λ file. bytes_eq file.0 name.now) files.now }
{
    files.iter().position(|file| file.name.as_str() == name)
}

/// Copies the bytes of a file from `at` on, as many as there are and as there is room for.
fn copy_part(file: &[u8], at: u64, into: &mut [u8]) -> usize
    ensures gives { Gives file.now at result into.new }
    ensures most { result ≡ min (length file.now - at) (length into.new) }
{
    let from = at as usize;
    if file.len() <= from {
        return 0;
    }
    let rest = &file[from..];
    let count = rest.len().min(into.len());
    into[..count].copy_from_slice(&rest[..count]);
    count
}
