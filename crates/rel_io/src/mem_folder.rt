//! A folder in memory, for tests of what stands above: it fails where it is told to.
ghost use Rattle.std.specs.Prelude.{◌≡◌, ◌↔◌, ◌++◌, ◌<◌, ◌≤◌, IsTrue, IsErrOf, MatchOption, OnOk, OnErr, drop, false, length, min, nat_eq, take};
ghost use Rattle.std.specs.FinMap.{get, insert};
ghost use Rattle.std.specs.List.{list_any};
ghost use Rattle.std.specs.Option.{option_copied};
ghost use Rattle.rel_io.specs.FileList.{files_of};
ghost use Rattle.rel_io.specs.inner.Finding.{IsAbsent, IsFoundAt, bytes_at, place_of};
ghost use Rattle.rel_io.specs.Folder.{Opens, Puts, Reads};
ghost use Rattle.rel_io.specs.FolderState.{NoCountFell};
ghost use Rattle.rel_io.specs.MemFolder.{after_failed_put, after_open, after_put, after_put_without_memory, after_read, fails, folder_of, open_answer, read_answer, read_bytes};

use crate::{Bytes, Folder, Got, NoMemory, Opened, PutFault};
use std::alloc::Global;
use std::marker::Model;

/// A folder whose files are held in memory, and whose calls fail where it was told that they fail.
#[derive(Drop)]
pub struct MemFolder {
    alloc: Global,
    files: Vec<(Bytes, Bytes)>,
    piece: usize,
    failing: Vec<u64>,
    calls: u64,
    read_faults: u64,
    write_faults: u64,
    misses: u64,
    opened: Option<(usize, usize)>,
}

impl Model for MemFolder {
    ghost use Rattle.std.specs.Prelude.{◌≤◌};
    ghost use Rattle.std.specs.Option.{ForSome};
    ghost use Rattle.rel_io.specs.Codes.{mem_folder_code};
    ghost use Rattle.rel_io.specs.FileList.{files_of};
    ghost use Rattle.rel_io.specs.inner.Finding.{IsOpenAt, position_at};
    ghost use Rattle.rel_io.specs.MemFolder.{MemFolderState};

    ghost Value = { MemFolderState };

    ghost coded = { mem_folder_code };

    ghost view = { λ m. record {
      files = files_of m.files.items;
      piece = m.piece;
      failing = m.failing.items;
      calls = m.calls;
      read_faults = m.read_faults;
      write_faults = m.write_faults;
      misses = m.misses;
      opened = position_at m.files.items m.opened;
    } };

    ghost invariant = { λ m. (1 ≤ m.piece) × ForSome m.opened (IsOpenAt m.files.items) };
}

impl MemFolder {
    /// A folder that holds these files, each a name and its bytes; of two files with one name the first
    /// counts. A read gives `piece` bytes at most. The calls of `open_file`, `read` and `put` are numbered
    /// together from 0, and exactly those whose numbers stand in `failing` fail. `put` takes its memory
    /// from `alloc`.
    pub fn new(
        alloc: Global,
        files: Vec<(Bytes, Bytes)>,
        piece: usize,
        failing: Vec<u64>,
    ) -> MemFolder
        requires { 1 ≤ piece }
        ensures { result ≡ record {
          files = files_of files.items;
          piece = piece;
          failing = failing.items;
          calls = 0;
          read_faults = 0;
          write_faults = 0;
          misses = 0;
          opened = None;
        } }
    {
        MemFolder {
            alloc,
            files,
            piece,
            failing,
            calls: 0,
            read_faults: 0,
            write_faults: 0,
            misses: 0,
            opened: None,
        }
    }

    /// The bytes of the file of this name, and None exactly where no such file is held.
    pub fn held(&self, name: &[u8]) -> Option<&[u8]>
        ensures { option_copied result ≡ get self.now.files name.now }
    {
        let at = find_file(&self.files, name)?;
        Some(content(&self.files, at))
    }
}

impl Folder for MemFolder {
    ghost state = { folder_of };

    fn open_file(&mut self, name: &[u8]) -> Opened
        ensures opens { Opens name.now (folder_of self.old) result (folder_of self.new) }
        ensures holds { (folder_of self.new).holds ≡ (folder_of self.old).holds }
        ensures counts { NoCountFell (folder_of self.old) (folder_of self.new) }
        ensures answer { result ≡ open_answer self.old name.now }
        ensures after { self.new ≡ after_open self.old name.now result }
    {
        let failing = is_listed(&self.failing, self.calls);
        self.calls = self.calls.saturating_add(1);
        self.opened = None;
        if failing {
            self.read_faults = self.read_faults.saturating_add(1);
            return Opened::Failed;
        }
        match find_file(&self.files, name) {
            Some(at) => {
                self.opened = Some((at, 0));
                Opened::Ready
            }
            None => {
                self.misses = self.misses.saturating_add(1);
                Opened::Missing
            }
        }
    }

    fn read(&mut self, into: &mut [u8]) -> Got
        requires open { IsTrue (folder_of self.old).is_open }
        requires room { 0 < length into.old }
        ensures reads { Reads (folder_of self.old) result into.new (folder_of self.new) }
        ensures holds { (folder_of self.new).holds ≡ (folder_of self.old).holds }
        ensures counts { NoCountFell (folder_of self.old) (folder_of self.new) }
        ensures answer { result ≡ read_answer self.old (folder_of self.old).opened (length into.old) }
        ensures after { self.new ≡ after_read self.old (folder_of self.old).opened result }
        ensures bytes { into.new ≡ read_bytes self.old (folder_of self.old).opened result into.old }
    {
        let failing = is_listed(&self.failing, self.calls);
        self.calls = self.calls.saturating_add(1);
        let (at, place) = self.opened.unwrap();
        if failing {
            self.read_faults = self.read_faults.saturating_add(1);
            self.opened = None;
            return Got::Failed;
        }
        let file = content(&self.files, at);
        let count = copy_front(&file[place..], self.piece, into);
        if count == 0 {
            return Got::AtEnd;
        }
        self.opened = Some((at, place + count));
        Got::Bytes(count)
    }

    fn put(&mut self, name: &[u8], bytes: &[u8]) -> Result<(), PutFault>
        ensures puts { Puts name.now bytes.now (folder_of self.old) result (folder_of self.new) }
        ensures closed { (folder_of self.new).is_open ≡ false }
        ensures counts { NoCountFell (folder_of self.old) (folder_of self.new) }
        ensures fails { IsErrOf result PutFault.Failed ↔ IsTrue (fails self.old) }
        ensures done { OnOk result (self.new ≡ after_put self.old name.now bytes.now) }
        ensures failed { IsErrOf result PutFault.Failed → self.new ≡ after_failed_put self.old }
        ensures denied { IsErrOf result PutFault.NoMemory → self.new ≡ after_put_without_memory self.old }
    {
        let failing = is_listed(&self.failing, self.calls);
        self.calls = self.calls.saturating_add(1);
        self.opened = None;
        if failing {
            self.write_faults = self.write_faults.saturating_add(1);
            return Err(PutFault::Failed);
        }
        put_file(self.alloc, &mut self.files, name, bytes)?;
        Ok(())
    }
}

/// Whether a call is one of those that fail.
fn is_listed(failing: &[u64], call: u64) -> bool
    ensures { result ≡ list_any (λ number. nat_eq number call) failing.now }
{
    failing.contains(&call)
}

/// Where the first file of this name stands, as the map of the files knows it.
fn find_file(files: &[(Bytes, Bytes)], name: &[u8]) -> Option<usize>
    ensures { MatchOption result (IsAbsent files.now name.now) (IsFoundAt files.now name.now) }
{
    place_of(files, name)
}

/// Where the first file of this name stands.
fn place_of(files: &[(Bytes, Bytes)], name: &[u8]) -> Option<usize>
    ensures { result ≡ place_of name.now files.now }
{
    files.iter().position(|file| name == file.0.as_slice())
}

/// The bytes of the file at a place.
fn content(files: &[(Bytes, Bytes)], at: usize) -> &[u8]
    requires { at < length files.now }
    ensures { result.now ≡ bytes_at files.now at }
{
    files[at].1.as_slice()
}

/// Copies the front of `rest` to the front of `into`, at most `piece` bytes, and says how many.
fn copy_front(rest: &[u8], piece: usize, into: &mut [u8]) -> usize
    ensures count { result ≡ min piece (min (length into.old) (length rest.now)) }
    ensures bytes { into.new ≡ take result rest.now ++ drop result into.old }
{
    let count = piece.min(into.len().min(rest.len()));
    into[..count].copy_from_slice(&rest[..count]);
    count
}

/// Puts a file in the place of the first one of its name, or behind all others.
fn put_file(
    alloc: Global,
    files: &mut Vec<(Bytes, Bytes)>,
    name: &[u8],
    bytes: &[u8],
) -> Result<(), NoMemory>
    ensures ok { OnOk result (files_of files.new.items ≡ insert (files_of files.old.items) name.now bytes.now) }
    ensures err { OnErr result (files.new.items ≡ files.old.items) }
{
    let file = (
        Bytes::from_slice(alloc, name)?,
        Bytes::from_slice(alloc, bytes)?,
    );
    match find_file(files, name) {
        Some(at) => files[at] = file,
        None => files.push(file)?,
    }
    Ok(())
}
