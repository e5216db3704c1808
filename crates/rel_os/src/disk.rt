//! The folder in which the program was called: files by their paths.
ghost use Rattle.std.specs.Prelude.{◌≡◌, None, [], false};
ghost use Rattle.std.specs.Io.{ReadsAtMost};

use rel_io::{Folder, Got, Opened, PutFault};
use std::io::{self, ErrorKind, Read};
use std::marker::Model;
use std::rt::Files;
use std::{fs, str};

/// How often a read that signals interrupt is tried before it is a fault.
const TRIES: u32 = 65_536;

/// The real folder. A name is a path, taken from the folder in which the program was called; a name that is not UTF-8, or
/// that has a NUL byte, is that of no file. It does not tell what it holds.
#[derive(Drop)]
pub struct DiskFolder<'a, R: Files> {
    rt: &'a R,
    file: Option<R::File>,
    read_faults: u64,
    write_faults: u64,
    misses: u64,
}

impl<'a, R: Files> Model for DiskFolder<'a, R> {
    ghost use Rattle.std.specs.Prelude.{None, [], is_some};
    ghost use Rattle.rel_io.specs.Codes.{folder_code};
    ghost use Rattle.rel_io.specs.FolderState.{FolderState};

    ghost Value = { FolderState };

    ghost coded = { folder_code };

    ghost view = { λ disk. record {
      holds = None;
      read_faults = disk.read_faults;
      write_faults = disk.write_faults;
      misses = disk.misses;
      is_open = is_some disk.file;
      opened = record { name = []; place = 0 };
    } };
}

impl<'a, R: Files> DiskFolder<'a, R> {
    /// The folder, with no file open and nothing counted.
    pub fn new(rt: &'a R) -> DiskFolder<'a, R>
        ensures { result ≡ record {
          holds = None;
          read_faults = 0;
          write_faults = 0;
          misses = 0;
          is_open = false;
          opened = record { name = []; place = 0 };
        } }
    {
        DiskFolder {
            rt,
            file: None,
            read_faults: 0,
            write_faults: 0,
            misses: 0,
        }
    }
}

impl<R: Files> Folder for DiskFolder<'_, R> {
    ghost state = { λ disk. disk };

    fn open_file(&mut self, name: &[u8]) -> Opened {
        self.file = None;
        match open_path(self.rt, name) {
            Ok(file) => {
                self.file = Some(file);
                Opened::Ready
            }
            Err(ErrorKind::NotFound) => {
                self.misses = self.misses.saturating_add(1);
                Opened::Missing
            }
            Err(_) => {
                self.read_faults = self.read_faults.saturating_add(1);
                Opened::Failed
            }
        }
    }

    fn read(&mut self, into: &mut [u8]) -> Got {
        let file = self.file.as_mut().unwrap();
        match read_some(file, into) {
            Ok(0) => Got::AtEnd,
            Ok(count) => Got::Bytes(count),
            Err(_) => {
                self.file = None;
                self.read_faults = self.read_faults.saturating_add(1);
                Got::Failed
            }
        }
    }

    fn put(&mut self, name: &[u8], bytes: &[u8]) -> Result<(), PutFault> {
        self.file = None;
        if write_file(self.rt, name, bytes) {
            return Ok(());
        }
        self.write_faults = self.write_faults.saturating_add(1);
        Err(PutFault::Failed)
    }
}

/// Opens a file for reading. No file has a name that is not UTF-8, or that has a NUL byte.
fn open_path<R: Files>(rt: &R, name: &[u8]) -> Result<R::File, ErrorKind> {
    if name.contains(&0) {
        return Err(ErrorKind::NotFound);
    }
    let path = str::from_utf8(name).map_err(|_| ErrorKind::NotFound)?;
    fs::open(rt, path).map_err(|error| error.kind())
}

/// Reads once, and again where a signal interrupted the read, up to a number of tries.
fn read_some<R: Read>(file: &mut R, into: &mut [u8]) -> io::Result<usize>
    ensures { ReadsAtMost result into.new }
{
    for _ in 0..TRIES {
        match file.read(into) {
            Ok(count) => return Ok(count),
            Err(error) => {
                if error.kind() != ErrorKind::Interrupted {
                    return Err(error);
                }
            }
        }
    }
    Err(io::Error::from(ErrorKind::Interrupted))
}

/// Writes a file whole, and says whether that went well.
fn write_file(rt: &impl Files, name: &[u8], bytes: &[u8]) -> bool {
    match str::from_utf8(name) {
        Ok(path) => fs::write(rt, path, bytes).is_ok(),
        Err(_) => false,
    }
}
