//! The trusted edge: a file of the operating system. It tells no content.
ghost use Rattle.std.specs.Prelude.{◌≡◌, None};
ghost use Rattle.std.specs.Io.{ReadsAtMost};
ghost use Rattle.disk_core.specs.Untold.{untold};

use crate::Disk;
use crate::count::counted;
use poly_io::Failed;
use std::fs::{self, File, OpenOptions};
use std::io::{self, ErrorKind};
use std::os::unix::fs::FileExt;
use std::path::Path;
use std::rt::Files;

/// A file of the operating system. Each error of a call on it is a fault.
#[derive(Drop)]
pub struct FileDisk<'r, R: Files<File = File>> {
    rt: &'r R,
    access: Access,
    opened: Opened,
    faults: u64,
}

/// What a `FileDisk` may do.
#[derive(Clone, Copy, Debug, PartialEq, Eq)]
enum Access {
    Write,
    Read,
}

/// What a `FileDisk` has open.
#[derive(Drop)]
enum Opened {
    Nothing,
    /// A file that is not there, for a disk that only reads.
    Absent,
    Found(File),
}

impl<'r, R: Files<File = File>> FileDisk<'r, R> {
    /// A disk for a command that writes. `attach` makes the file where there is none, takes its advisory lock, so that
    /// another writer is refused as long as this one has it, and syncs the folder, so that a new file's name is kept.
    pub fn writer(rt: &'r R) -> FileDisk<'r, R>
        ensures { result.faults ≡ 0 }
    {
        FileDisk {
            rt,
            access: Access::Write,
            opened: Opened::Nothing,
            faults: 0,
        }
    }

    /// A disk for a command that only reads. It takes no lock and makes no file: one that is not there reads as an empty
    /// one. `write_at` and `cut` are faults.
    pub fn reader(rt: &'r R) -> FileDisk<'r, R>
        ensures { result.faults ≡ 0 }
    {
        FileDisk {
            rt,
            access: Access::Read,
            opened: Opened::Nothing,
            faults: 0,
        }
    }

    /// How often a call has failed.
    pub fn faults(&self) -> u64
        ensures { result ≡ self.now.faults }
    {
        self.faults
    }
}

/// Whether a file has this name; an error where something else has it.
fn is_there<R: Files<File = File>>(rt: &R, name: &str) -> io::Result<bool> {
    match fs::metadata(rt, name) {
        Ok(found) if found.is_file() => Ok(true),
        Ok(_) => Err(io::Error::from(ErrorKind::InvalidInput)),
        Err(e) if e.kind() == ErrorKind::NotFound => Ok(false),
        Err(e) => Err(e),
    }
}

/// Puts the names in the folder of this file onto the disk.
fn sync_folder<R: Files<File = File>>(rt: &R, name: &str) -> io::Result<()> {
    let folder = match Path::new(name).parent() {
        Some(folder) if !folder.as_os_str().is_empty() => File::open(rt, folder)?,
        _ => File::open(rt, ".")?,
    };
    folder.sync_all()
}

fn open_to_write<R: Files<File = File>>(rt: &R, name: &str) -> io::Result<Opened> {
    is_there(rt, name)?;
    let file = OpenOptions::new()
        .read(true)
        .write(true)
        .create(true)
        .open(rt, name)?;
    file.try_lock()?;
    sync_folder(rt, name)?;
    Ok(Opened::Found(file))
}

fn open_to_read<R: Files<File = File>>(rt: &R, name: &str) -> io::Result<Opened> {
    match is_there(rt, name)? {
        true => Ok(Opened::Found(File::open(rt, name)?)),
        false => Ok(Opened::Absent),
    }
}

impl Opened {
    /// The file that is there.
    fn found(&self) -> io::Result<&File> {
        match self {
            Opened::Found(file) => Ok(file),
            _ => Err(io::Error::from(ErrorKind::NotFound)),
        }
    }

    fn len(&self) -> io::Result<u64> {
        match self {
            Opened::Absent => Ok(0),
            _ => Ok(self.found()?.metadata()?.len()),
        }
    }

    fn read(&self, at: u64, buf: &mut [u8]) -> io::Result<usize>
        ensures { ReadsAtMost result buf.new }
    {
        match self {
            Opened::Absent => Ok(0),
            _ => self.found()?.read_at(buf, at),
        }
    }

    fn write_at(&self, access: Access, at: u64, bytes: &[u8]) -> io::Result<()> {
        self.written_by(access)?.write_all_at(bytes, at)
    }

    fn cut(&self, access: Access, len: u64) -> io::Result<()> {
        self.written_by(access)?.set_len(len)
    }

    /// The file, where it may be written.
    fn written_by(&self, access: Access) -> io::Result<&File> {
        match access {
            Access::Write => self.found(),
            Access::Read => Err(io::Error::from(ErrorKind::PermissionDenied)),
        }
    }

    fn sync(&self) -> io::Result<()> {
        match self {
            Opened::Absent => Ok(()),
            _ => self.found()?.sync_all(),
        }
    }
}

impl<'r, R: Files<File = File>> Disk for FileDisk<'r, R> {
    ghost seen = { λ _. None };

    ghost images = { λ _ _. ⊥ };

    ghost moment = { λ _. 0 };

    ghost since = { λ _ _ _. ⊥ };

    ghost faults = { λ d. d.faults };

    ghost reads_an_image = { λ disk f told. untold f told };

    ghost counts_now = { λ disk t c le now. now };

    ghost only_now = { λ disk c left. left };

    fn attach(&mut self, name: &str) -> Result<(), Failed> {
        // A file that is open already is closed first, since it holds the lock.
        self.opened = Opened::Nothing;
        let opened = match self.access {
            Access::Write => open_to_write(self.rt, name),
            Access::Read => open_to_read(self.rt, name),
        };
        self.opened = counted(opened, &mut self.faults)?;
        Ok(())
    }

    fn len(&mut self) -> Result<u64, Failed> {
        let len = self.opened.len();
        counted(len, &mut self.faults)
    }

    fn read(&mut self, at: u64, buf: &mut [u8]) -> Result<usize, Failed> {
        let read = self.opened.read(at, buf);
        counted(read, &mut self.faults)
    }

    fn write_at(&mut self, at: u64, bytes: &[u8]) -> Result<(), Failed> {
        let done = self.opened.write_at(self.access, at, bytes);
        counted(done, &mut self.faults)
    }

    fn cut(&mut self, len: u64) -> Result<(), Failed> {
        let done = self.opened.cut(self.access, len);
        counted(done, &mut self.faults)
    }

    fn sync(&mut self) -> Result<(), Failed> {
        let done = self.opened.sync();
        counted(done, &mut self.faults)
    }
}
