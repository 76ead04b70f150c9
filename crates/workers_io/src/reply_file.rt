//! The files in which children print: each has no name, and serves one child after the other.
use poly_io::{Bytes, StdinSource, read_whole};
use std::alloc::Global;
use std::fs::{self, File, OpenOptions};
use std::io::{self, Seek};
use std::os::unix::fs::OpenOptionsExt;
use std::path::{Path, PathBuf};
use std::rt::Files;
use std::time::Clock;

/// How many bytes a reply may have: 2^30, so that a child that never stops to print takes no more memory than that. The
/// format of replies has no bound of its own; one of 10,000 bases in 256 columns has some millions of bytes.
pub const MOST_REPLY_BYTES: usize = 1 << 30;

/// A file in which a child prints, and from which that is read: both from its beginning on.
#[derive(Drop)]
pub(crate) struct ReplyFile {
    writer: File,
    reader: File,
}

impl ReplyFile {
    /// Opens a new file in this folder, for its owner alone, and takes its name away: so it is gone once nobody has it open,
    /// whatever becomes of this process. The number tells apart two that are asked for in one instant.
    pub(crate) fn new<R: Files<File = File> + Clock>(
        rt: &R,
        alloc: Global,
        folder: Path,
        number: u64,
    ) -> io::Result<ReplyFile> {
        let path = new_path(rt, alloc, folder, number)?;
        let writer = OpenOptions::new()
            .write(true)
            .create_new(true)
            .mode(0o600)
            .open(rt, path.as_path())?;
        let reader = File::open(rt, path.as_path());
        fs::remove_file(rt, path.as_path())?;
        Ok(ReplyFile {
            writer,
            reader: reader?,
        })
    }

    /// What a child is to print to.
    pub(crate) fn writing_end(&self) -> io::Result<File> {
        self.writer.try_clone()
    }

    /// Whether more was printed than a reply may have, or this cannot be asked.
    pub(crate) fn is_too_long(&self) -> bool {
        match self.reader.metadata() {
            Ok(found) => found.len() > MOST_REPLY_BYTES as u64,
            Err(_) => true,
        }
    }

    /// All that was printed; none where it cannot be read, is longer than a reply may be, or there is no memory for it.
    pub(crate) fn read(&self, alloc: Global) -> Option<Bytes> {
        let mut source = StdinSource::new(&self.reader);
        read_whole(alloc, &mut source, MOST_REPLY_BYTES).ok()
    }

    /// This file with nothing in it, for the next child. The last one must have ended: what it printed from now on would
    /// come into the next one's reply.
    pub(crate) fn emptied(mut self) -> io::Result<ReplyFile> {
        self.writer.set_len(0)?;
        self.writer.rewind()?;
        self.reader.rewind()?;
        Ok(self)
    }
}

// A name in this folder that no file has had. Where one has it all the same, it is not opened.
fn new_path<R: Clock>(rt: &R, alloc: Global, folder: Path, number: u64) -> io::Result<PathBuf> {
    let instant = rt.since_1970()?.as_nanos();
    let name = format!(in alloc; "lrs-reply-{instant}-{number}")?;
    Ok(folder.join(alloc, name.as_str())?)
}
