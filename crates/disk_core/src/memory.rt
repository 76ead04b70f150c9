//! A disk in memory; a table says which of its calls fail, are cut short or stop the program.
ghost use Rattle.std.specs.Prelude.{◌≡◌, ℕ, Some, length, min, ◌-◌, ◌^◌, Result, IfOk, OnOk};
ghost use Rattle.poly_io.specs.Causes.{HasCause};
ghost use Rattle.disk_core.specs.Images.{Only};
ghost use Rattle.disk_core.specs.Memory.{images_of, listed_count, listed_image, now_counts, now_only, reads_an_image, since_of};

use crate::calls::next_call;
use crate::count::counted;
use crate::mem_file::MemFile;
use crate::{Disk, DiskCall};
use poly_io::{Bytes, Failed};
use std::alloc::{AllocError, Global};
use std::marker::Model;

/// A disk in memory. It tells its bytes, and all images that the model of a disk allows are its images; some of them can be
/// asked for as bytes, so that a new disk can be made of them. A growth that is refused is a fault of the disk.
#[derive(Drop)]
pub struct MemDisk<'a> {
    file: MemFile,
    table: &'a [DiskCall],
    faults: u64,
}

impl<'a> Model for MemDisk<'a> {
    ghost use Rattle.disk_core.specs.Memory.{MemState};

    ghost Value = { MemState };

    ghost view = { λ d. record { file = d.file; faults = d.faults } };
}

impl<'a> MemDisk<'a> {
    /// A disk with these bytes. Its k-th call does what the table says at k; past its end each call is done.
    pub fn new(
        alloc: Global,
        bytes: &[u8],
        table: &'a [DiskCall],
    ) -> Result<MemDisk<'a>, AllocError>
        ensures seen { IfOk result (λ d. d.file.bytes ≡ bytes.now) }
        ensures only { IfOk result (λ d. Only bytes.now (images_of d.file)) }
        ensures faults { IfOk result (λ d. d.faults ≡ 0) }
    {
        Ok(MemDisk {
            file: MemFile::new(alloc, bytes)?,
            table,
            faults: 0,
        })
    }

    /// The bytes as they are read.
    pub fn bytes(&self) -> &[u8]
        ensures { result.now ≡ self.now.file.bytes }
    {
        self.file.bytes()
    }

    /// How many images `image` lists, as far as 64 bits can say.
    pub fn image_count(&self) -> u64
        ensures { result ≡ min (listed_count self.now.file) (2 ^ 64 - 1) }
    {
        self.file.image_count()
    }

    /// The bytes of a listed image. Number 0 is what was read before the last write or cut, and number 1 what is read. Then
    /// come, of a write that no sync has followed, what is read with each byte of its range as each value; and where the
    /// write went past the end of the file, what is read at each length below the one that it reached. Past the last
    /// number it is what is read.
    pub fn image(&self, number: u64) -> Result<Bytes, AllocError>
        ensures listed { IfOk result (λ b. b ≡ listed_image self.now.file number) }
        ensures real { IfOk result (images_of self.now.file) }
    {
        Ok(Bytes::from_vec(self.file.image(number)?))
    }

    /// How often a call has failed.
    pub fn faults(&self) -> u64
        ensures { result ≡ self.now.faults }
    {
        self.faults
    }
}

/// Whether a call that changes nothing is done. Where it is not, its fault is counted.
fn begin(table: &mut &[DiskCall], faults: &mut u64) -> Result<(), Failed>
    ensures cause { HasCause faults.old faults.new result }
{
    let done = match next_call(table) {
        DiskCall::Do => Ok(()),
        _ => Err(Failed),
    };
    counted(done, faults)
}

impl<'a> Disk for MemDisk<'a> {
    ghost seen = { λ d. Some d.file.bytes };

    ghost images = { λ d. images_of d.file };

    ghost moment = { λ d. length d.file.steps };

    ghost since = { λ d. since_of d.file };

    ghost faults = { λ d. d.faults };

    ghost reads_an_image = { λ d f is. reads_an_image d.file f is };

    ghost counts_now = { λ d t c le now. now_counts d.file t c le now };

    ghost only_now = { λ d c left. now_only d.file c left };

    fn attach(&mut self, _name: &str) -> Result<(), Failed> {
        begin(&mut self.table, &mut self.faults)
    }

    fn len(&mut self) -> Result<u64, Failed> {
        begin(&mut self.table, &mut self.faults)?;
        Ok(self.file.bytes().len() as u64)
    }

    fn read(&mut self, at: u64, buf: &mut [u8]) -> Result<usize, Failed> {
        begin(&mut self.table, &mut self.faults)?;
        Ok(self.file.read(at, buf))
    }

    fn write_at(&mut self, at: u64, bytes: &[u8]) -> Result<(), Failed> {
        let call = next_call(&mut self.table);
        let done = self.file.write_at(call, at, bytes);
        counted(done, &mut self.faults)
    }

    fn cut(&mut self, len: u64) -> Result<(), Failed> {
        let call = next_call(&mut self.table);
        let done = self.file.cut(call, len);
        counted(done, &mut self.faults)
    }

    fn sync(&mut self) -> Result<(), Failed> {
        let call = next_call(&mut self.table);
        let done = self.file.sync(call);
        counted(done, &mut self.faults)
    }
}
