//! A file in memory that keeps each step that was asked of it, so that a crash may leave all that the model allows.
ghost use Rattle.std.specs.Prelude.{◌≡◌, ◌≤◌, ◌<◌, ◌-◌, ◌^◌, ℕ, List, Some, length, take, drop, min, IfOk, IfSome, OnOk, OnErr};
ghost use Rattle.std.specs.Counts.{IsPrefixLen};
ghost use Rattle.disk_core.specs.Contents.{Cut, Holds, TornWithin, resized};
ghost use Rattle.disk_core.specs.Images.{ComesFrom, NothingNew, Only};
ghost use Rattle.disk_core.specs.Moments.{Elapses};
ghost use Rattle.disk_core.specs.Real.{KeepsReal};
ghost use Rattle.disk_core.specs.Memory.{images_of, listed_count, listed_image, next_history, replayed, since_of, torn_image};

use crate::DiskCall;
use crate::steps::Step;
use poly_io::{Bytes, Failed};
use std::alloc::{AllocError, Global};
use std::marker::Model;
use std::mem;

/// A file in memory, with what was read of it before the last write or cut, and the range of the last write.
#[derive(Drop)]
pub(crate) struct MemFile {
    alloc: Global,
    first: Vec<u8>,
    steps: Vec<Step>,
    bytes: Vec<u8>,
    before: Vec<u8>,
    at: usize,
    len: usize,
}

impl Model for MemFile {
    ghost use Rattle.disk_core.specs.Memory.{History};
    ghost use Rattle.disk_core.specs.Real.{IsReal};

    ghost Value = { History };

    ghost view = { λ f. record { first = f.first.items; steps = f.steps.items; bytes = f.bytes.items; before = f.before.items; at = f.at; len = f.len } };

    ghost invariant = { λ f. IsReal (record { first = f.first.items; steps = f.steps.items; bytes = f.bytes.items; before = f.before.items; at = f.at; len = f.len }) };
}

/// These bytes with others at an offset within them or at their end.
fn overwritten(alloc: Global, bytes: &[u8], at: usize, with: &[u8]) -> Result<Vec<u8>, AllocError>
    requires { at ≤ length bytes.now }
    ensures { IfOk result (λ v. Holds bytes.now at with.now v.items) }
{
    let mut next = bytes[..at].to_vec(alloc)?;
    next.extend_from_slice(with)?;
    if with.len() < bytes.len() - at {
        next.extend_from_slice(&bytes[at + with.len()..])?;
    }
    Ok(next)
}

/// These bytes at another length.
fn resized_to(alloc: Global, bytes: &[u8], len: usize) -> Result<Vec<u8>, AllocError>
    ensures { IfOk result (λ v. v.items ≡ resized len bytes.now) }
{
    let kept = len.min(bytes.len());
    let mut next = bytes[..kept].to_vec(alloc)?;
    next.resize(len, 0)?;
    Ok(next)
}

/// How many of so many bytes a call writes; none where it does nothing.
fn part(call: DiskCall, whole: usize) -> Option<usize>
    ensures most { IfSome result (λ n. n ≤ whole) }
    ensures whole { call ≡ DiskCall.Do → result ≡ Some whole }
{
    match call {
        DiskCall::Do => Some(whole),
        DiskCall::Tear(done) => Some(done.min(whole)),
        DiskCall::Fail | DiskCall::Stop => None,
    }
}

/// What a call answers that has done its part.
fn answer(call: DiskCall) -> Result<(), Failed>
    ensures { OnOk result (call ≡ DiskCall.Do) }
{
    match call {
        DiskCall::Do => Ok(()),
        _ => Err(Failed),
    }
}

impl MemFile {
    pub(crate) fn new(alloc: Global, bytes: &[u8]) -> Result<MemFile, AllocError>
        ensures bytes { IfOk result (λ f. f.bytes ≡ bytes.now) }
        ensures only { IfOk result (λ f. Only bytes.now (images_of f)) }
    {
        let first = bytes.to_vec(alloc)?;
        let before = bytes.to_vec(alloc)?;
        let bytes = bytes.to_vec(alloc)?;
        Ok(MemFile {
            alloc,
            first,
            steps: Vec::new(alloc),
            bytes,
            before,
            at: 0,
            len: 0,
        })
    }

    pub(crate) fn bytes(&self) -> &[u8]
        ensures { result.now ≡ self.now.bytes }
    {
        &self.bytes
    }

    /// Reads bytes from an offset on to the front of `buf`.
    pub(crate) fn read(&self, at: u64, buf: &mut [u8]) -> usize
        ensures bound { IsPrefixLen result buf.new }
        ensures bytes { take result buf.new ≡ take result (drop at self.now.bytes) }
        ensures end { result ≡ 0 → 0 < length buf.new → length self.now.bytes ≤ at }
    {
        if at >= self.bytes.len() as u64 {
            return 0;
        }
        let rest = &self.bytes[at as usize..];
        let count = rest.len().min(buf.len());
        buf[..count].copy_from_slice(&rest[..count]);
        count
    }

    /// Notes a step, which leaves these bytes to be read, and the range that it wrote.
    fn step(&mut self, step: Step, next: Vec<u8>, at: usize, len: usize) -> Result<(), AllocError>
        requires { KeepsReal self.old step next.items at len }
        ensures ok { OnOk result (self.new ≡ next_history self.old step next.items at len) }
        ensures err { OnErr result (self.new ≡ self.old) }
    {
        self.steps.push(step)?;
        self.before = mem::replace(&mut self.bytes, next);
        self.at = at;
        self.len = len;
        Ok(())
    }

    /// Writes the first `done` of these bytes. The range of the write is that of all of them.
    fn write(&mut self, at: usize, bytes: &[u8], done: usize) -> Result<(), AllocError>
        requires within { at ≤ length self.old.bytes }
        requires most { done ≤ length bytes.now }
        ensures ok { OnOk result ((next : List ℕ) × Holds self.old.bytes at (take done bytes.now) next
            × (self.new ≡ next_history self.old (Step.Written at (length bytes.now)) next at (length bytes.now))) }
        ensures err { OnErr result (self.new ≡ self.old) }
        ensures real { replayed self.old self.old.bytes }
    {
        let next = overwritten(self.alloc, &self.bytes, at, &bytes[..done])?;
        self.step(Step::Written(at, bytes.len()), next, at, bytes.len())
    }

    /// A call that writes.
    pub(crate) fn write_at(&mut self, call: DiskCall, at: u64, bytes: &[u8]) -> Result<(), Failed>
        ensures written { OnOk result (Holds self.old.bytes at bytes.now self.new.bytes) }
        ensures crash { ComesFrom (TornWithin at (length bytes.now)) (images_of self.old) (images_of self.new) }
        ensures time { Elapses (length self.old.steps) (length self.new.steps) (since_of self.old) (since_of self.new) (images_of self.new) }
    {
        if at > self.bytes.len() as u64 {
            return Err(Failed);
        }
        let Some(done) = part(call, bytes.len()) else {
            return Err(Failed);
        };
        match self.write(at as usize, bytes, done) {
            Ok(()) => answer(call),
            Err(AllocError) => Err(Failed),
        }
    }

    /// Cuts the file to a length.
    fn resize(&mut self, len: u64) -> Result<(), AllocError>
        ensures ok { OnOk result (self.new ≡ next_history self.old (Step.Resized len) (resized len self.old.bytes) 0 0) }
        ensures err { OnErr result (self.new ≡ self.old) }
        ensures real { replayed self.old self.old.bytes }
    {
        let next = resized_to(self.alloc, &self.bytes, len as usize)?;
        self.step(Step::Resized(len), next, 0, 0)
    }

    /// A call that cuts.
    pub(crate) fn cut(&mut self, call: DiskCall, len: u64) -> Result<(), Failed>
        ensures cut { OnOk result (self.new.bytes ≡ resized len self.old.bytes) }
        ensures crash { ComesFrom (Cut len) (images_of self.old) (images_of self.new) }
        ensures time { Elapses (length self.old.steps) (length self.new.steps) (since_of self.old) (since_of self.new) (images_of self.new) }
    {
        if part(call, 0).is_none() {
            return Err(Failed);
        }
        match self.resize(len) {
            Ok(()) => answer(call),
            Err(AllocError) => Err(Failed),
        }
    }

    /// Makes what is read the one image.
    fn settle(&mut self) -> Result<(), AllocError>
        ensures ok { OnOk result (self.new ≡ next_history self.old (Step.Synced self.old.bytes) self.old.bytes 0 0) }
        ensures err { OnErr result (self.new ≡ self.old) }
        ensures real { replayed self.old self.old.bytes }
    {
        let synced = Bytes::from_vec(self.bytes.to_vec(self.alloc)?);
        let next = self.bytes.to_vec(self.alloc)?;
        self.step(Step::Synced(synced), next, 0, 0)
    }

    /// A call that syncs.
    pub(crate) fn sync(&mut self, call: DiskCall) -> Result<(), Failed>
        ensures same { self.new.bytes ≡ self.old.bytes }
        ensures durable { OnOk result (Only self.old.bytes (images_of self.new)) }
        ensures crash { NothingNew (images_of self.old) (images_of self.new) }
        ensures time { Elapses (length self.old.steps) (length self.new.steps) (since_of self.old) (since_of self.new) (images_of self.new) }
    {
        match call {
            DiskCall::Do => match self.settle() {
                Ok(()) => Ok(()),
                Err(AllocError) => Err(Failed),
            },
            _ => Err(Failed),
        }
    }

    /// How many images are listed, as far as 64 bits can say.
    pub(crate) fn image_count(&self) -> u64
        ensures { result ≡ min (listed_count self.now) (2 ^ 64 - 1) }
    {
        let reach = (self.at + self.len).saturating_sub(self.before.len());
        (self.len as u64)
            .saturating_mul(256)
            .saturating_add(reach as u64)
            .saturating_add(2)
    }

    /// What a crash may leave of the last write.
    fn torn_image(&self, k: u64) -> Result<Vec<u8>, AllocError>
        ensures { IfOk result (λ v. v.items ≡ torn_image self.now k) }
    {
        let mut image = self.bytes.to_vec(self.alloc)?;
        let place = k / 256;
        let len = self.len as u64;
        if place < len {
            let at = self.at + place as usize;
            if at < image.len() {
                image[at] = (k % 256) as u8;
            }
            return Ok(image);
        }
        let short = k - 256 * len;
        let reach = (self.at + self.len).saturating_sub(self.before.len());
        if short < reach as u64 {
            image.truncate(self.before.len() + short as usize);
        }
        Ok(image)
    }

    /// The listed image of this number.
    pub(crate) fn image(&self, number: u64) -> Result<Vec<u8>, AllocError>
        ensures listed { IfOk result (λ v. v.items ≡ listed_image self.now number) }
        ensures real { IfOk result (λ v. images_of self.now v.items) }
    {
        if number == 0 {
            return self.before.to_vec(self.alloc);
        }
        if number == 1 {
            return self.bytes.to_vec(self.alloc);
        }
        self.torn_image(number - 2)
    }
}
