//! The trusted edge: a device over a file of the system. Nothing is told of its content.
ghost use Rattle.std.specs.Prelude.{◌≡◌, ◌≤◌, ◌+◌, None, OnErr};
ghost use Rattle.ilk_base.specs.Outside.{Rose};
ghost use Rattle.node_store.specs.Edge.{NothingTold, NothingToldBetween, nothing_splits};

use crate::device::Device;
use crate::sizes::DEVICE_BYTES;
use ilk_base::{Failed, Memory};
use std::alloc::Global;
use std::fs;
use std::fs::{File, OpenFile, OpenOptions};
use std::io::{Error, ErrorKind, Read, Result as IoResult, Seek, SeekFrom, Write};
use std::rt::Files;

/// A file that a process can have for itself.
pub trait OwnFile {
    /// Takes the file for this handle until it is closed; false where another handle has it, or where
    /// that is not known. At once.
    fn claim(&self) -> bool;
}

impl OwnFile for File {
    fn claim(&self) -> bool {
        self.try_lock().is_ok()
    }
}

/// A file of `DEVICE_BYTES` bytes. It is opened at the first call, and locked while it is open; it is
/// made of zeros where it is missing. A failure to do this is a fault of that call, and so it is where
/// another process has the file open, or where it is of any other length: such a file is left as it is.
///
/// A missing file is made whole under its name with `.new` behind it, and then renamed, so that a stop
/// in between leaves no short file. Its folder is synced at the opening, so that its name is there after
/// a crash.
#[derive(Drop)]
pub struct FileDevice<'a, R: Files>
where
    R::File: OwnFile,
{
    rt: R,
    name: &'a str,
    beside: String,
    file: Option<R::File>,
    read_faults: u64,
    write_faults: u64,
    calls: u64,
}

fn open_file<R: Files>(rt: &R, name: &str) -> IoResult<R::File> {
    OpenOptions::new().read(true).write(true).open(rt, name)
}

// Takes the file for this process.
fn claim_file<F: OwnFile + Drop>(file: F) -> IoResult<F> {
    if file.claim() {
        return Ok(file);
    }
    Err(Error::from(ErrorKind::WouldBlock))
}

// Makes the file whole beside its place, and puts it there, unless another process has done so meanwhile: the
// file beside is locked until it is in its place.
fn make_file<R: Files>(rt: &R, name: &str, beside: &str) -> IoResult<R::File>
where
    R::File: OwnFile,
{
    let file = OpenOptions::new()
        .read(true)
        .write(true)
        .create(true)
        .open(rt, beside)?;
    let mut file = claim_file(file)?;
    if fs::exists(rt, name)? {
        return Err(Error::from(ErrorKind::AlreadyExists));
    }
    file.write_all(&[0; DEVICE_BYTES])?;
    file.set_len(DEVICE_BYTES as u64)?;
    file.sync_all()?;
    fs::rename(rt, beside, name)?;
    Ok(file)
}

// The file that is there, if it is a device.
fn take_file<R: Files>(rt: &R, name: &str) -> IoResult<R::File>
where
    R::File: OwnFile,
{
    let file = claim_file(open_file(rt, name)?)?;
    if file.metadata()?.len() == DEVICE_BYTES as u64 {
        return Ok(file);
    }
    Err(Error::from(ErrorKind::InvalidData))
}

// The folder in which a file lies.
fn folder_of(name: &str) -> &str {
    match name.rsplit_once('/') {
        None => ".",
        Some(("", _)) => "/",
        Some((folder, _)) => folder,
    }
}

// The file, made where it is missing, with its name on the disk.
fn open_or_make<R: Files>(rt: &R, name: &str, beside: &str) -> IoResult<R::File>
where
    R::File: OwnFile,
{
    let file = match take_file(rt, name) {
        Err(e) if e.kind() == ErrorKind::NotFound => make_file(rt, name, beside)?,
        taken => taken?,
    };
    fs::open(rt, folder_of(name))?.sync_all()?;
    Ok(file)
}

fn read_at<F: Read + Seek>(file: &mut F, at: u8, into: &mut [u8]) -> IoResult<()> {
    file.seek(SeekFrom::Start(u64::from(at)))?;
    file.read_exact(into)
}

fn write_at<F: Write + Seek>(file: &mut F, at: u8, piece: &[u8]) -> IoResult<()> {
    file.seek(SeekFrom::Start(u64::from(at)))?;
    file.write_all(piece)?;
    file.flush()
}

impl<'a, R: Files> FileDevice<'a, R>
where
    R::File: OwnFile,
{
    /// The file of that name. Nothing is opened yet; memory is taken for the name under which a missing
    /// file is made.
    pub fn new(alloc: Global, rt: R, name: &'a str) -> Result<FileDevice<'a, R>, Memory>
    where
        R: Drop,
    {
        let beside = format!(in alloc; "{name}.new")?;
        Ok(FileDevice {
            rt,
            name,
            beside,
            file: None,
            read_faults: 0,
            write_faults: 0,
            calls: 0,
        })
    }

    // The open file, unless it cannot be opened or made.
    fn opened(&mut self) -> Option<R::File>
        ensures read_faults { self.new.read_faults ≡ self.old.read_faults }
        ensures write_faults { self.new.write_faults ≡ self.old.write_faults }
        ensures calls { self.new.calls ≡ self.old.calls }
    {
        match self.file.take() {
            Some(file) => Some(file),
            None => open_or_make(&self.rt, self.name, &self.beside).ok(),
        }
    }
}

impl<'a, R: Files> Device for FileDevice<'a, R>
where
    R::File: OwnFile,
{
    ghost content = { λ _. None };

    ghost moment = { λ _. 0 };

    ghost left_since = { NothingTold };

    ghost left_between = { NothingToldBetween };

    ghost read_faults = { λ d. d.read_faults };

    ghost write_faults = { λ d. d.write_faults };

    ghost calls = { λ d. d.calls };

    ghost time = { nothing_splits };

    fn read(&mut self, at: u8, into: &mut [u8]) -> Result<(), Failed> {
        self.calls = self.calls.saturating_add(1);
        if let Some(mut file) = self.opened()
            && read_at(&mut file, at, into).is_ok()
        {
            self.file = Some(file);
            return Ok(());
        }
        self.read_faults = self.read_faults.saturating_add(1);
        Err(Failed)
    }

    fn write(&mut self, at: u8, piece: &[u8]) -> Result<(), Failed> {
        self.calls = self.calls.saturating_add(1);
        if let Some(mut file) = self.opened()
            && write_at(&mut file, at, piece).is_ok()
        {
            self.file = Some(file);
            return Ok(());
        }
        self.write_faults = self.write_faults.saturating_add(1);
        Err(Failed)
    }

    fn sync(&mut self) -> Result<(), Failed> {
        self.calls = self.calls.saturating_add(1);
        if let Some(file) = self.opened()
            && file.sync_all().is_ok()
        {
            self.file = Some(file);
            return Ok(());
        }
        self.write_faults = self.write_faults.saturating_add(1);
        Err(Failed)
    }
}
