ghost use Rattle.std.specs.Prelude.{◌≡◌, ◌<◌, ◌≤◌, length, IfOk};
ghost use Rattle.std.specs.Io.{ReadsAtMost};
ghost use Rattle.wp_store.specs.DiskFile.{untold_alone};
ghost use Rattle.wp_store.specs.Untold.{untold, untold_is_disk};

use crate::disk::{DiskFailed, DiskFault};
use crate::disk_file::DiskFile;
use crate::file_counts::FileCounts;
use std::fs::{File, OpenOptions};
use std::io::{Read, Seek, SeekFrom, Write};
use std::marker::Model;
use std::rt::Files as FileSystem;
use std::{fs, io};

/// The file that a store keeps its records in, in the working directory.
pub const STORE_FILE: &str = "waveplan.store";

/// The file `waveplan.store` of the working directory, which is made empty where there is none. It is opened at the
/// first call, and is then this run's alone: where another run has it, each call fails. It tells nothing but how
/// often a call failed and how often it was called, and contracts see these counts.
#[derive(Drop)]
pub struct SystemFile<'a, R: FileSystem<File = File>> {
    file: LateFile<'a, R>,
    counts: FileCounts,
}

impl<'a, R: FileSystem<File = File>> Model for SystemFile<'a, R> {
    ghost use Rattle.wp_store.specs.Untold.{Counts};

    ghost Value = { Counts };

    ghost view = { λ s. s.counts };
}

impl<'a, R: FileSystem<File = File>> SystemFile<'a, R> {
    /// The store's file of this runtime, which wasn't called yet.
    pub fn of(rt: &'a R) -> SystemFile<'a, R>
        ensures { result ≡ record { faults = 0; calls = 0 } }
    {
        SystemFile {
            file: LateFile { rt, file: None },
            counts: FileCounts::zero(),
        }
    }
}

impl<'a, R: FileSystem<File = File>> DiskFile for SystemFile<'a, R> {
    ghost told = { untold };

    ghost position = { λ _. 0 };

    ghost is_disk = { untold_is_disk };

    ghost counts_alone = { λ counts _. untold_alone counts };

    fn seek(&mut self, place: u64) -> Result<(), DiskFailed> {
        self.counts.told(self.file.seek(place))
    }

    fn read(&mut self, piece: &mut [u8]) -> Result<usize, DiskFault> {
        self.counts.told_by_read(self.file.read(piece))
    }

    fn write(&mut self, piece: &[u8]) -> Result<usize, DiskFailed> {
        self.counts.told(self.file.write(piece))
    }

    fn cut(&mut self, size: u64) -> Result<(), DiskFailed> {
        self.counts.told(self.file.cut(size))
    }

    fn sync(&mut self) -> Result<(), DiskFailed> {
        self.counts.told(self.file.sync())
    }
}

// The calls of the system on the store's file, which is opened before the first of them. A call that a signal
// interrupts is made again.
#[derive(Drop)]
struct LateFile<'a, R: FileSystem<File = File>> {
    rt: &'a R,
    file: Option<File>,
}

impl<'a, R: FileSystem<File = File>> LateFile<'a, R> {
    fn opened(&mut self) -> io::Result<&mut File> {
        if self.file.is_none() {
            self.file = Some(open_alone(self.rt)?);
        }
        match &mut self.file {
            Some(file) => Ok(file),
            None => Err(io::Error::from(io::ErrorKind::NotFound)),
        }
    }

    fn seek(&mut self, place: u64) -> io::Result<()> {
        sought(self.opened()?, SeekFrom::Start(place))?;
        Ok(())
    }

    fn read(&mut self, piece: &mut [u8]) -> io::Result<usize>
        ensures { ReadsAtMost result piece.new }
    {
        let file = self.opened()?;
        for _ in 0..u64::MAX {
            match file.read(piece) {
                Err(error) if error.kind() == io::ErrorKind::Interrupted => {}
                answer => return answer,
            }
        }
        Err(io::Error::from(io::ErrorKind::TimedOut))
    }

    // A write that takes nothing of a piece that isn't empty has failed.
    fn write(&mut self, piece: &[u8]) -> io::Result<usize>
        ensures within { IfOk result (λ n. n ≤ length piece.now) }
        ensures progress { 0 < length piece.now → IfOk result (λ n. 0 < n) }
    {
        let file = self.opened()?;
        for _ in 0..u64::MAX {
            match file.write(piece) {
                Ok(0) if !piece.is_empty() => return Err(io::Error::from(io::ErrorKind::WriteZero)),
                Err(error) if error.kind() == io::ErrorKind::Interrupted => {}
                answer => return answer,
            }
        }
        Err(io::Error::from(io::ErrorKind::TimedOut))
    }

    fn cut(&mut self, size: u64) -> io::Result<()> {
        self.opened()?.set_len(size)
    }

    fn sync(&mut self) -> io::Result<()> {
        self.opened()?.sync_all()
    }
}

// A caller may have closed standard input and output, and then the first files that are opened get their numbers. So
// the file is opened three times and only the third is kept: what is written to a closed standard output fails, and
// never comes to stand in the store. The lock is of the opening that is kept. An empty file may just have been made,
// so its folder is synced, lest the file is gone after a loss of power.
fn open_alone<R: FileSystem<File = File>>(rt: &R) -> io::Result<File> {
    let _first = open_or_make(rt)?;
    let _second = open_or_make(rt)?;
    let mut file = open_or_make(rt)?;
    file.try_lock()?;
    if sought(&mut file, SeekFrom::End(0))? == 0 {
        fs::open(rt, ".")?.sync_all()?;
    }
    Ok(file)
}

// Goes there, and answers where that is.
fn sought(file: &mut File, to: SeekFrom) -> io::Result<u64> {
    for _ in 0..u64::MAX {
        match file.seek(to) {
            Err(error) if error.kind() == io::ErrorKind::Interrupted => {}
            answer => return answer,
        }
    }
    Err(io::Error::from(io::ErrorKind::TimedOut))
}

fn open_or_make<R: FileSystem<File = File>>(rt: &R) -> io::Result<File> {
    OpenOptions::new()
        .read(true)
        .write(true)
        .create(true)
        .open(rt, STORE_FILE)
}
