//! The disk over real files.
//!
//! 1. The file that is chosen is opened once and kept, so a commit costs its write and its sync and no opening.
//! 2. Where the file is made its folder is synced too: else a crash could leave bytes without a name.
ghost use Rattle.std.specs.Prelude.{◌≡◌, ◌≤◌, length, IfOk};
ghost use Rattle.desk_io.specs.Files.{Rose};
ghost use Rattle.journal_disk.specs.Disk.{nothing_told};

use crate::disk::Disk;
use desk_io::Failed;
use std::fs::{File, OpenOptions};
use std::io;
use std::io::ErrorKind;
use std::os::unix::fs::FileExt;
use std::path::Path;
use std::rt::Files;

/// Files of the file system. Nothing is told of what they hold.
///
/// The chosen file is opened once. Where it is made, its folder is synced, so that a crash leaves its name. A sync is
/// of the file's bytes and its size.
#[derive(Drop)]
pub struct StdDisk<R: Files<File = File>> {
    rt: R,
    /// The file that calls go to, once one was chosen.
    file: Option<File>,
    /// How many calls failed, up to the last number.
    faults: u64,
}

impl<R: Files<File = File>> StdDisk<R> {
    pub fn new(rt: R) -> StdDisk<R>
        ensures { ⟦<StdDisk<R> as Disk>⟧.state result ≡ nothing_told 0 }
    {
        StdDisk {
            rt,
            file: None,
            faults: 0,
        }
    }

    /// Counts a call that failed.
    fn fail(&mut self) -> Failed
        ensures rose { Rose self.old.faults self.new.faults }
    {
        self.faults = self.faults.saturating_add(1);
        Failed
    }
}

impl<R: Files<File = File>> Disk for StdDisk<R> {
    ghost state = { λ d. nothing_told d.faults };

    ghost may_leave = { λ _ _. ⊥ };

    ghost moment = { λ _. 0 };

    ghost left_since = { λ _ _ _. ⊥ };

    ghost counts_now = { λ _ _ _ _ never. never };

    ghost only_now = { λ _ _ never. never };

    fn choose(&mut self, name: &str) -> Result<(), Failed> {
        match open_or_make(&self.rt, name) {
            Ok(file) => {
                self.file = Some(file);
                Ok(())
            }
            Err(_) => Err(self.fail()),
        }
    }

    fn size(&mut self) -> Result<u64, Failed> {
        match size_of(&self.file) {
            Ok(size) => Ok(size),
            Err(_) => Err(self.fail()),
        }
    }

    fn read(&mut self, at: u64, buffer: &mut [u8]) -> Result<usize, Failed> {
        match read_again(&self.file, at, buffer) {
            Ok(count) => Ok(count),
            Err(_) => Err(self.fail()),
        }
    }

    fn cut(&mut self, size: u64) -> Result<(), Failed> {
        match cut_to(&self.file, size) {
            Ok(()) => Ok(()),
            Err(_) => Err(self.fail()),
        }
    }

    fn write_at(&mut self, at: u64, bytes: &[u8]) -> Result<(), Failed> {
        match write_all(&self.file, at, bytes) {
            Ok(()) => Ok(()),
            Err(_) => Err(self.fail()),
        }
    }

    fn sync(&mut self) -> Result<(), Failed> {
        match sync_bytes(&self.file) {
            Ok(()) => Ok(()),
            Err(_) => Err(self.fail()),
        }
    }
}

/// The file of this name, which is made where there is none.
fn open_or_make(rt: &impl Files<File = File>, name: &str) -> io::Result<File> {
    let made = OpenOptions::new()
        .read(true)
        .write(true)
        .create_new(true)
        .open(rt, name);
    match made {
        Ok(file) => {
            sync_folder(rt, name)?;
            Ok(file)
        }
        Err(error) if error.kind() == ErrorKind::AlreadyExists => OpenOptions::new()
            .read(true)
            .write(true)
            .open(rt, name),
        Err(error) => Err(error),
    }
}

/// Brings the names of a file's folder to the disk.
fn sync_folder(rt: &impl Files<File = File>, name: &str) -> io::Result<()> {
    let folder = match Path::new(name).parent() {
        Some(folder) if !folder.as_str().is_empty() => File::open(rt, folder)?,
        _ => File::open(rt, ".")?,
    };
    folder.sync_all()
}

/// The file, where one is chosen.
fn chosen(file: &Option<File>) -> io::Result<&File> {
    match file {
        Some(file) => Ok(file),
        None => Err(io::Error::from(ErrorKind::NotFound)),
    }
}

fn size_of(file: &Option<File>) -> io::Result<u64> {
    Ok(chosen(file)?.metadata()?.len())
}

/// Reads once, and again where a signal interrupts it.
fn read_again(file: &Option<File>, at: u64, buffer: &mut [u8]) -> io::Result<usize>
    ensures { IfOk result (λ count. count ≤ length buffer.old) }
{
    let file = chosen(file)?;
    for _ in 0..u64::MAX {
        match file.read_at(buffer, at) {
            Err(error) if error.kind() == ErrorKind::Interrupted => {}
            answer => return answer,
        }
    }
    Err(io::Error::from(ErrorKind::TimedOut))
}

fn cut_to(file: &Option<File>, size: u64) -> io::Result<()> {
    chosen(file)?.set_len(size)
}

/// Writes all of the bytes.
fn write_all(file: &Option<File>, at: u64, bytes: &[u8]) -> io::Result<()> {
    chosen(file)?.write_all_at(bytes, at)
}

fn sync_bytes(file: &Option<File>) -> io::Result<()> {
    chosen(file)?.sync_data()
}

#[cfg(test)]
mod tests {
    use super::*;
    use std::path::PathBuf;
    use std::test::Fail;
    use std::{env, fs, process};

    #[test]
    fn a_chosen_file_has_what_was_written_last(rt: HostRuntime) -> Result<(), Fail> {
        let path = scratch_path(&rt)?;
        let name = path.as_path().as_str();
        let mut disk = StdDisk::new(rt.clone()?);
        write_over(&mut disk, name)?;
        let mut buffer = [0; 8];
        let answers = (
            disk.size(),
            disk.read(4, &mut buffer[4..]),
            disk.read(0, &mut buffer[..4]),
            disk.read(8, &mut [0; 8]),
        );
        let failing = [disk.choose("/").is_err(), disk.faults == 1];
        fs::remove_file(&rt, name)?;
        assert_eq!(rt; answers, (Ok(8), Ok(4), Ok(4), Ok(0)));
        assert_eq!(rt; buffer, *b"12\n45\n78");
        assert_eq!(rt; failing, [true, true]);
        Ok(())
    }

    /// A text over a longer one, with one of its bytes written last.
    fn write_over(disk: &mut impl Disk, name: &str) -> Result<(), Failed> {
        disk.choose(name)?;
        disk.write_at(0, b"999999999999")?;
        disk.cut(0)?;
        disk.write_at(0, b"12\n99\n78")?;
        disk.sync()?;
        disk.write_at(3, b"45")?;
        disk.choose(name)?;
        disk.sync()
    }

    fn scratch_path(rt: &HostRuntime) -> io::Result<PathBuf> {
        let name = format!(in rt.alloc(); "journal_disk-{}", process::id(rt.process()))?;
        Ok(env::temp_dir(rt)?.join(rt.alloc(), name.as_str())?)
    }
}
