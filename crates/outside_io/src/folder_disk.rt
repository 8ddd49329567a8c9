// Two files of a folder as a disk.
ghost use Rattle.std.specs.Prelude.{◌≡◌, ◌≤◌, None, length, IfOk};

use crate::Failed;
use crate::disk::{Area, Disk};
use crate::faults::counting;
use std::fs::{Files, OpenFile, OpenOptions};
use std::io;
use std::io::{ErrorKind, Read, Seek, SeekFrom, Write};

/// The files `amr_a.chk` and `amr_b.chk` of a folder as a disk's areas. They are opened in each call. A file that
/// is missing has length 0, and the first write makes it. The disk tells nothing of its bytes, nor of
/// what a crash leaves. Each error of the system is a fault, want of memory for a path among them.
#[derive(Drop)]
pub struct FolderDisk<'a, R: Files + Alloc> {
    rt: &'a R,
    folder: String,
    faults: u64,
}

impl<'a, R: Files + Alloc> FolderDisk<'a, R> {
    /// A disk in the folder, which has to be there: `.` is the current one. The runtime opens its files.
    pub fn new(rt: &'a R, folder: String) -> FolderDisk<'a, R>
        ensures faults { result.faults ≡ 0 }
        ensures folder { result.folder ≡ folder }
    {
        FolderDisk {
            rt,
            folder,
            faults: 0,
        }
    }

    fn open(&self, area: Area, how: &OpenOptions) -> io::Result<R::File> {
        let name = match area {
            Area::A => "amr_a.chk",
            Area::B => "amr_b.chk",
        };
        let path = format!(in self.rt.alloc(); "{}/{name}", self.folder)?;
        self.rt.open_file(how, path.as_str())
    }

    /// The area's file, or none where it is missing.
    fn find(&self, area: Area, how: &OpenOptions) -> io::Result<Option<R::File>> {
        match self.open(area, how) {
            Ok(file) => Ok(Some(file)),
            Err(e) if e.kind() == ErrorKind::NotFound => Ok(None),
            Err(e) => Err(e),
        }
    }

    fn file_length(&self, area: Area) -> io::Result<u64> {
        match self.find(area, OpenOptions::new().read(true))? {
            Some(file) => Ok(file.metadata()?.len()),
            None => Ok(0),
        }
    }

    fn read_file(&self, area: Area, place: u64, buf: &mut [u8]) -> io::Result<usize>
        ensures { IfOk result (λ n. n ≤ length buf.new) }
    {
        let Some(mut file) = self.find(area, OpenOptions::new().read(true))? else {
            return Ok(0);
        };
        let left = file.metadata()?.len().saturating_sub(place);
        let n = (buf.len() as u64).min(left) as usize;
        file.seek(SeekFrom::Start(place))?;
        file.read_exact(&mut buf[..n])?;
        Ok(n)
    }

    fn write_file(&self, area: Area, place: u64, piece: &[u8]) -> io::Result<()> {
        let mut file = self.open(area, OpenOptions::new().write(true).create(true))?;
        file.seek(SeekFrom::Start(place))?;
        file.write_all(piece)
    }

    fn cut_file(&self, area: Area, most: u64) -> io::Result<()> {
        match self.find(area, OpenOptions::new().write(true))? {
            Some(file) if most < file.metadata()?.len() => file.set_len(most),
            _ => Ok(()),
        }
    }

    fn sync_file(&self, area: Area) -> io::Result<()> {
        if let Some(file) = self.find(area, OpenOptions::new().read(true))? {
            file.sync_all()?;
        }
        // The folder keeps the names of the files.
        let folder = OpenOptions::new().read(true).open(self.rt, &self.folder)?;
        folder.sync_all()
    }
}

impl<'a, R: Files + Alloc> Disk for FolderDisk<'a, R> {
    ghost holds = { λ d. None };

    ghost may_leave = { λ _ _. Unit {0} };

    ghost moment = { λ _. 0 };

    ghost left_since = { λ _ _ _. Unit {0} };

    ghost faults = { λ d. d.faults };

    ghost read_is_possible = { λ _. tt };

    ghost counts_now = { λ _ _ _ _ _. tt };

    ghost only_now = { λ _ _ _. tt };

    fn length(&mut self, area: Area) -> Result<u64, Failed> {
        counting(self.file_length(area), &mut self.faults)
    }

    fn read_at(&mut self, area: Area, place: u64, buf: &mut [u8]) -> Result<usize, Failed> {
        counting(self.read_file(area, place, buf), &mut self.faults)
    }

    fn write_at(&mut self, area: Area, place: u64, piece: &[u8]) -> Result<(), Failed> {
        counting(self.write_file(area, place, piece), &mut self.faults)
    }

    fn cut(&mut self, area: Area, most: u64) -> Result<(), Failed> {
        counting(self.cut_file(area, most), &mut self.faults)
    }

    fn sync(&mut self, area: Area) -> Result<(), Failed> {
        counting(self.sync_file(area), &mut self.faults)
    }
}
