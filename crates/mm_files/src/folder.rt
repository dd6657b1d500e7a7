// The files of both areas, in the current folder.
use mm_host::Area;
use std::fs::{File, OpenOptions};
use std::io;
use std::os::fd::AsRawFd;
use std::os::unix::fs::FileExt;

const PAGES: &str = "kw.pages";

const JOURNAL: &str = "kw.journal";

/// The two files, open.
#[derive(Drop)]
struct AreaFiles {
    pages: File,
    journal: File,
}

/// The current folder with the file of each area. They are opened, or made, by the first call.
#[derive(Drop)]
pub(crate) struct Folder<'r> {
    runtime: &'r HostRuntime,
    files: Option<AreaFiles>,
}

impl<'r> Folder<'r> {
    pub(crate) fn new(runtime: &'r HostRuntime) -> Folder<'r> {
        Folder {
            runtime,
            files: None,
        }
    }

    pub(crate) fn len(&mut self, area: Area) -> io::Result<u64> {
        Ok(self.file(area)?.metadata()?.len())
    }

    /// Fills `into`. A range that passes the end of the file is an error.
    pub(crate) fn read(&mut self, area: Area, at: u64, into: &mut [u8]) -> io::Result<()> {
        self.file(area)?.read_exact_at(into, at)
    }

    /// Writes all the bytes, behind zero bytes where the place is past the end of the file.
    pub(crate) fn write_at(&mut self, area: Area, at: u64, bytes: &[u8]) -> io::Result<()> {
        let file = self.file(area)?;
        // To write no bytes past its end leaves a file as long as it was.
        if file.metadata()?.len() < at {
            file.set_len(at)?;
        }
        file.write_all_at(bytes, at)
    }

    /// Waits until the device has the bytes of the file and its length.
    pub(crate) fn sync(&mut self, area: Area) -> io::Result<()> {
        self.file(area)?.sync_data()
    }

    fn file(&mut self, area: Area) -> io::Result<&File> {
        let files = match self.files.take() {
            Some(files) => files,
            None => open_files(self.runtime)?,
        };
        let files = self.files.insert(files);
        Ok(match area {
            Area::Pages => &files.pages,
            Area::Journal => &files.journal,
        })
    }
}

/// Opens both files, or makes them, and syncs their folder: a file whose folder isn't synced may be gone
/// after a crash. One that is found may have been made by a run that was stopped before its own sync.
fn open_files(runtime: &HostRuntime) -> io::Result<AreaFiles> {
    let pages = open_or_make(runtime, PAGES)?;
    let journal = open_or_make(runtime, JOURNAL)?;
    File::open(runtime, ".")?.sync_all()?;
    Ok(AreaFiles { pages, journal })
}

fn open_or_make(runtime: &HostRuntime, name: &str) -> io::Result<File> {
    let file = OpenOptions::new()
        .read(true)
        .write(true)
        .create(true)
        .open(runtime, name)?;
    // In place of a standard stream that was closed, it would take what is meant for the stream.
    if file.as_raw_fd() <= 2 {
        return file.try_clone();
    }
    Ok(file)
}
