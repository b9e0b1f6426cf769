//! The files that a merge writes. Each is written under a name of its own, synced and renamed, so
//! that none is ever cut; and a report stands only where all others are those of its merge.

use crate::files::{FileFault, or_told};
use crate::output::{MARK, OWN_GROUP, OWN_PASSWD, OutputDirectory, PLAN, TEMPORARY};
use crate::report::{file_failed, internal_error};
use std::fs::File;
use std::io::{BufWriter, Write};
use std::path::PathBuf;
use std::{fs, io, str};

// How many bytes of a file are handed on at once, at least: a plan comes in many small pieces.
const BUFFER_BYTES: usize = 65536;

// A file that is written under a temporary name, and renamed when it is whole.
#[derive(Drop)]
struct NewFile {
    path: PathBuf,
    temporary: PathBuf,
    writer: BufWriter<File>,
}

impl NewFile {
    // Begins a file of a directory. What stands at its name stays until it is kept.
    fn create(output: &OutputDirectory<'_>, name: &str) -> Result<NewFile, FileFault> {
        let rt = output.rt;
        let temporary = output.path_of(TEMPORARY, name)?;
        let path = output.path_of(name, "")?;
        let file = match File::create_new(rt, temporary.as_str()) {
            Ok(file) => file,
            Err(error) => return Err(file_failed(rt, temporary.as_str(), &error)),
        };
        match BufWriter::with_capacity(rt.alloc(), BUFFER_BYTES, file) {
            Ok(writer) => Ok(NewFile {
                path,
                temporary,
                writer,
            }),
            Err(error) => {
                let _ = fs::remove_file(rt, temporary.as_str());
                Err(file_failed(rt, temporary.as_str(), &error))
            }
        }
    }

    // Hands on what waits, syncs the file and gives it its name.
    fn take_place(&mut self, rt: &HostRuntime) -> io::Result<()> {
        self.writer.flush()?;
        self.writer.get_ref().sync_all()?;
        fs::rename(rt, self.temporary.as_str(), self.path.as_str())
    }

    // Why the file could not be written or kept. What there is of it is removed.
    fn given_up(&self, rt: &HostRuntime, error: &io::Error) -> FileFault {
        self.discard(rt);
        file_failed(rt, self.path.as_str(), error)
    }

    // Removes what there is of the file, as far as that can be done.
    fn discard(&self, rt: &HostRuntime) {
        let _ = fs::remove_file(rt, self.temporary.as_str());
    }

    // Appends bytes, some of which may wait until the file is kept. What there is of a file that
    // cannot be written is removed.
    fn write(&mut self, rt: &HostRuntime, bytes: &[u8]) -> Result<(), FileFault> {
        match self.writer.write_all(bytes) {
            Ok(()) => Ok(()),
            Err(error) => Err(self.given_up(rt, &error)),
        }
    }

    // Writes what waits, syncs the file and gives it its name.
    fn keep(&mut self, rt: &HostRuntime) -> Result<(), FileFault> {
        match self.take_place(rt) {
            Ok(()) => Ok(()),
            Err(error) => Err(self.given_up(rt, &error)),
        }
    }
}

// What a call gave, except for a failure of that kind, which is none.
fn unless(done: io::Result<()>, kind: io::ErrorKind) -> io::Result<()> {
    match done {
        Err(error) if error.kind() == kind => Ok(()),
        done => done,
    }
}

// Opens a directory and syncs it.
fn open_and_sync(rt: &HostRuntime, directory: &str) -> io::Result<()> {
    let opened = File::open(rt, directory)?;
    opened.sync_all()
}

// Makes an empty file.
fn make_empty(rt: &HostRuntime, path: &str) -> io::Result<()> {
    let _made = File::create_new(rt, path)?;
    Ok(())
}

impl OutputDirectory<'_> {
    // Syncs it. A file system that has no sync of directories needs none.
    fn sync(&self) -> Result<(), FileFault> {
        let synced = open_and_sync(self.rt, self.path);
        or_told(
            self.rt,
            self.path,
            unless(synced, io::ErrorKind::InvalidInput),
        )
    }

    // Removes a name from it, if it is there.
    fn remove(&self, name: &str) -> Result<(), FileFault> {
        let path = self.path_of(name, "")?;
        let removed = fs::remove_file(self.rt, path.as_str());
        or_told(
            self.rt,
            path.as_str(),
            unless(removed, io::ErrorKind::NotFound),
        )
    }

    // Marks it as one that a merge has begun to write into.
    fn mark(&self) -> Result<(), FileFault> {
        let path = self.path_of(MARK, "")?;
        let made = make_empty(self.rt, path.as_str());
        or_told(
            self.rt,
            path.as_str(),
            unless(made, io::ErrorKind::AlreadyExists),
        )?;
        self.sync()
    }

    // Removes the files of hosts that have names which begin so, if an earlier merge wrote a plan
    // for the host or this one will.
    fn remove_with(&self, start: &str) -> Result<(), FileFault> {
        for name in &self.names_with(start)? {
            if self.takes_host(name.strip_prefix(start).unwrap_or(""))? {
                self.remove(name.as_str())?;
            }
        }
        Ok(())
    }

    // Removes the files of hosts that an earlier merge wrote, also those of hosts that are no more.
    // The plans go last, since they tell whose the others are.
    fn remove_of_hosts(&self) -> Result<(), FileFault> {
        for start in &[OWN_PASSWD, OWN_GROUP, PLAN] {
            self.remove_with(*start)?;
        }
        Ok(())
    }

    // Removes what a merge that was cut off left under temporary names.
    fn remove_temporary(&self) -> Result<(), FileFault> {
        for name in &self.names_with(TEMPORARY)? {
            self.remove(name.as_str())?;
        }
        Ok(())
    }

    // Writes a text as a file of it.
    fn write_file(&self, name: &str, text: &[u8]) -> Result<(), FileFault> {
        let mut file = NewFile::create(self, name)?;
        file.write(self.rt, text)?;
        file.keep(self.rt)
    }
}

/// The directory that a merge is written into, and the file of it that is written.
#[derive(Drop)]
pub struct Output<'w> {
    directory: OutputDirectory<'w>,
    file: Option<NewFile>,
}

impl<'w> Output<'w> {
    /// Nothing is written as yet.
    pub fn new(directory: OutputDirectory<'w>) -> Output<'w> {
        Output {
            directory,
            file: None,
        }
    }

    /// Begins to write a merge: the report, the hosts' own files and the plans of an earlier merge
    /// go before any of its other files does, then its passwd and group, which not every merge
    /// writes; and the directory has a mark until the new report stands.
    pub fn clear(&self) -> Result<(), FileFault> {
        let directory = &self.directory;
        directory.mark()?;
        directory.remove("report")?;
        directory.remove_of_hosts()?;
        directory.remove("passwd")?;
        directory.remove("group")?;
        directory.remove_temporary()?;
        directory.sync()
    }

    // No call has begun the file that this one goes on with.
    fn not_begun(&self) -> FileFault {
        internal_error(self.directory.rt, "no file is begun")
    }

    /// Begins a file. What stands at its name stays until the file is finished.
    pub fn begin(&mut self, name: &[u8]) -> Result<(), FileFault> {
        let name = str::from_utf8(name).unwrap_or("");
        self.file = Some(NewFile::create(&self.directory, name)?);
        Ok(())
    }

    /// Appends bytes to the file.
    pub fn append(&mut self, bytes: &[u8]) -> Result<(), FileFault> {
        match &mut self.file {
            Some(file) => file.write(self.directory.rt, bytes),
            None => Err(self.not_begun()),
        }
    }

    /// Gives the file its name.
    pub fn finish(&mut self) -> Result<(), FileFault> {
        match &mut self.file {
            Some(file) => file.keep(self.directory.rt)?,
            None => return Err(self.not_begun()),
        }
        self.file = None;
        Ok(())
    }

    /// Ends a merge whose other files are all written, by its last file.
    pub fn seal(&self, name: &[u8], text: &[u8]) -> Result<(), FileFault> {
        let directory = &self.directory;
        directory.sync()?;
        directory.write_file(str::from_utf8(name).unwrap_or(""), text)?;
        directory.sync()?;
        directory.remove(MARK)
    }

    /// Removes what there is of a file that was not finished.
    pub fn discard(&self) {
        if let Some(file) = &self.file {
            file.discard(self.directory.rt);
        }
    }
}
