//! The inventory as it goes to standard output.

use crate::roots::NamedRoot;
use crate::sink::FileSink;
use idtext::MOST_LINE_BYTES;
use inventory_text::{FileKind, push_end, push_entry, push_head};
use std::io;
use std::io::{BufWriter, Printer, Write};
use unify_io::{FileFault, write_failed};

// How many bytes are written at once.
const BUFFER_BYTES: usize = 65536;

/// Standard output, and how many files went to it.
#[derive(Drop)]
pub struct Output<'r> {
    rt: &'r HostRuntime,
    writer: BufWriter<Printer<'r, HostRuntime>>,
    line: Vec<u8>,
    count: u64,
}

impl<'r> Output<'r> {
    /// Nothing is written yet.
    pub fn new(rt: &'r HostRuntime) -> Result<Output<'r>, FileFault> {
        let Ok(writer) = BufWriter::with_capacity(rt.alloc(), BUFFER_BYTES, io::writer(rt)) else {
            return Err(FileFault::Memory);
        };
        Ok(Output {
            rt,
            writer,
            line: Vec::new(rt.alloc()),
            count: 0,
        })
    }

    // Writes the line that was made, and begins another.
    fn put_line(&mut self) -> Result<(), FileFault> {
        let written = self.writer.write_all(&self.line);
        self.line.clear();
        match written {
            Ok(()) => Ok(()),
            Err(_) => Err(FileFault::Told(write_failed(self.rt))),
        }
    }

    /// Writes the first line, and says whether it could: not where it would have more bytes than a
    /// line of an inventory may have.
    pub fn head(
        &mut self,
        host: &[u8],
        time: &[u8],
        roots: &[NamedRoot<'_>],
    ) -> Result<bool, FileFault> {
        let mut words = Vec::new(self.rt.alloc());
        for root in roots {
            words.push(root.word.as_bytes())?;
        }
        push_head(&mut self.line, host, time, &words)?;
        if self.line.len() > MOST_LINE_BYTES + 1 {
            self.line.clear();
            return Ok(false);
        }
        self.put_line()?;
        Ok(true)
    }

    /// Writes the last line.
    pub fn last_line(&mut self) -> Result<(), FileFault> {
        push_end(&mut self.line, self.count)?;
        self.put_line()
    }

    /// Writes all that is still to be written.
    pub fn flush(&mut self) -> Result<(), FileFault> {
        match self.writer.flush() {
            Ok(()) => Ok(()),
            Err(_) => Err(FileFault::Told(write_failed(self.rt))),
        }
    }
}

impl FileSink for Output<'_> {
    fn entry(
        &mut self,
        path: &[u8],
        uid: u32,
        gid: u32,
        kind: FileKind,
    ) -> Result<bool, FileFault> {
        push_entry(&mut self.line, path, uid, gid, kind)?;
        if self.line.len() > MOST_LINE_BYTES + 1 {
            self.line.clear();
            return Ok(false);
        }
        self.put_line()?;
        self.count = self.count.saturating_add(1);
        Ok(true)
    }
}
