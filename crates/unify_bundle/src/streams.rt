//! Where a bundle comes from, and where its answer goes: each notes whether a call on it has
//! failed.

ghost use Rattle.std.specs.Prelude.{◌≡◌, true, OnOk, OnErr};
ghost use Rattle.std.specs.Io.Buffered.{writer_buffer, writer_contents};

use std::io;
use std::io::{BufWriter, Read, Write};

/// A source of bytes that notes whether a read has failed.
pub trait Source {
    ghost use Rattle.std.specs.Prelude.{◌≡◌, ◌≤◌, ℕ, List, Option, Bool, true, length, IfOk, OnOk};
    ghost use Rattle.std.specs.Prelude.{OnErr};
    ghost use Rattle.std.specs.Io.KnownBytes.{ReadConsumes};

    // The bytes that are left to read, where they are known.
    ghost left: { Self → Option (List ℕ) };

    // Whether a read has failed.
    ghost has_failed: { Self → Bool };

    /// Reads some bytes to the front of the buffer, and answers how many: none only at the end, or
    /// where the buffer has no room. An error, an interrupted read too, is a failed read.
    fn read(&mut self, buffer: &mut [u8]) -> io::Result<usize>
        ensures bound { IfOk result (λ n. n ≤ length buffer.old) }
        ensures bytes { ReadConsumes (left self.old) (left self.new) result buffer.new }
        ensures ok { OnOk result (has_failed self.new ≡ has_failed self.old) }
        ensures err { OnErr result (has_failed self.new ≡ true) };
}

/// A sink of bytes that notes whether a write has failed.
pub trait Sink {
    ghost use Rattle.std.specs.Prelude.{◌≡◌, ℕ, List, [], Option, Bool, true, OnOk, OnErr};
    ghost use Rattle.std.specs.Io.KnownBytes.{Appends};

    // The bytes that it was given, where they are known.
    ghost contents: { Self → Option (List ℕ) };

    // Those of them that it has not handed on.
    ghost waiting: { Self → List ℕ };

    // Whether a write has failed.
    ghost has_failed: { Self → Bool };

    /// Writes all the bytes, and hands on what it buffered. After an error nothing is said of how
    /// many went out.
    fn write_all(&mut self, bytes: &[u8]) -> io::Result<()>
        ensures bytes { OnOk result (Appends (contents self.old) (contents self.new) bytes.now) }
        ensures handed_on { OnOk result (waiting self.new ≡ []) }
        ensures ok { OnOk result (has_failed self.new ≡ has_failed self.old) }
        ensures err { OnErr result (has_failed self.new ≡ true) };
}

/// A reader or a buffered writer of the standard library, with a note of whether a call on it has
/// failed.
#[derive(Drop)]
pub struct Watched<T> {
    pub inner: T,
    pub has_failed: bool,
}

impl<T> Watched<T> {
    ghost use Rattle.std.specs.Prelude.{◌≡◌, false};

    /// No call on it has failed yet.
    pub fn new(inner: T) -> Self
        ensures inner { result.inner ≡ inner }
        ensures fresh { result.has_failed ≡ false }
    {
        Watched {
            inner,
            has_failed: false,
        }
    }
}

impl<R: Read> Source for Watched<R> {
    ghost left = { λ watched. R.remaining watched.inner };

    ghost has_failed = { λ watched. watched.has_failed };

    fn read(&mut self, buffer: &mut [u8]) -> io::Result<usize> {
        let count = self.inner.read(buffer);
        if count.is_err() {
            self.has_failed = true;
        }
        count
    }
}

impl<W: Write + Drop> Sink for Watched<BufWriter<W>> {
    ghost contents = { λ watched. writer_contents W.contents watched.inner };

    ghost waiting = { λ watched. writer_buffer watched.inner };

    ghost has_failed = { λ watched. watched.has_failed };

    fn write_all(&mut self, bytes: &[u8]) -> io::Result<()> {
        let mut written = self.inner.write_all(bytes);
        if written.is_ok() {
            written = self.inner.flush();
        }
        if written.is_err() {
            self.has_failed = true;
        }
        written
    }
}
