//! Which lines of an inventory are of files, and whether lines end in a carriage return, for
//! warnings.

use memchr::memchr_iter;

/// What the bytes of a line that have come say of its first word.
#[derive(Clone, Copy, PartialEq, Eq)]
enum LineStart {
    /// There are none but white space.
    Blank,
    /// It begins with a full stop, and no more of it has come.
    Dot,
    /// It begins with two.
    DotDot,
    /// It names a file.
    File,
    /// The line is a comment, sets keywords, or closes a directory.
    Other,
}

impl LineStart {
    // What they say with one byte more.
    fn with(self, byte: u8) -> LineStart {
        match (self, byte) {
            (LineStart::Blank, b' ' | b'\t') => LineStart::Blank,
            (LineStart::Blank, b'#' | b'/') => LineStart::Other,
            (LineStart::Blank, b'.') => LineStart::Dot,
            (LineStart::Dot, b'.') => LineStart::DotDot,
            (LineStart::DotDot, b' ' | b'\t') => LineStart::Other,
            (LineStart::Blank | LineStart::Dot | LineStart::DotDot, _) => LineStart::File,
            (LineStart::File | LineStart::Other, _) => self,
        }
    }

    // Whether no byte more can change that.
    fn is_decided(self) -> bool {
        matches!(self, LineStart::File | LineStart::Other)
    }
}

// How many spaces stand at the front of a part of a line.
fn spaces_before(part: &[u8]) -> usize {
    part.iter()
        .position(|byte| *byte != b' ')
        .unwrap_or(part.len())
}

/// How many lines of an inventory are of files, as far as it has come.
#[derive(Drop)]
pub struct FileLines {
    ended: u64,
    start: LineStart,
    // The last byte of the line, if one has come. After a backslash it goes on in the next line.
    last: Option<u8>,
    // Whether a line has ended in a carriage return.
    has_returns: bool,
}

impl FileLines {
    /// Nothing has come.
    pub fn new() -> FileLines {
        FileLines {
            ended: 0,
            start: LineStart::Blank,
            last: None,
            has_returns: false,
        }
    }

    /// How many there are.
    pub fn count(&self) -> u64 {
        let is_file = matches!(self.start, LineStart::File | LineStart::Dot);
        self.ended.saturating_add(u64::from(is_file))
    }

    /// Whether a line ends in a carriage return.
    pub fn have_returns(&self) -> bool {
        self.has_returns || self.last == Some(b'\r')
    }

    /// Takes the next bytes.
    pub fn take(&mut self, bytes: &[u8]) {
        let mut start: usize = 0;
        for end in memchr_iter(b'\n', bytes) {
            self.take_part(bytes.get(start..end).unwrap_or(&[]));
            self.end_line();
            start = end.saturating_add(1);
        }
        self.take_part(bytes.get(start..).unwrap_or(&[]));
    }

    // Takes a byte of a line whose first word is not known as yet. A backslash is a byte of it
    // where another one comes after it before the line ends.
    fn take_byte(&mut self, byte: u8) {
        if self.last == Some(b'\\') {
            self.start = LineStart::File;
        } else if byte != b'\\' {
            self.start = self.start.with(byte);
        }
        self.last = Some(byte);
    }

    // Takes a part of a line, up to the byte that decides. Spaces say nothing, unless a backslash
    // stands before them.
    fn take_front(&mut self, part: &[u8]) {
        let spaces = match (self.start, self.last) {
            (LineStart::Blank, Some(b'\\')) => 0,
            (LineStart::Blank, _) => spaces_before(part),
            _ => 0,
        };
        for byte in part.get(spaces..).unwrap_or(&[]) {
            if self.start.is_decided() {
                break;
            }
            self.take_byte(*byte);
        }
    }

    // Takes a part of a line.
    fn take_part(&mut self, part: &[u8]) {
        if let Some(last) = part.last() {
            if !self.start.is_decided() {
                self.take_front(part);
            }
            self.last = Some(*last);
        }
    }

    fn end_line(&mut self) {
        self.has_returns = self.have_returns();
        if self.last != Some(b'\\') {
            self.ended = self.count();
            self.start = LineStart::Blank;
        }
        self.last = None;
    }
}
