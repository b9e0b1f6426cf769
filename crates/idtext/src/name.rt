//! Bytes as values, which contracts see as lists of bytes: slices of the input, and owned ones.
#![tactic(auto)]

ghost use Rattle.std.specs.Prelude.{◌≡◌, ◌++◌, ◌∷◌, [], ℕ, List, IfOk, OnErr, OnOk};

use std::alloc::{AllocError, Global};
use std::marker::Model;

/// A name that stands in an input text, as a slice of it. Any bytes may be one;
/// [`is_lawful_name`](crate::is_lawful_name) says which ones an account may have. Its calls take a
/// few steps and no memory.
#[derive(Drop)]
pub struct Name<'a> {
    bytes: &'a [u8],
}

impl<'a> Model for Name<'a> {
    ghost Value = { List ℕ };

    ghost view = { λ name. name.bytes.now };
}

impl<'a> Name<'a> {
    /// These bytes as a name.
    pub fn new(bytes: &'a [u8]) -> Name<'a>
        ensures { result ≡ bytes.now }
    {
        Name { bytes }
    }

    /// Its bytes, which live as long as the text.
    pub fn bytes(&self) -> &'a [u8]
        ensures { result.now ≡ self.now }
    {
        self.bytes
    }
}

/// A text or path that owns its bytes. Any bytes may be one.
#[derive(Drop)]
pub struct ByteString {
    items: Vec<u8>,
}

impl Model for ByteString {
    ghost Value = { List ℕ };

    ghost view = { λ text. text.items.items };
}

impl ByteString {
    /// These bytes. No byte is copied.
    pub fn from_vec(bytes: Vec<u8>) -> ByteString
        ensures { result ≡ bytes.items }
    {
        ByteString { items: bytes }
    }

    /// Its bytes, given back. No byte is copied.
    pub fn into_vec(self) -> Vec<u8>
        ensures { result.items ≡ self }
    {
        let ByteString { items } = self;
        items
    }

    /// A copy of these bytes, in one pass.
    ///
    /// # Errors
    ///
    /// Where memory is refused.
    pub fn copy_of(alloc: Global, bytes: &[u8]) -> Result<ByteString, AllocError>
        ensures { IfOk result (λ copy. copy ≡ bytes.now) }
    {
        Ok(ByteString {
            items: Vec::from_slice(alloc, bytes)?,
        })
    }

    /// Its bytes, lent.
    pub fn bytes(&self) -> &[u8]
        ensures { result.now ≡ self.now }
    {
        self.items.as_slice()
    }

    /// No bytes yet. This takes no memory.
    pub fn new(alloc: Global) -> ByteString
        ensures { result ≡ [] }
    {
        ByteString {
            items: Vec::new(alloc),
        }
    }

    /// Appends a line and a newline, in one pass over the line.
    ///
    /// # Errors
    ///
    /// Where memory is refused; the bytes are then as they were.
    pub fn push_line(&mut self, line: &[u8]) -> Result<(), AllocError>
        ensures pushed { OnOk result (self.new ≡ self.old ++ (line.now ++ 10 ∷ [])) }
        ensures kept { OnErr result (self.new ≡ self.old) }
    {
        let before = self.items.len();
        self.items.extend_from_slice(line)?;
        if self.items.push(b'\n').is_err() {
            self.items.truncate(before);
            return Err(AllocError);
        }
        Ok(())
    }
}
