//! What a merge writes.

ghost use Rattle.std.specs.Prelude.{◌≡◌, ◌++◌, ◌∷◌, [], ℕ, List, OnErr, OnOk};

use crate::counting::Cost;
use idtext::ByteString;
use std::alloc::{AllocError, Global};
use std::marker::Model;

/// Texts, in order.
#[derive(Drop)]
pub struct TextList {
    texts: Vec<ByteString>,
}

impl Model for TextList {
    ghost Value = { List (List ℕ) };

    ghost view = { λ list. list.texts.items };
}

impl TextList {
    /// No texts. Takes no memory.
    pub fn new(alloc: Global) -> TextList
        ensures { result ≡ [] }
    {
        TextList {
            texts: Vec::new(alloc),
        }
    }

    /// The texts. Takes constant time and no memory.
    pub fn texts(&self) -> &[ByteString]
        ensures { result.now ≡ self.now }
    {
        self.texts.as_slice()
    }

    /// Appends a text, in constant time except for growth. `AllocError` where a growth was refused;
    /// the texts are then as before.
    pub fn push(&mut self, text: ByteString) -> Result<(), AllocError>
        ensures pushed { OnOk result (self.new ≡ self.old ++ text ∷ []) }
        ensures err { OnErr result (self.new ≡ self.old) }
    {
        self.texts.push(text)?;
        Ok(())
    }
}

/// What a merge writes for a site, and how many fields of files its mappings change.
#[derive(Drop)]
pub struct Outcome {
    /// One passwd for all hosts.
    pub passwd: ByteString,
    /// One group for all hosts.
    pub group: ByteString,
    /// Whether a name of the hosts is kept, which then has no one number: passwd and group are not
    /// written then.
    pub keeps_names: bool,
    /// The number of each name.
    pub map: ByteString,
    /// The same numbers, with the potentials that prove them the best.
    pub certificate: ByteString,
    /// What changes, and where the hosts' files differ.
    pub report: ByteString,
    /// The plan of each host, in the order of the hosts.
    pub plans: TextList,
    /// How many user fields and group fields change.
    pub cost: Cost,
}
