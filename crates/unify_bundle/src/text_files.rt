//! The inventories among texts, and the files that are written for them, in memory.

ghost use Rattle.std.specs.Prelude.{◌≡◌, ◌<◌, ◌++◌, ◌∷◌, [], vec_len, vec_capacity, IfOk};
ghost use Rattle.unify_bundle.specs.InMemory as spec;

use hosts_join::HostText;
use idtext::ByteString;
use std::alloc::{AllocError, Global};
use std::marker::Model;
use std::mem;
use unify::NamedText;
use unify_merge::{Call, CallFailed, Log, MergeFault, MergeFiles, ReadFiles};
use unify_texts::Fault;

// The most bytes of an inventory that are handed out at once.
const MOST_PIECE: usize = 65536;

// What a call answers that fails, with the exit status of want of memory.
const REFUSED: CallFailed = CallFailed { status: 3 };

/// The inventories among texts, and the files that are written for them, all in memory. A call
/// fails where memory is refused, or where no host has the index. It takes time linear in the bytes
/// that it hands out or writes.
#[derive(Drop)]
pub struct TextFiles<'a> {
    alloc: Global,
    hosts: &'a [HostText],
    // What is left of the reading that goes on.
    left: &'a [u8],
    // The files that were finished.
    files: Vec<NamedText>,
    // The file that is written, if one is.
    is_writing: bool,
    name: Vec<u8>,
    text: Vec<u8>,
    // What the last call that failed answered, if one has failed.
    failure: Option<CallFailed>,
    log: Log,
}

impl<'a> Model for TextFiles<'a> {
    ghost use Rattle.unify_laws.specs.Texts.{mtrees};
    ghost use Rattle.unify_bundle.specs.TextFiles.{TextFilesValue, Holds, open_file};

    ghost Value = { TextFilesValue };

    ghost view = { λ f. record {
      texts = mtrees f.hosts.now;
      done = f.log.ledger;
      failure = f.failure;
    } };

    ghost invariant = { λ f. Holds (mtrees f.hosts.now) f.left.now f.files.items
        (open_file f.is_writing f.name.items f.text.items) f.log.ledger };
}

// What is told where all is in memory: that a call failed, or an inventory has too many bytes, is
// want of memory.
fn in_memory<'a, T>(answer: Result<T, MergeFault<'a>>) -> Result<T, Fault<'a>>
    ensures { result ≡ spec.in_memory answer.entry }
{
    match answer {
        Ok(answer) => Ok(answer),
        Err(MergeFault::Refused(fault)) => Err(fault),
        Err(MergeFault::Failed(_) | MergeFault::TooLarge) => Err(Fault::Memory),
    }
}

// A file with this name and this text.
fn file_of(alloc: Global, name: &[u8], text: &[u8]) -> Result<NamedText, AllocError>
    ensures { IfOk result (λ file. file ≡ record { name = name.now; text = text.now }) }
{
    Ok(NamedText {
        name: ByteString::copy_of(alloc, name)?,
        text: ByteString::copy_of(alloc, text)?,
    })
}

// Moves a file after others, where there is room for it.
fn push_file(alloc: Global, name: &mut Vec<u8>, text: &mut Vec<u8>, files: &mut Vec<NamedText>)
    requires room { vec_len files.old < vec_capacity files.old }
    ensures { files.new.items
        ≡ files.old.items ++ record { name = name.old.items; text = text.old.items } ∷ [] }
{
    let file = NamedText {
        name: ByteString::from_vec(mem::replace(name, Vec::new(alloc))),
        text: ByteString::from_vec(mem::replace(text, Vec::new(alloc))),
    };
    match files.push(file) {
        Ok(()) => {}
        Err(_) => unreachable!(),
    }
}

impl<'a> TextFiles<'a> {
    ghost use Rattle.std.specs.Prelude.{◌≡◌, None, Some};
    ghost use Rattle.unify_merge.specs.Ledger.{nothing};
    ghost use Rattle.unify_bundle.specs.TextFiles.{ReadsTexts, ledger_of};
    ghost use Rattle.unify_bundle.specs.InMemory as spec;
    ghost use Rattle.unify_laws.specs.Texts.{mtrees};

    /// Nothing is written as yet. No cost.
    pub fn new(alloc: Global, hosts: &'a [HostText]) -> TextFiles<'a>
        ensures { result ≡ record { texts = mtrees hosts.now; done = nothing; failure = None } }
    {
        TextFiles {
            alloc,
            hosts,
            left: &[],
            files: Vec::new(alloc),
            is_writing: false,
            name: Vec::new(alloc),
            text: Vec::new(alloc),
            failure: None,
            log: Log::new(),
        }
    }

    /// What a command on these answered, as it is told where all is in memory. No cost.
    pub fn answer<T>(&self, answer: Result<T, MergeFault<'a>>) -> Result<T, Fault<'a>>
        ensures told { result ≡ spec.in_memory answer.entry }
        ensures read { ReadsTexts self.now.texts (ledger_of self.now) }
    {
        // That every reading was of the texts is known of the log that is held.
        let _held = &self.log;
        in_memory(answer)
    }

    // Notes that a call fails, and gives what it answers.
    fn refuse(&mut self) -> CallFailed
        ensures { self.new ≡ record self.old { failure = Some result } }
    {
        self.failure = Some(REFUSED);
        REFUSED
    }

    /// The files that were finished, in their order. No cost.
    pub fn into_files(self) -> Vec<NamedText>
        ensures { result.items ≡ self.entry.done.finished }
    {
        let TextFiles { files, .. } = self;
        files
    }
}

impl ReadFiles for TextFiles<'_> {
    ghost use Rattle.unify_bundle.specs.TextFiles.{ledger_of};

    ghost ledger = { ledger_of };

    ghost failure = { λ files. files.failure };

    fn open(&mut self, host: usize) -> Result<(), CallFailed> {
        let Some(text) = self.hosts.get(host) else {
            return Err(self.refuse());
        };
        self.left = text.mtree.bytes();
        self.log.note(&Call::Open(host));
        Ok(())
    }

    fn piece(&mut self, bytes: &mut Vec<u8>) -> Result<(), CallFailed> {
        let (next, rest) = self.left.split_at(self.left.len().min(MOST_PIECE));
        bytes.clear();
        if bytes.extend_from_slice(next).is_err() {
            return Err(self.refuse());
        }
        self.left = rest;
        self.log.note(&Call::Piece(bytes));
        Ok(())
    }
}

impl MergeFiles for TextFiles<'_> {
    fn clear(&mut self) -> Result<(), CallFailed> {
        self.files.clear();
        self.is_writing = false;
        self.log.note(&Call::Clear);
        Ok(())
    }

    fn begin(&mut self, name: &[u8]) -> Result<(), CallFailed> {
        let Ok(copy) = Vec::from_slice(self.alloc, name) else {
            return Err(self.refuse());
        };
        self.is_writing = true;
        self.name = copy;
        self.text.clear();
        self.log.note(&Call::Begin(name));
        Ok(())
    }

    fn append(&mut self, bytes: &[u8]) -> Result<(), CallFailed> {
        if self.text.extend_from_slice(bytes).is_err() {
            return Err(self.refuse());
        }
        self.log.note(&Call::Append(bytes));
        Ok(())
    }

    fn finish(&mut self) -> Result<(), CallFailed> {
        if self.files.reserve(1).is_err() {
            return Err(self.refuse());
        }
        if self.is_writing {
            push_file(self.alloc, &mut self.name, &mut self.text, &mut self.files);
            self.is_writing = false;
        }
        self.log.note(&Call::Finish);
        Ok(())
    }

    fn seal(&mut self, name: &[u8], text: &[u8]) -> Result<(), CallFailed> {
        let Ok(file) = file_of(self.alloc, name, text) else {
            return Err(self.refuse());
        };
        if self.files.push(file).is_err() {
            return Err(self.refuse());
        }
        self.is_writing = false;
        self.log.note(&Call::Seal(name, text));
        Ok(())
    }
}
