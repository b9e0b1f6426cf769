//! A reader of an mtree text in pieces.

use crate::cut_hashes::CutHashes;
use crate::entry::Entry;
use crate::parts::Parts;
use crate::past::Past;
use idtext::ReadError;
use std::alloc::Global;
use std::marker::Model;

/// Reads the inventory of an mtree text that comes in pieces, however it is cut, by mtree(5) and
/// the profile that this crate's page states. Files can be taken while it reads.
///
/// It keeps the files, the line in progress, of which it keeps 65,535 bytes at most, the current
/// directory's path and a number for each open directory, a count of files where the text is to
/// tell one, and not the text. Of the paths it keeps what many begin with once, and at most 256
/// bytes more of each, with some 60 for its owner, its hash and its place, so its memory is in step
/// with the text that came, whoever named the files. A path that stands in the search tree of which
/// `feed` tells takes up to some 350 bytes more, as its key has these 256 bytes once more; whoever
/// names the files may choose many such paths. Only a file that waits to be taken has its whole
/// path. Of earlier entries, also of another text, it keeps the keywords of one and the directory of
/// one, and of files that `reuse` took the memory of at most 64 paths, of 4096 bytes at most each.
///
/// Of texts that are to come twice it can also keep a hash of each path, 8 bytes, by which their
/// second reading is faster (`keep_hashes`). What it answers never depends on these.
#[derive(Drop)]
pub struct Reader {
    parts: Parts,
    past: Past,
    fault: Option<ReadError>,
    is_finished: bool,
}

impl Model for Reader {
    ghost use Rattle.mtree_inv.specs.Standing.{ReaderValue};

    ghost Value = { ReaderValue };

    ghost use Rattle.mtree_inv.specs.Parts.{most_of, reading_of, files_of_parts, waiting_in};

    ghost view = { λ r. record {
      most = most_of r.parts;
      files = files_of_parts r.parts;
      waiting = waiting_in r.parts;
      fault = r.fault;
      is_finished = r.is_finished;
      reading = reading_of r.parts;
    } };
}

impl Reader {
    ghost use Rattle.std.specs.Prelude.{◌≡◌, ◌++◌, ◌∷◌, ℕ, List, [], true, false, None, Some, Err};
    ghost use Rattle.std.specs.Prelude.{IfSome, IfNone, IfErr, MatchOption, MatchResult};
    ghost use Rattle.idtext.specs.First.{Gives};
    ghost use Rattle.mtree_inv.specs.Logical.{whole_lines};
    ghost use Rattle.mtree_inv.specs.Inventory.{accepted_files, inventory_of_lines, inventory};
    ghost use Rattle.mtree_inv.specs.Standing.{AreLeftBy, StandsFor, GrowAlike, files};
    ghost use Rattle.mtree_inv.specs.Standing.{files_before_fault};
    ghost use Rattle.idtext.specs.Faults.{fault_told};

    /// A reader of a text with at most `most` files, of which nothing has come. Takes no memory
    /// yet: `alloc` is where it will grow.
    pub fn new(alloc: Global, most: u32) -> Self
        ensures stands { StandsFor result [] }
        ensures most { result.most ≡ most }
        ensures fault { result.fault ≡ None }
        ensures going { result.is_finished ≡ false }
        ensures waiting { result.waiting ≡ [] }
        ensures files { files result ≡ [] }
    {
        Reader {
            parts: Parts::new(alloc, most),
            past: Past::new(alloc),
            fault: None,
            is_finished: false,
        }
    }

    /// Is as a new reader then, for the next text, but keeps memory: that of its table of paths, of
    /// the list of files that wait to be taken, and all that it keeps of earlier entries. So a reader
    /// of many texts asks for it once, and none of it need grow again for each. It gives back what
    /// many paths begin with and what stood in search trees, and of a text with more than 1,048,576
    /// files the whole table of paths.
    ///
    /// Constant time for each place that the table has, at most some four for each file of the
    /// longest text that was kept, for each path in a search tree, and for each file that waits.
    /// Where hashes are kept, one copy of the hash of each path, and for each path in a search tree
    /// one look-up in another.
    pub fn restart(&mut self, most: u32)
        ensures stands { StandsFor self.new [] }
        ensures most { self.new.most ≡ most }
        ensures fault { self.new.fault ≡ None }
        ensures going { self.new.is_finished ≡ false }
        ensures waiting { self.new.waiting ≡ [] }
        ensures files { files self.new ≡ [] }
    {
        let expected = self.past.next_text(&self.parts);
        self.begin(most, expected);
    }

    /// Is as after a `restart`, and gives its memory back, but for the hashes that it keeps: for a
    /// reader that has no next text for now.
    ///
    /// Constant time for each path in a search tree, and for each file that waits; where hashes are
    /// kept, the time of a `restart`.
    pub fn give_back(&mut self, most: u32)
        ensures stands { StandsFor self.new [] }
        ensures most { self.new.most ≡ most }
        ensures fault { self.new.fault ≡ None }
        ensures going { self.new.is_finished ≡ false }
        ensures waiting { self.new.waiting ≡ [] }
        ensures files { files self.new ≡ [] }
    {
        let expected = self.past.next_text(&self.parts);
        self.parts = Parts::new(self.parts.alloc, most);
        self.begin(most, expected);
    }

    // Is as a new reader then, for a text whose paths are expected to have these hashes.
    fn begin(&mut self, most: u32, expected: CutHashes)
        ensures stands { StandsFor self.new [] }
        ensures most { self.new.most ≡ most }
        ensures fault { self.new.fault ≡ None }
        ensures going { self.new.is_finished ≡ false }
        ensures waiting { self.new.waiting ≡ [] }
        ensures files { files self.new ≡ [] }
    {
        self.parts.restart(most, expected);
        self.fault = None;
        self.is_finished = false;
    }

    /// From now on keeps the hashes of the paths of each text, from the one in progress on, when
    /// the next begins: for a second reading of the same texts, one after the other, after
    /// `rewind`. Hashes that were kept before are given back. Constant time for each text of these.
    ///
    /// Each path takes 8 bytes until its text has come once more. None are kept of a text of which
    /// two paths have one hash, as whoever names the files can bring about, nor where memory is
    /// refused, nor where there would be more than 67,108,864 in all. Then that text is read as
    /// always; and all are where there is no memory to tell one text from the next.
    pub fn keep_hashes(&mut self)
        ensures { self.new ≡ self.old }
    {
        self.past.keep();
    }

    /// Is as a new reader then, and gives its memory back, but for the hashes that it keeps: the
    /// texts that came since `keep_hashes` are expected once more, one after the other, the first
    /// now and the next after each `restart`. As long as the paths of a text come with the hashes
    /// that are kept, each is known to be new by a comparison with one hash, and no table of paths
    /// is made, nor looked at. So the second reading of a host with many files is faster, and takes
    /// less memory.
    ///
    /// They may be any other texts, or come in another order. The first path that has not the hash
    /// of the one expected in its place only ends this for its text: all paths so far are put into
    /// the table then, in the time that it had saved.
    ///
    /// After a second `rewind` nothing is expected, nor after one without `keep_hashes`. It
    /// takes the time of `give_back`.
    pub fn rewind(&mut self, most: u32)
        ensures stands { StandsFor self.new [] }
        ensures most { self.new.most ≡ most }
        ensures fault { self.new.fault ≡ None }
        ensures going { self.new.is_finished ≡ false }
        ensures waiting { self.new.waiting ≡ [] }
        ensures files { files self.new ≡ [] }
    {
        let expected = self.past.first_text(&self.parts);
        self.parts = Parts::new(self.parts.alloc, most);
        self.begin(most, expected);
    }

    /// Takes the next piece of the text, which must not be finished. The answer is
    /// `ReadError::Fault` exactly where the whole logical lines so far have a fault, with the
    /// first, and `ReadError::Memory` where memory that it needs was refused. After an error the
    /// files are those of these lines before the first fault, after `Memory` the first of those;
    /// none is of the line in progress. They can still be taken. Each later call answers that error
    /// again and changes nothing.
    ///
    /// One pass over the piece and over the whole path of each entry. For each 256 bytes of a path
    /// there is one look-up by hash, which looks at 16 places at most. Only where these are taken,
    /// as where somebody chose the paths so, it goes on in a search tree, of digests first, so that
    /// bytes are hardly ever compared. A search tree compares the keys of a node one by one: up to
    /// four comparisons for each binary digit of how many there are, and one and a half to two on
    /// the average.
    pub fn feed(&mut self, piece: &[u8]) -> Result<(), ReadError>
        requires { self.old.is_finished ≡ false }
        ensures stands { (text : List ℕ) → StandsFor self.old text
            → StandsFor self.new (text ++ piece.now) }
        ensures told { (text : List ℕ) → StandsFor self.old text
            → IfNone self.old.fault
            (Gives (λ _. files self.new) fault_told result
            (inventory_of_lines self.old.most (whole_lines (text ++ piece.now)))) }
        ensures ended { (text : List ℕ) → StandsFor self.old text
            → IfNone self.old.fault
            (IfErr result
            (λ e. IfSome (fault_told e)
            (λ f. (more : List ℕ) → inventory self.old.most ((text ++ piece.now) ++ more)
            ≡ Err f))) }
        ensures read { (text : List ℕ) → StandsFor self.old text
            → IfNone self.old.fault
            (IfErr result
            (λ e. AreLeftBy e (files self.new)
            (accepted_files self.old.most (whole_lines (text ++ piece.now))))) }
        ensures failed { IfSome self.old.fault (λ f. (result ≡ Err f) × (self.new ≡ self.old)) }
        ensures fault { IfNone self.old.fault
            (MatchResult result (λ _. self.new.fault ≡ None) (λ f. self.new.fault ≡ Some f)) }
        ensures grow { GrowAlike (files self.old) (files self.new) self.old.waiting
            self.new.waiting }
        ensures most { self.new.most ≡ self.old.most }
        ensures going { self.new.is_finished ≡ false }
    {
        if let Some(fault) = self.fault {
            return Err(fault);
        }
        match self.parts.take_piece(piece) {
            Ok(()) => Ok(()),
            Err(fault) => {
                self.fault = Some(fault);
                Err(fault)
            }
        }
    }

    /// Takes the end of the text, which must not be finished. The answer is `ReadError::Fault`
    /// exactly where the whole text has a fault, with the first, and `ReadError::Memory` where
    /// memory was refused. After an error the files are those of its logical lines before the first
    /// fault, after `Memory` the first of those. They can still be taken. Each later call answers
    /// that error again and changes nothing.
    ///
    /// At most one line, the last, is still to be read here.
    pub fn finish(&mut self) -> Result<(), ReadError>
        requires { self.old.is_finished ≡ false }
        ensures stands { (text : List ℕ) → StandsFor self.old text → StandsFor self.new text }
        ensures told { (text : List ℕ) → StandsFor self.old text
            → IfNone self.old.fault
            (Gives (λ _. files self.new) fault_told result (inventory self.old.most text)) }
        ensures read { (text : List ℕ) → StandsFor self.old text
            → IfNone self.old.fault
            (IfErr result
            (λ e. AreLeftBy e (files self.new) (files_before_fault self.old.most text))) }
        ensures failed { IfSome self.old.fault (λ f. (result ≡ Err f) × (self.new ≡ self.old)) }
        ensures fault { IfNone self.old.fault
            (MatchResult result (λ _. (self.new.fault ≡ None) × (self.new.is_finished ≡ true))
            (λ f. (self.new.fault ≡ Some f) × (self.new.is_finished ≡ false))) }
        ensures grow { GrowAlike (files self.old) (files self.new) self.old.waiting
            self.new.waiting }
        ensures most { self.new.most ≡ self.old.most }
    {
        if let Some(fault) = self.fault {
            return Err(fault);
        }
        match self.parts.take_end() {
            Ok(()) => {
                self.is_finished = true;
                Ok(())
            }
            Err(fault) => {
                self.fault = Some(fault);
                Err(fault)
            }
        }
    }

    /// Whether a `finish` was answered with `Ok`. Takes no memory.
    pub fn is_finished(&self) -> bool
        ensures { result ≡ self.now.is_finished }
    {
        self.is_finished
    }

    /// The next of the files so far, in order of first appearance, until all were handed out. Takes
    /// no memory, and constant time.
    pub fn next_entry(&mut self) -> Option<Entry>
        ensures next { MatchOption result ((self.old.waiting ≡ []) × (self.new.waiting ≡ []))
            (λ entry. self.old.waiting ≡ entry ∷ self.new.waiting) }
        ensures stays { self.new ≡ record self.old { waiting = self.new.waiting } }
        ensures stands { (text : List ℕ) → StandsFor self.old text → StandsFor self.new text }
    {
        self.parts.take()
    }

    /// Takes back a file that is no longer needed, so that the memory of its path serves a path to
    /// come, which may then have more room than it needs. Changes nothing of what the reader answers.
    /// Takes constant time, and no memory but for a list of at most 64 paths, with room for at most
    /// 4096 bytes each, that are kept so; where that is refused, the path is let go.
    pub fn reuse(&mut self, entry: Entry)
        ensures { self.new ≡ self.old }
    {
        self.parts.reuse(entry.path.into_vec());
    }
}
