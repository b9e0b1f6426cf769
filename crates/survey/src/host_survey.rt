//! The inventory of one host, which comes in pieces and whose numbers without an account are noted.

ghost use Rattle.std.specs.Prelude.{◌≡◌, ◌++◌, ℕ, List, [], OnErr, OnOk};
ghost use Rattle.idtext.specs.Faults.{fault_told};
ghost use Rattle.idtext.specs.First.{Yields};
ghost use Rattle.mtree_inv.specs.Inventory.{inventory, inventory_of_lines};
ghost use Rattle.mtree_inv.specs.Logical.{whole_lines};
ghost use Rattle.mtree_inv.specs.declared.entry.Entry.{Entry};
ghost use Rattle.hosts_join.specs.declared.host.Host.{Host};
ghost use Rattle.survey.specs.Surveying.{HasNumbersOf, StandsFor};
ghost use Rattle.survey.specs.Unowned.{unowned_with};

use crate::noting::{NotedNumbers, no_numbers, note_waiting, push_numbers};
use hosts_join::Host;
use idtext::ReadError;
use kept_accounts::UnownedNumbers;
use mtree_inv::Reader;
use std::alloc::{AllocError, Global};

/// A survey of the files of one host, whose inventory comes in pieces, however it is cut: which
/// numbers they have that no account of the host has, and that the host does not spare, each once,
/// in the order in which files have them first. The inventory is read by mtree(5) and the profile
/// that the page of `mtree_inv` states.
///
/// It keeps those numbers, what the reader keeps, and no text.
#[derive(Drop)]
pub struct HostSurvey {
    reader: Reader,
    noted: NotedNumbers,
}

impl HostSurvey {
    /// A survey of a host, whichever, of whose inventory nothing has come; `most` files are the
    /// most that it takes. Takes no memory yet: `alloc` is where it will grow.
    pub fn new(alloc: Global, most: u32) -> Self
        ensures { (host : Host) → StandsFor most host result [] }
    {
        HostSurvey {
            reader: Reader::new(alloc, most),
            noted: no_numbers(alloc),
        }
    }

    /// Takes the next piece of the inventory of the host. The answer is `ReadError::Fault` exactly
    /// where the whole logical lines so far have a fault, with the first, and `ReadError::Memory`
    /// where memory was refused. After either the survey is of no use. Requires that no call before
    /// was refused, that the inventory was not ended, and that all calls name one host.
    ///
    /// What `mtree_inv::Reader::feed` takes, and for each file two look-ups by hash, a bisection
    /// for a number that no account has, and where the host does not spare it either a look-up in
    /// a tree of those that were found.
    pub fn piece(&mut self, host: &Host<'_>, bytes: &[u8]) -> Result<(), ReadError>
        requires { (most : ℕ) × (text : List ℕ) × StandsFor most host.now self.old text }
        ensures told { (most : ℕ) (text : List ℕ) → StandsFor most host.now self.old text
            → Yields (λ files _. HasNumbersOf host.now files self.new) fault_told result
            (inventory_of_lines most (whole_lines (text ++ bytes.now))) }
        ensures stands { OnOk result
            ((most : ℕ) (text : List ℕ) → StandsFor most host.now self.old text
            → StandsFor most host.now self.new (text ++ bytes.now)) }
    {
        self.reader.feed(bytes)?;
        note_waiting(&mut self.reader, &mut self.noted, host)?;
        Ok(())
    }

    /// Takes the end of the inventory of the host. The answer is `ReadError::Fault` exactly where
    /// the whole text has a fault, with the first, and `ReadError::Memory` where memory was
    /// refused. After either the survey is of no use; after `Ok` it has the numbers of all files,
    /// and takes no more. Requires what `piece` requires.
    ///
    /// At most one line, the last, is still to be read here.
    pub fn end(&mut self, host: &Host<'_>) -> Result<(), ReadError>
        requires { (most : ℕ) × (text : List ℕ) × StandsFor most host.now self.old text }
        ensures { (most : ℕ) (text : List ℕ) → StandsFor most host.now self.old text
            → Yields (λ files _. HasNumbersOf host.now files self.new) fault_told result
            (inventory most text) }
    {
        self.reader.finish()?;
        note_waiting(&mut self.reader, &mut self.noted, host)?;
        Ok(())
    }

    /// Appends the numbers of the files of the host, each with its name. Time in step with them.
    /// `AllocError` where a growth was refused; what was found before is then as it was.
    pub fn push_to<'a>(
        &self,
        host: &Host<'a>,
        found: &mut UnownedNumbers<'a>,
    ) -> Result<(), AllocError>
        ensures pushed { OnOk result ((files : List Entry) → HasNumbersOf host.now files self.now
            → found.new ≡ unowned_with found.old host.now files) }
        ensures kept { OnErr result (found.new ≡ found.old) }
    {
        let before = found.users.len();
        push_numbers(&mut found.users, host, self.noted.users.numbers())?;
        let pushed = push_numbers(&mut found.groups, host, self.noted.groups.numbers());
        if pushed.is_err() {
            found.users.truncate(before);
        }
        pushed
    }
}
