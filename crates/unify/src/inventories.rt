//! The inventories of a site's hosts, which come in pieces: their files are counted for the rows of
//! their host's tables.

ghost use Rattle.std.specs.Prelude.{◌≡◌, ◌+◌, ◌++◌, ◌∷◌, [], length, Some, OnOk, OnErr, slice_get};
ghost use Rattle.hosts_join.specs.declared.host.Host.{Host};
ghost use Rattle.unify.specs.Turns.{TurnsFor};

use crate::row_files::{RowFiles, no_files};
use crate::text_log::{Call, TextLog};
use crate::turn::{Turn, begin_next, end_turn, feed_turn, new_turn};
use hosts_join::Host;
use std::alloc::{AllocError, Global};
use std::marker::Model;
use std::mem;
use unify_texts::Fault;

/// Inventories that come in pieces, host by host, and whose files are counted. It keeps the tables
/// of the hosts, which borrow their texts, how many files each row owns of each host that was
/// ended, and of the present inventory each path once; no text of an inventory is kept. Where the
/// inventories are to come a second time it keeps a hash of each path too.
#[derive(Drop)]
pub struct Inventories<'a> {
    pub(crate) alloc: Global,
    pub(crate) hosts: Vec<Host<'a>>,
    pub(crate) passed: Vec<RowFiles>,
    pub(crate) turn: Turn,
    pub(crate) log: TextLog,
}

impl<'a> Model for Inventories<'a> {
    ghost use Rattle.unify.specs.Passes.{InventoriesValue};

    ghost Value = { InventoriesValue };

    ghost use Rattle.unify.specs.Turns.{AreComing, pass_of, seen};

    ghost view = { λ c. seen (pass_of c) };

    ghost invariant = { λ c. AreComing (pass_of c) };
}

// Notes how many files each row of the present host owns, and begins the turn of the host after
// it, if there is one.
fn next_host(
    alloc: Global,
    hosts: &[Host<'_>],
    passed: &mut Vec<RowFiles>,
    turn: &mut Turn,
) -> Result<(), AllocError>
    ensures refused { OnErr result
        ((passed.new.items ≡ passed.old.items) × (turn.new.reader ≡ turn.old.reader)
        × (turn.new.unowned ≡ turn.old.unowned)) }
    ensures passed { OnOk result (passed.new.items ≡ passed.old.items ++ turn.old.rows ∷ []) }
    ensures next { OnOk result
        ((host : Host) → slice_get hosts.now (length passed.old.items + 1) ≡ Some host
        → TurnsFor host turn.new []) }
{
    let next = no_files(alloc, hosts, passed.len() + 1)?;
    let rows = mem::replace(&mut turn.rows, next);
    passed.push(rows)?;
    begin_next(&mut turn.reader, passed.len() < hosts.len());
    turn.unowned = None;
    Ok(())
}

impl<'a> Inventories<'a> {
    ghost use Rattle.std.specs.Prelude.{◌≡◌, ◌-◌, ◌<◌, ◌≤◌, ◌++◌, ◌∷◌, [], List, All, length, Some};
    ghost use Rattle.std.specs.Prelude.{Ok, IfSome, IfNone, IfOk, IfErr, OnOk};
    ghost use Rattle.idtext.specs.First.{Gives};
    ghost use Rattle.mtree_inv.specs.declared.entry.Entry.{Entry};
    ghost use Rattle.hosts_join.specs.Hosts.{IsLawfulHost};
    ghost use Rattle.hosts_join.specs.declared.host.Host.{Host};
    ghost use Rattle.unify_texts.specs.declared.fault.Fault.{Fault};
    ghost use Rattle.unify_texts.specs.Told.{told};
    ghost use Rattle.site_tables.specs.Hosts.{files_of, lines_of};
    ghost use Rattle.unify.specs.Passes.{at_start, ended_in, is_read, read_in, IsNext};
    ghost use Rattle.unify.specs.Passes.{IsFaultOf, IsToldAs, TellsFault};

    /// The inventories of these hosts, of which none has come. Memory in step with the rows of a
    /// host.
    pub fn of(alloc: Global, hosts: Vec<Host<'a>>) -> Result<Inventories<'a>, AllocError>
        requires few { length hosts.items ≤ 64 }
        requires lawful { All IsLawfulHost hosts.items }
        ensures { IfOk result (λ c. c ≡ at_start hosts.entry.items) }
    {
        let rows = no_files(alloc, &hosts, 0)?;
        Ok(Inventories {
            alloc,
            hosts,
            passed: Vec::new(alloc),
            turn: new_turn(alloc, rows),
            log: TextLog::new(),
        })
    }

    /// The inventories will come a second time: keeps 8 bytes for each path, of 16,777,216 at most,
    /// so that the second reading takes less time. It takes no memory by itself, and is for
    /// inventories of which none has come.
    pub fn expect_second_reading(&mut self)
        ensures { self.new ≡ self.old }
    {
        self.turn.reader.keep_hashes();
    }

    /// Takes the next bytes of the inventory of the present host. Requires that a host is left.
    ///
    /// The answer is exactly the first reader fault of the whole logical lines so far, or want of
    /// memory; a file that the host does not allow is told by `end_host`. A new fault that it
    /// answers is the one that is met. Once a fault is met, of either call, the answer is always
    /// that one, or want of memory to tell it, and nothing changes.
    ///
    /// One pass over the bytes, and two look-ups by hash for each file.
    pub fn piece(&mut self, bytes: &[u8]) -> Result<(), Fault<'a>>
        requires left { ended_in self.old < length self.old.hosts }
        ensures told { (host : Host) → IsNext self.old host
            → Gives (λ _. tt) told result (is_read (lines_of host (self.old.text ++ bytes.now))) }
        ensures come { OnOk result
            (self.new ≡ record self.old { text = self.old.text ++ bytes.now }) }
        ensures met { IfNone self.old.met
            (IfErr result (λ e. self.new ≡ record self.old { met = Some e })) }
        ensures again { IfSome self.old.met (λ f. TellsFault f result × (self.new ≡ self.old)) }
    {
        let index = self.passed.len();
        let host = &self.hosts[index];
        feed_turn(self.alloc, &mut self.turn, host, bytes)?;
        self.log.note(&Call::Piece(bytes));
        Ok(())
    }

    /// Ends the inventory of the present host. Requires that a host is left.
    ///
    /// The answer is exactly the first fault of the whole inventory, and else its first file that
    /// the host does not allow, uid before gid; or want of memory. What is met then is such a fault
    /// too, that of the file where memory was wanting only to tell it. Once a fault is met, of
    /// either call, the answer is always that one, or want of memory to tell it, and nothing
    /// changes. At most one line is still to be read here.
    pub fn end_host(&mut self) -> Result<(), Fault<'a>>
        requires left { ended_in self.old < length self.old.hosts }
        ensures told { (host : Host) → IsNext self.old host
            → Gives (λ _. tt) told result
            (is_read (files_of (record { host = host; mtree = self.old.text }))) }
        ensures ended { OnOk result
            (self.new
            ≡ record self.old { ended = self.old.ended ++ self.old.text ∷ []; text = [] }) }
        ensures read { OnOk result
            ((read : List (Host × List Entry)) × (read_in self.new ≡ Ok read)) }
        ensures refused { IfErr result
            (λ e. (f : Fault) × (self.new ≡ record self.old { met = Some f }) × IsToldAs f e) }
        ensures met { (host : Host) → IsNext self.old host
            → IfErr result (λ _. IfSome self.new.met (IsFaultOf host self.old.text)) }
        ensures again { IfSome self.old.met (λ f. TellsFault f result × (self.new ≡ self.old)) }
    {
        let index = self.passed.len();
        let host = &self.hosts[index];
        end_turn(self.alloc, &mut self.turn, host)?;
        next_host(self.alloc, &self.hosts, &mut self.passed, &mut self.turn)?;
        self.log.note(&Call::End);
        Ok(())
    }

    /// How many hosts' inventories have not been ended. No cost.
    pub fn hosts_left(&self) -> usize
        ensures left { result ≡ length self.now.hosts - ended_in self.now }
        ensures within { ended_in self.now ≤ length self.now.hosts }
    {
        self.hosts.len() - self.passed.len()
    }
}
