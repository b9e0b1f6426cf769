//! The second pass over inventories that come in pieces: plans are appended.

ghost use Rattle.std.specs.Prelude.{◌≡◌};
ghost use Rattle.unify.specs.PlanTurns.{stop_told};

use crate::merging::Merged;
use crate::outcome::Outcome;
use crate::plan_turn::{PlanTurn, PlannedHost, Stop, feed_plan, finish_plan, next_turn};
use crate::row_files::RowFiles;
use crate::text_log::{Call, TextLog};
use hosts_join::{Host, Site};
use idtext::Name;
use mergedfiles::{host_group_text, host_passwd_text};
use std::alloc::{AllocError, Global};
use std::marker::Model;
use unify_texts::Fault;

/// A site that was merged, whose inventories come a second time in pieces, host by host, while
/// plans are appended. It keeps the tables of the hosts, what was merged, how many files each of
/// their rows owned in the first pass and owns so far in this one, of the present inventory each
/// path once and, in half a megabyte, what was found of its owners, and the hashes that the first
/// pass kept, if they were to be kept; no text of an inventory and no plan is kept.
#[derive(Drop)]
pub struct Solved<'a> {
    pub(crate) alloc: Global,
    pub(crate) hosts: Vec<Host<'a>>,
    pub(crate) site: Site<'a>,
    pub(crate) passed: Vec<RowFiles>,
    pub(crate) merged: Merged,
    pub(crate) ended: usize,
    pub(crate) turn: PlanTurn,
    pub(crate) first: TextLog,
    pub(crate) log: TextLog,
}

impl<'a> Model for Solved<'a> {
    ghost use Rattle.unify.specs.SecondPass.{SolvedValue};

    ghost Value = { SolvedValue };

    ghost use Rattle.unify.specs.PlanTurns.{IsSolving, pass_of, seen};

    ghost view = { λ s. seen (pass_of s) };

    ghost invariant = { λ s. IsSolving (pass_of s) };
}

// Why the reading of a host's second inventory ended, as it is told.
fn stopped<'a>(host: &Host<'a>, stop: Stop) -> Fault<'a>
    ensures { result ≡ stop_told host.now stop }
{
    match stop {
        Stop::Changed => Fault::InventoryChanged(Name::new(host.name.bytes())),
        Stop::Memory => Fault::Memory,
    }
}

impl<'a> Solved<'a> {
    ghost use Rattle.std.specs.Prelude.{◌≡◌, ◌-◌, ◌<◌, ◌≤◌, ◌++◌, ◌∷◌, [], ℕ, List, length, Ok};
    ghost use Rattle.std.specs.Prelude.{Err, Some, IfSome, IfOk, IfErr, OnOk, MatchResult};
    ghost use Rattle.std.specs.Prelude.{slice_get};
    ghost use Rattle.idtext.specs.First.{Gives};
    ghost use Rattle.mtree_inv.specs.declared.entry.Entry.{Entry};
    ghost use Rattle.hosts_join.specs.declared.host.Host.{Host};
    ghost use Rattle.mergedfiles.specs.HostFiles.{host_groups, host_users};
    ghost use Rattle.unify_texts.specs.Told.{told};
    ghost use Rattle.unify_texts.specs.declared.fault.Fault.TheVariants.{InventoryChanged};
    ghost use Rattle.unify.specs.Passes.{is_read};
    ghost use Rattle.unify.specs.SecondPass.{HaveSameCounts, IsNext, IsPlannedSoFar, IsUnfinished};
    ghost use Rattle.unify.specs.SecondPass.{WereFirst, ended_in, second_files, second_lines};
    ghost use Rattle.unify.specs.SecondPass.{whole_plan};

    /// What was merged; its list of plans is empty. No cost.
    pub fn outcome(&self) -> &Outcome
        ensures { result.now ≡ self.now.merged.outcome }
    {
        &self.merged.outcome
    }

    /// What was merged; its list of plans is empty. No cost.
    pub fn into_outcome(self) -> Outcome
        ensures { result ≡ self.entry.merged.outcome }
    {
        let Solved { merged, .. } = self;
        merged.outcome
    }

    /// Takes the next bytes of the second inventory of the present host, and appends to the plan of
    /// the host. Requires that a host is left.
    ///
    /// `Fault::InventoryChanged` is answered exactly where the whole logical lines so far have a
    /// fault, or a file that the host does not allow. After a fault of either call, want of memory
    /// too, it is always that one, and nothing changes. After a fault all that the calls for this
    /// host have appended is a prefix of a plan without its `end` line, for files that the text has
    /// before its first fault. The first piece appends the header, even if it is empty.
    ///
    /// One pass over the bytes, and two look-ups by hash for each file of whose owner nothing is
    /// kept.
    pub fn piece(&mut self, bytes: &[u8], plan: &mut Vec<u8>) -> Result<(), Fault<'a>>
        requires left { ended_in self.old < length self.old.hosts }
        ensures told { (host : Host) → IsNext self.old host
            → Gives (λ _. tt) told result
            (is_read (second_lines host (self.old.text ++ bytes.now))) }
        ensures planned { (host : Host) → IsNext self.old host → (more : List ℕ)
            × (plan.new.items ≡ plan.old.items ++ more)
            × MatchResult result
            (λ _. (self.new
            ≡ record self.old {
              text = self.old.text ++ bytes.now;
              planned = self.old.planned ++ more;
            }) × IsPlannedSoFar self.new host)
            (λ _. IsUnfinished host self.old.joined self.old.merged (ended_in self.old)
            (self.old.text ++ bytes.now) (self.old.planned ++ more)) }
        ensures stopped { IfErr result (λ e. self.new ≡ record self.old { met = Some e }) }
        ensures again { IfSome self.old.met
            (λ f. (result ≡ Err f) × (self.new ≡ self.old) × (plan.new ≡ plan.old)) }
    {
        let host = &self.hosts[self.ended];
        let whose = PlannedHost {
            host,
            index: self.ended as u32,
            site: &self.site,
            merged: &self.merged,
        };
        let before = plan.len();
        if let Err(stop) = feed_plan(&mut self.turn, &whose, bytes, plan) {
            return Err(stopped(host, stop));
        }
        self.log.note(&Call::Planned(bytes, before, plan));
        Ok(())
    }

    /// Ends the second inventory of the present host, and its plan. Requires that a host is left.
    ///
    /// `Fault::InventoryChanged` is answered exactly where the whole inventory has a fault, or a
    /// file that the host does not allow, or where a user or a group of the host does not own as
    /// many of its files as in the first pass. After a fault of either call, want of memory too, it
    /// is always that one, and nothing changes. After a fault all that the calls for this host
    /// have appended is a prefix of a plan without its `end` line, for files that the text has
    /// before its first fault.
    pub fn end_host(&mut self, plan: &mut Vec<u8>) -> Result<(), Fault<'a>>
        requires left { ended_in self.old < length self.old.hosts }
        ensures told { (host : Host) (were : List Entry) → IsNext self.old host
            → WereFirst self.old host were
            → MatchResult result
            (λ _. (files : List Entry) × (second_files host self.old.text ≡ Ok files)
            × HaveSameCounts host were files)
            (λ e. IfSome (told e)
            (λ f. (f ≡ InventoryChanged host.name)
            × ((files : List Entry) → second_files host self.old.text ≡ Ok files
            → HaveSameCounts host were files → ⊥))) }
        ensures planned { (host : Host) → IsNext self.old host → (more : List ℕ)
            × (plan.new.items ≡ plan.old.items ++ more)
            × MatchResult result
            (λ _. (files : List Entry) × (second_files host self.old.text ≡ Ok files)
            × (self.old.planned ++ more
            ≡ whole_plan host self.old.joined self.old.merged (ended_in self.old) files))
            (λ _. IsUnfinished host self.old.joined self.old.merged (ended_in self.old)
            self.old.text (self.old.planned ++ more)) }
        ensures ended { OnOk result
            (self.new
            ≡ record self.old {
              ended = self.old.ended ++ self.old.text ∷ [];
              text = [];
              planned = [];
            }) }
        ensures stopped { IfErr result (λ e. self.new ≡ record self.old { met = Some e }) }
        ensures again { IfSome self.old.met
            (λ f. (result ≡ Err f) × (self.new ≡ self.old) × (plan.new ≡ plan.old)) }
    {
        let host = &self.hosts[self.ended];
        let whose = PlannedHost {
            host,
            index: self.ended as u32,
            site: &self.site,
            merged: &self.merged,
        };
        let first = &self.passed[self.ended];
        if let Err(stop) = finish_plan(&mut self.turn, &whose, first, plan) {
            return Err(stopped(host, stop));
        }
        let next = self.ended + 1;
        if let Err(_) = next_turn(
            self.alloc,
            &mut self.turn,
            self.hosts.as_slice(),
            next,
            plan,
        ) {
            self.turn.stop = Some(Stop::Memory);
            return Err(Fault::Memory);
        }
        self.ended = next;
        self.log.note(&Call::End);
        Ok(())
    }

    /// A host's own passwd with its new numbers, of the text that its table was read from: in the
    /// line of each user the uid is the new number of its name and the gid that of its primary
    /// group, and every other byte is as it was. Of any other text the uid of a name that no host
    /// has stays, and so does a gid that is of no group of the host. Requires that there is a host
    /// with the index.
    ///
    /// One pass over the text, without a look-up for a user where the text is that of the host's
    /// table, and with two by hash where its primary group is not that of the user before. Memory
    /// for the new text alone.
    ///
    /// # Errors
    ///
    /// `AllocError` where memory is refused.
    pub fn host_passwd(&self, index: usize, text: &[u8]) -> Result<Vec<u8>, AllocError>
        requires within { index < length self.now.hosts }
        ensures { IfOk result
            (λ new. (host : Host) → slice_get self.now.hosts index ≡ Some host
            → new.items ≡ host_users host self.now.joined self.now.merged.mappings text.now) }
    {
        host_passwd_text(
            self.alloc,
            text,
            index as u32,
            &self.hosts[index],
            &self.site,
            &self.merged.mappings,
        )
    }

    /// A host's own group with its new numbers, of the text that its table was read from: in the
    /// line of each group the gid is the new number of its name, and every other byte is as it was.
    /// Of any other text the gid of a name that no host has stays.
    ///
    /// One pass over the text, with one look-up by hash for each group. Memory for the new text
    /// alone.
    ///
    /// # Errors
    ///
    /// `AllocError` where memory is refused.
    pub fn host_group(&self, text: &[u8]) -> Result<Vec<u8>, AllocError>
        ensures { IfOk result
            (λ new. new.items
            ≡ host_groups self.now.joined self.now.merged.mappings.groups text.now) }
    {
        host_group_text(self.alloc, text, &self.site, &self.merged.mappings.groups)
    }

    /// How many hosts' inventories have not been ended a second time. No cost.
    pub fn hosts_left(&self) -> usize
        ensures left { result ≡ length self.now.hosts - ended_in self.now }
        ensures within { ended_in self.now ≤ length self.now.hosts }
    {
        self.hosts.len() - self.ended
    }
}
