//! The rehearsal of a whole site.

ghost use Rattle.std.specs.Prelude.{◌≡◌, ◌<◌, List, length, map, None, All, IfOk, MatchResult, Ok};
ghost use Rattle.idtext.specs.First.{Yields, each};
ghost use Rattle.mtree_inv.specs.Inventory.{inventory};
ghost use Rattle.mtree_inv.specs.declared.entry.Entry.{Entry};
ghost use Rattle.reown_plan.specs.PlanData.{PlanData};
ghost use Rattle.reown_plan.specs.Spelling.{spelling, IsLawful};
ghost use Rattle.reown_runner.specs.Campaign.{host_of, is_done};
ghost use Rattle.unify_texts.specs.Told.{told};
ghost use Rattle.unify_bundle.specs.Carrying.{AreInventoriesOf, AreReady, AreCarriedOut};
ghost use Rattle.unify_bundle.specs.Carrying.{AreSpelledFor, new_tree_of};
ghost use Rattle.unify_texts.specs.Limits.{most_files};
ghost use Rattle.unify.specs.Whole.{IsWhole};
ghost use Rattle.unify.specs.Outcomes.{IsOutcome};
ghost use Rattle.unify.specs.Reading.{WholeSite, site_read};
ghost use Rattle.unify_bundle.specs.SiteRuns.{IsSiteRun};

use crate::texts::merge;
use hosts_join::HostText;
use idtext::Name;
use mtree_inv::{Inventory, read_inventory};
use reown_plan::{Plan, PlanFault};
use reown_runner::{Campaign, Event, Keep, MemTree};
use site_tables::SiteRules;
use std::alloc::{AllocError, Global};
use unify::{Outcome, TextList};
use unify_texts::{Fault, MOST_FILES};

/// A site that was merged, and whose plans were carried out on trees in memory.
#[derive(Drop)]
pub struct SiteRun {
    /// What the merge writes.
    pub outcome: Outcome,
    /// Whether each host's plan is done, in the order of the hosts.
    pub done: Vec<bool>,
    /// The tree of each host, in the same order.
    pub trees: Vec<MemTree>,
}

// How far plans were carried out: whether each is done, and the trees.
#[derive(Drop)]
struct CarriedOut {
    done: Vec<bool>,
    trees: Vec<MemTree>,
}

// The files of an inventory that was read before. It fails for want of memory alone.
fn read_again(alloc: Global, mtree: &[u8]) -> Result<Inventory, AllocError>
    requires { (files : List Entry) × (inventory most_files mtree.now ≡ Ok files) }
    ensures { IfOk result (λ read. inventory most_files mtree.now ≡ Ok read) }
{
    match read_inventory(alloc, mtree, MOST_FILES) {
        Ok(files) => Ok(files),
        Err(_) => Err(AllocError),
    }
}

// The texts of the inventories.
fn mtrees_of<'a>(alloc: Global, texts: &'a [HostText]) -> Result<Vec<Name<'a>>, AllocError>
    ensures { IfOk result (λ mtrees. mtrees.items ≡ map (λ t. t.mtree) texts.now) }
{
    texts
        .iter()
        .map(|text| Name::new(text.mtree.bytes()))
        .collect(alloc)
}

// A tree as an inventory that was read before.
fn new_tree(alloc: Global, mtree: &[u8], keep: Keep) -> Result<MemTree, AllocError>
    requires { (files : List Entry) × (inventory most_files mtree.now ≡ Ok files) }
    ensures { IfOk result (λ tree. (files : List Entry)
        × (inventory most_files mtree.now ≡ Ok files) × (tree ≡ new_tree_of keep files)) }
{
    let files = read_again(alloc, mtree)?;
    let mut tree = MemTree::new(alloc, &files)?;
    tree.on_reopen(keep);
    Ok(tree)
}

// Trees as inventories that were read before, one after the other.
fn new_trees(alloc: Global, mtrees: &[Name<'_>], keep: Keep) -> Result<Vec<MemTree>, AllocError>
    requires { (files : List (List Entry)) × (each (inventory most_files) mtrees.now ≡ Ok files) }
    ensures { IfOk result (λ trees. (files : List (List Entry))
        → each (inventory most_files) mtrees.now ≡ Ok files
        → trees.items ≡ map (new_tree_of keep) files) }
{
    let mut trees = Vec::with_capacity(alloc, mtrees.len())?;
    for mtree in mtrees {
        trees.push(new_tree(alloc, mtree.bytes(), keep)?)?;
    }
    Ok(trees)
}

// The plan that a text spells.
fn read_plan(alloc: Global, text: &[u8]) -> Result<Plan<'_>, AllocError>
    requires { (plan : PlanData) × IsLawful plan × (text.now ≡ spelling plan) }
    ensures { IfOk result (λ read. IsLawful read × (text.now ≡ spelling read)) }
{
    match Plan::read(alloc, text) {
        Ok(plan) => Ok(plan),
        Err(PlanFault::BadPlan(_)) => unreachable!(),
        Err(PlanFault::Memory) => Err(AllocError),
    }
}

// The plans that texts spell.
fn read_plans(alloc: Global, texts: &TextList) -> Result<Vec<Plan<'_>>, AllocError>
    requires { (plans : List PlanData) × All IsLawful plans × (texts.now ≡ map spelling plans) }
    ensures { IfOk result (λ read. (plans : List PlanData) → All IsLawful plans
        → texts.now ≡ map spelling plans → read.items ≡ plans) }
{
    let spelled = texts.texts();
    let mut plans = Vec::with_capacity(alloc, spelled.len())?;
    for text in spelled {
        plans.push(read_plan(alloc, text.bytes())?)?;
    }
    Ok(plans)
}

// Whether each host's plan is done.
fn done_of(
    alloc: Global,
    campaign: &Campaign<'_, '_, MemTree>,
    hosts: usize,
) -> Result<Vec<bool>, AllocError>
    requires { hosts ≡ length campaign.now.runners }
    ensures { IfOk result
        (λ done. done.items ≡ map (λ runner. is_done runner.place) campaign.now.runners) }
{
    let mut done = Vec::with_capacity(alloc, hosts)?;
    for host in 0..hosts {
        done.push(campaign.is_done(host))?;
    }
    Ok(done)
}

// Carries plans out on trees as far as events lead. No event is refused.
fn carry_out(
    alloc: Global,
    plans: &[Plan<'_>],
    trees: Vec<MemTree>,
    events: &[Event],
) -> Result<CarriedOut, AllocError>
    requires ready { AreReady plans.now trees.items }
    requires hosts { All (λ event. host_of event < length trees.items) events.now }
    ensures { IfOk result
        (λ end. AreCarriedOut plans.now trees.items events.now end.done.items end.trees.items) }
{
    let Ok(mut campaign) = Campaign::new(alloc, plans, trees) else {
        return Err(AllocError);
    };
    match campaign.drive(events) {
        Ok(_) => {}
        Err(_) => unreachable!(),
    }
    let done = done_of(alloc, &campaign, plans.len())?;
    Ok(CarriedOut {
        done,
        trees: campaign.into_trees(),
    })
}

// Carries the plans that texts spell out on trees as inventories that were read before. No event is
// refused.
fn carry_out_texts(
    alloc: Global,
    mtrees: &[Name<'_>],
    texts: &TextList,
    keep: Keep,
    events: &[Event],
) -> Result<CarriedOut, AllocError>
    requires plans { (files : List (List Entry)) × (plans : List PlanData)
        × AreSpelledFor keep mtrees.now texts.now files plans }
    requires hosts { All (λ event. host_of event < length mtrees.now) events.now }
    ensures { IfOk result (λ end. (files : List (List Entry)) (plans : List PlanData)
        → AreSpelledFor keep mtrees.now texts.now files plans
        → AreCarriedOut plans (map (new_tree_of keep) files) events.now end.done.items
        end.trees.items) }
{
    let trees = new_trees(alloc, mtrees, keep)?;
    let plans = read_plans(alloc, texts)?;
    carry_out(alloc, &plans, trees, events)
}

// Carries the plans of what was merged out. It fails for want of memory alone.
fn run_of<'a>(
    alloc: Global,
    texts: &[HostText],
    outcome: Outcome,
    keep: Keep,
    events: &[Event],
) -> Result<SiteRun, Fault<'a>>
    requires merged { (site : WholeSite) × IsWhole site × AreInventoriesOf texts.now site
        × IsOutcome site outcome }
    requires hosts { All (λ event. host_of event < length texts.now) events.now }
    ensures { (site : WholeSite) → IsWhole site → AreInventoriesOf texts.now site
        → IsOutcome site outcome
        → MatchResult result (IsSiteRun keep events.now site) (λ e. told e ≡ None) }
{
    let mtrees = mtrees_of(alloc, texts)?;
    let carried = carry_out_texts(alloc, &mtrees, &outcome.plans, keep, events)?;
    Ok(SiteRun {
        outcome,
        done: carried.done,
        trees: carried.trees,
    })
}

/// Merges a site, and carries its plans out on trees in memory that are as the inventories tell, as
/// far as the events lead: an advance is one step of a host's plan, and after a stop a tree has
/// what the choice keeps of what was pending. Requires that each event is for a host of the site.
///
/// It refuses with the first fault of `merge`, and else for want of memory alone: no event is
/// refused.
///
/// It takes the time of `merge`, reads each inventory and each plan once more, and makes one
/// step an event. The trees of all hosts are in memory at once.
pub fn rehearse_site<'a>(
    alloc: Global,
    hosts: &'a [HostText],
    rules: &SiteRules<'a>,
    keep: Keep,
    events: &[Event],
) -> Result<SiteRun, Fault<'a>>
    requires { All (λ event. host_of event < length hosts.now) events.now }
    ensures { Yields (IsSiteRun keep events.now) told result (site_read hosts.now rules.now) }
{
    match merge(alloc, hosts, rules) {
        Ok(outcome) => run_of(alloc, hosts, outcome, keep, events),
        Err(fault) => Err(fault),
    }
}
