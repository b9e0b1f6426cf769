//! What holds of a plan that is taken back.
ghost use Rattle.std.specs.Prelude.{◌≡◌, ℕ, List, All, map};
ghost use Rattle.hosts_join.specs.Site.{Joined};
ghost use Rattle.mtree_inv.specs.Files.{HaveDistinctFiles};
ghost use Rattle.mtree_inv.specs.declared.entry.Entry.{Entry};
ghost use Rattle.ownership.specs.declared.mapping.Mappings.{Mappings};
ghost use Rattle.reown_plan.specs.Owners.{owner_of};
ghost use Rattle.reown_plan.specs.PlanData.{PlanData};
ghost use Rattle.reown_plan.specs.Spelling.{IsLawful};
ghost use Rattle.reown_plan.specs.Target.{plan_of, owner_after};
ghost use Rattle.reown_reverse.specs.Reverse.{reversed, reversed_records, at_owner};

/// A plan that is taken back twice is the plan; a lawful plan is taken back by a lawful one; and
/// after the reverse of a host's plan each file has the owner back that it had before the plan.
pub fn reverses_take_back()
    ensures twice { (plan : PlanData) → reversed (reversed plan) ≡ plan }
    ensures lawful { (plan : PlanData) → IsLawful plan → IsLawful (reversed plan) }
    ensures back { (site : Joined) (m : Mappings) (host : ℕ) (files : List Entry)
        → HaveDistinctFiles files
        → All (λ f. owner_after (reversed_records (plan_of site m host files))
        (at_owner (owner_after (plan_of site m host files) f) f) ≡ owner_of f) files }
{}

/// The reverse of a plan is of the plan's host. Its records have the paths of the plan's records in
/// their order; each goes from the new owner of that record to the old one.
pub fn reverses_exchange_owners()
    ensures host { (plan : PlanData) → (reversed plan).host ≡ plan.host }
    ensures paths { (plan : PlanData)
        → map (λ r. r.path) (reversed plan).records ≡ map (λ r. r.path) plan.records }
    ensures before { (plan : PlanData)
        → map (λ r. r.before) (reversed plan).records ≡ map (λ r. r.after) plan.records }
    ensures after { (plan : PlanData)
        → map (λ r. r.after) (reversed plan).records ≡ map (λ r. r.before) plan.records }
{}
