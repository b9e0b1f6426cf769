//! What holds of plans and their texts.
ghost use Rattle.std.specs.Prelude.{◌≡◌, ◌↔◌, ◌++◌, ◌∷◌, ℕ, List, [], All, Result, Ok, true};
ghost use Rattle.std.specs.Prelude.{length};
ghost use Rattle.sha2.specs.Sha256.{sha256};
ghost use Rattle.ownership.specs.Mappings.{IsMapping};
ghost use Rattle.ownership.specs.declared.mapping.Mappings.{Mappings};
ghost use Rattle.hosts_join.specs.Site.{Joined};
ghost use Rattle.hosts_join.specs.declared.host.Host.{Host};
ghost use Rattle.mtree_inv.specs.Files.{AreFiles, HaveDistinctFiles};
ghost use Rattle.mtree_inv.specs.declared.entry.Entry.{Entry};
ghost use Rattle.reown_plan.specs.Keeps.{KeepsNames};
ghost use Rattle.reown_plan.specs.Examples.{NumbersStandInOrder, ExampleOfPlan};
ghost use Rattle.reown_plan.specs.declared.mark.PlanMark.{PlanMark};
ghost use Rattle.reown_plan.specs.Mark.{mark_of, mark_eq};
ghost use Rattle.reown_plan.specs.PlanData.{PlanData};
ghost use Rattle.reown_plan.specs.OwnerChange.{line_of, printed};
ghost use Rattle.reown_plan.specs.Owners.{owner_of};
ghost use Rattle.reown_plan.specs.declared.plan.Owner.{Owner};
ghost use Rattle.reown_plan.specs.Spelling.{lines, spelling, IsHostName, IsLawful};
ghost use Rattle.reown_plan.specs.Reading.{ReadsAs};
ghost use Rattle.reown_plan.specs.BadByte.{BadByteIsTold};
ghost use Rattle.reown_plan.specs.Target.{target, plan_of, host_plan, name_at, owner_after};
ghost use Rattle.reown_plan.specs.Target.{records_to};

/// A plan has one spelling, and none begins another's.
pub fn one_spelling()
    ensures { (one other : PlanData) (rest : List ℕ) → IsLawful one → IsLawful other
        → spelling other ≡ spelling one ++ rest → (one ≡ other) × (rest ≡ []) }
{}

/// A text is one plan, or has one place of its fault, and never both.
pub fn one_reading()
    ensures some { (text : List ℕ) → (reading : Result PlanData ℕ) × ReadsAs text reading }
    ensures only { (text : List ℕ) (one other : Result PlanData ℕ) → ReadsAs text one
        → ReadsAs text other → one ≡ other }
{}

/// Where a text is no plan, the byte of its fault is the first after its longest beginning that is
/// a plan, or a plan that lacks its end alone; where it has no such beginning, the first byte.
pub fn bad_byte_is_told()
    ensures { BadByteIsTold }
{}

/// The plan that is written for a host is read back, where its name is lawful, its files are those
/// of an inventory, and the mappings give numbers that an account may have.
pub fn plans_read_back()
    ensures { (hosts : List Host) (site : Joined) (m : Mappings) (host : ℕ) (files : List Entry)
        → IsHostName (name_at hosts host) → IsMapping m.users → IsMapping m.groups → AreFiles files
        → ReadsAs (spelling (host_plan hosts site m host files))
        (Ok (host_plan hosts site m host files)) }
{}

/// After a host's plan each file has its target, and so, under the mappings, the user name and the
/// group name that it had, where its numbers had names on the host.
pub fn plans_keep_names()
    ensures targets { (site : Joined) (m : Mappings) (host : ℕ) (files : List Entry)
        → HaveDistinctFiles files
        → All (λ f. owner_after (plan_of site m host files) f ≡ target site m host f) files }
    ensures names { (site : Joined) (m : Mappings) (host : ℕ) (files : List Entry)
        → HaveDistinctFiles files
        → All (λ f. KeepsNames site m host f (owner_after (plan_of site m host files) f)) files }
{}

/// What the change of a file's owner has appended for the file is its record, where it gets another
/// owner, and nothing where it keeps its own.
pub fn changes_give_records()
    ensures { (to : Entry → Owner) (file : Entry)
        → line_of (printed (owner_of file) (to file)) file.path
        ≡ lines (records_to to (file ∷ [])) }
{}

/// Marks are compared field by field, and plans of one mark are of one host and have texts of one
/// length and one digest. That such plans have one text rests on SHA-256, and is no law.
pub fn marks_tell_plans()
    ensures equal { (a b : PlanMark) → (mark_eq a b ≡ true) ↔ (a ≡ b) }
    ensures hosts { (a b : PlanData) → IsHostName a.host → IsHostName b.host → mark_of a ≡ mark_of b
        → a.host ≡ b.host }
    ensures texts { (a b : PlanData) → mark_of a ≡ mark_of b
        → (length (spelling a) ≡ length (spelling b))
        × (sha256 (spelling a) ≡ sha256 (spelling b)) }
{}

/// What stands where in a plan: between the spaces of a record's line the old uid and gid, the new
/// uid and gid, and the length of the path; and a whole plan by example, byte by byte.
pub fn columns_of_plans()
    ensures numbers { NumbersStandInOrder }
    ensures example { ExampleOfPlan }
{}
