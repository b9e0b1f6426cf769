//! How far a plan is carried out.
ghost use Rattle.std.specs.Prelude.{◌≡◌, ◌||◌, ℕ};
ghost use Rattle.reown_plan.specs.PlanData.{PlanRecord};
ghost use Rattle.reown_files.specs.Laws.{OwnersGoByStage, FilesAreJudged, ChangedPlansAreBegun};
ghost use Rattle.reown_files.specs.Laws.{StagesAreTold, FirstRunsBeginAtOldOwners};
ghost use Rattle.reown_files.specs.Laws.{FaultsAreNamed};
ghost use Rattle.reown_files.specs.Stages.{stage_of};

/// How far a plan is carried out, as its mark and the modes that a run of it wrote down tell.
#[derive(Clone, Copy, Debug, PartialEq, Eq)]
pub enum Stage {
    /// No run of it was begun: each file has to be at its old owner.
    NotBegun,
    /// A run of it was begun, and it is not done: each file is at its old or at its new owner.
    Begun,
    /// Its mark is there: each file has to be at its new owner.
    Done,
}

impl Stage {
    /// That of a plan whose mark is there or not, whose modes an earlier run wrote down or not, and
    /// of which somebody knows that it was begun, or does not.
    pub fn of(is_marked: bool, has_modes: bool, was_begun: bool) -> Stage
        ensures { result ≡ stage_of is_marked (has_modes || was_begun) }
    {
        if is_marked {
            Stage::Done
        } else if has_modes || was_begun {
            Stage::Begun
        } else {
            Stage::NotBegun
        }
    }
}

/// Which owners the files of a plan may have at each stage of it, and what tells the stage; that a
/// file is fit or has one fault, and which that is; that a first run begins with files at their old
/// owners alone; and that no file is given an owner before modes are written down, by which a plan
/// is known to have been begun. It is a law, and does nothing.
pub fn owners_go_by_stage()
    ensures owners { OwnersGoByStage }
    ensures judged { FilesAreJudged }
    ensures named { (i : ℕ) (r : PlanRecord) → FaultsAreNamed i r }
    ensures begun { ChangedPlansAreBegun }
    ensures told { StagesAreTold }
    ensures first { FirstRunsBeginAtOldOwners }
{}
