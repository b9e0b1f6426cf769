//! Laws over what is asked of a disk and of files, and over a count, by example. Each is the
//! contract of a function that does nothing.
ghost use Rattle.std.specs.Prelude.{◌≡◌, ℕ, List, [], ◌∷◌, true, false};
ghost use Rattle.reown_files.specs.CountExample.{ExampleOfCounts};
ghost use Rattle.reown_files.specs.NamesExample.{ExampleOfLooks, ExampleOfMeeting, ExampleOfNames};
ghost use Rattle.reown_files.specs.NamesExample.{ExampleOfAllNames, ExampleOfOneFile};
ghost use Rattle.reown_files.specs.NamesExample.{ExampleOfLostModes};
ghost use Rattle.reown_files.specs.RootExample.{ExampleOfAnswers, ExampleOfMet, ExampleOfLost};
ghost use Rattle.reown_files.specs.RootExample.{ExampleOfGiven, ExampleOfChanges, ExampleOfMarks};
ghost use Rattle.reown_files.specs.RootExample.{ExampleOfPaths};
ghost use Rattle.reown_files.specs.Actions.{Action};
ghost use Rattle.reown_files.specs.Runs.{is_run, note, program, both, run_of_note, run_of_program};
ghost use Rattle.reown_files.specs.Runs.{unread, unmet, unchecked, unasked, unsettled, unwritten};
ghost use Rattle.reown_files.specs.Runs.{met_twice, met_for_the_old_owner};
ghost use Rattle.reown_files.specs.Runs.{met_late, mode_left, other_mode, mode_of_the_old_owner};
ghost use Rattle.reown_files.specs.Runs.{failed_mode, given_to_another, not_kept, not_settled};
ghost use Rattle.reown_files.specs.Runs.{settled_before_kept, run_of_both, marked_early};
ghost use Rattle.reown_files.specs.Runs.{links_between, second_run, not_set_back};
ghost use Rattle.reown_files.specs.Runs.{set_back_for_the_old_owner, set_back_and_not_kept};

/// Whole runs of a plan, for a file that keeps its mode, for one that loses a bit of it, for both,
/// and for one whose mode an earlier run has lost, are lawful; and none of them is with one call
/// left out, at another place, or for another owner or mode.
pub fn lawful_calls_by_example()
    ensures note { is_run (note ∷ []) run_of_note ≡ true }
    ensures program { is_run (program ∷ []) run_of_program ≡ true }
    ensures both { is_run both run_of_both ≡ true }
    ensures second { is_run (program ∷ []) second_run ≡ true }
    ensures unread { is_run (program ∷ []) unread ≡ false }
    ensures unmet { is_run (program ∷ []) unmet ≡ false }
    ensures unchecked { is_run (program ∷ []) unchecked ≡ false }
    ensures unasked { is_run (program ∷ []) unasked ≡ false }
    ensures unsettled { is_run (program ∷ []) unsettled ≡ false }
    ensures unwritten { is_run (program ∷ []) unwritten ≡ false }
    ensures met_late { is_run (program ∷ []) met_late ≡ false }
    ensures met_twice { is_run (program ∷ []) met_twice ≡ false }
    ensures met_for_old { is_run (program ∷ []) met_for_the_old_owner ≡ false }
    ensures links_between { is_run both links_between ≡ false }
    ensures mode_left { is_run (program ∷ []) mode_left ≡ false }
    ensures other_mode { is_run (program ∷ []) other_mode ≡ false }
    ensures old_owner { is_run (program ∷ []) mode_of_the_old_owner ≡ false }
    ensures failed_mode { is_run (program ∷ []) failed_mode ≡ false }
    ensures given_to_another { is_run (program ∷ []) given_to_another ≡ false }
    ensures not_kept { is_run (program ∷ []) not_kept ≡ false }
    ensures not_settled { is_run (program ∷ []) not_settled ≡ false }
    ensures settled_early { is_run (program ∷ []) settled_before_kept ≡ false }
    ensures marked_early { is_run both marked_early ≡ false }
    ensures not_set_back { is_run (program ∷ []) not_set_back ≡ false }
    ensures back_for_old { is_run (program ∷ []) set_back_for_the_old_owner ≡ false }
    ensures back_not_kept { is_run (program ∷ []) set_back_and_not_kept ≡ false }
{}

/// A count of ten files by example, in which no two numbers are the same.
pub fn counts_by_example()
    ensures { ExampleOfCounts }
{}

/// What looks tell of files of each kind, what is asked when a file is met, how the names of one
/// that has several are counted and when all were, what makes two files of one, and which modes a
/// file has lost, by example.
pub fn looks_by_example()
    ensures looks { ExampleOfLooks }
    ensures meeting { ExampleOfMeeting }
    ensures names { ExampleOfNames }
    ensures all_names { ExampleOfAllNames }
    ensures one_file { ExampleOfOneFile }
    ensures lost { ExampleOfLostModes }
{}

/// What the calls of `Root` answer of a file and write down, which modes they tell as lost, which
/// owner they give and which mode they set, which files they sync, what they do to the files of the
/// mark and of the modes, and where these stand, by example.
pub fn roots_by_example()
    ensures answers { ExampleOfAnswers }
    ensures met { ExampleOfMet }
    ensures lost { ExampleOfLost }
    ensures given { ExampleOfGiven }
    ensures changes { ExampleOfChanges }
    ensures marks { (text : List ℕ) (before : List Action) → ExampleOfMarks text before }
    ensures paths { ExampleOfPaths }
{}
