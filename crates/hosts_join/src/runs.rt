//! Numbers that lie in some of several ranges, found by bisection.

ghost use Rattle.std.specs.Prelude.{◌≡◌, ◌≤◌, ◌||◌, [], ℕ, All, IfOk, OnOk};
ghost use Rattle.std.specs.List.Sorted.{IsNonDecreasingBy};
ghost use Rattle.logindefs.specs.Ranges.{in_range};
ghost use Rattle.hosts_join.specs.RangeLists.{lies_in_some};
ghost use Rattle.hosts_join.specs.RunsInside.{AreInOrder};

use logindefs::IdRange;
use std::alloc::{AllocError, Global};
use std::marker::Model;

/// Ranges of numbers, and the numbers that lie in some of them as runs, each of which ends before
/// the next begins. A contract sees the ranges as they were given: for its sake alone they are kept
/// beside the runs.
pub struct Runs {
    ranges: Vec<IdRange>,
    runs: Vec<IdRange>,
}

// Written out, so that the proof of a function that lets runs go has one call there.
impl Drop for Runs {
    fn drop(self) {
        let Runs { ranges, runs } = self;
        drop(ranges);
        drop(runs);
    }
}

impl Model for Runs {
    ghost use Rattle.std.specs.Prelude.{List};
    ghost use Rattle.logindefs.specs.declared.ranges.IdRange.{IdRange};

    ghost Value = { List IdRange };

    ghost view = { λ it. it.ranges.items };

    ghost use Rattle.hosts_join.specs.RunsInside.{AreRunsInside};

    ghost invariant = { AreRunsInside };
}

// Adds a range after runs that begin no later: it lengthens the last one where it begins in it.
fn add_run(runs: &mut Vec<IdRange>, range: IdRange) -> Result<(), AllocError>
    requires apart { AreInOrder runs.old.items }
    requires behind { All (λ run. run.low ≤ range.low) runs.old.items }
    ensures apart { OnOk result (AreInOrder runs.new.items) }
    ensures behind { OnOk result (All (λ run. run.low ≤ range.low) runs.new.items) }
    ensures added { OnOk result ((number : ℕ) → lies_in_some runs.new.items number
        ≡ (lies_in_some runs.old.items number || in_range range number)) }
{
    let Some(last) = runs.pop() else {
        runs.push(range)?;
        return Ok(());
    };
    if range.low <= last.high {
        let high = last.high.max(range.high);
        runs.push(IdRange {
            low: last.low,
            high,
        })?;
        return Ok(());
    }
    runs.push(last)?;
    runs.push(range)?;
    Ok(())
}

// The ranges, ascending by where they begin.
fn sorted_ranges(alloc: Global, ranges: &[IdRange]) -> Result<Vec<IdRange>, AllocError>
    ensures ascending { IfOk result
        (λ sorted. IsNonDecreasingBy (λ range. range.low) sorted.items) }
    ensures same { IfOk result (λ sorted. (number : ℕ) →
        lies_in_some sorted.items number ≡ lies_in_some ranges.now number) }
{
    let mut sorted = Vec::from_slice(alloc, ranges)?;
    sorted.sort_unstable_by_key(|range| range.low);
    Ok(sorted)
}

// The runs of ascending ranges.
fn merged(alloc: Global, sorted: &[IdRange]) -> Result<Vec<IdRange>, AllocError>
    requires { IsNonDecreasingBy (λ range. range.low) sorted.now }
    ensures apart { IfOk result (λ runs. AreInOrder runs.items) }
    ensures same { IfOk result (λ runs. (number : ℕ) →
        lies_in_some runs.items number ≡ lies_in_some sorted.now number) }
{
    let mut runs = Vec::new(alloc);
    for range in sorted {
        add_run(&mut runs, *range)?;
    }
    Ok(runs)
}

impl Runs {
    /// No ranges. Takes no memory.
    pub fn none(alloc: Global) -> Runs
        ensures { result ≡ [] }
    {
        Runs {
            ranges: Vec::new(alloc),
            runs: Vec::new(alloc),
        }
    }

    /// These ranges. They are copied and sorted once; memory in step with them, and `AllocError`
    /// where it is refused.
    pub fn of(alloc: Global, ranges: &[IdRange]) -> Result<Runs, AllocError>
        ensures { IfOk result (λ runs. runs ≡ ranges.now) }
    {
        let sorted = sorted_ranges(alloc, ranges)?;
        let runs = merged(alloc, &sorted)?;
        let ranges = Vec::from_slice(alloc, ranges)?;
        Ok(Runs { ranges, runs })
    }

    /// Whether the number lies in some range, by bisection.
    pub fn has(&self, number: u32) -> bool
        ensures { result ≡ lies_in_some self.now number }
    {
        let begun = self.runs.partition_point(|run| run.low <= number);
        begun > 0 && number <= self.runs[begun - 1].high
    }
}
