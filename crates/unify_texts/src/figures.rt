//! What a mapping of one kind keeps and changes.

ghost use Rattle.std.specs.Prelude.{◌≡◌, List, length};
ghost use Rattle.ownership.specs.Counts.{AreMadeFor, AreWithin, CountFiles};
ghost use Rattle.ownership.specs.Files.{File, owned_files};
ghost use Rattle.unify_texts.specs.Figures.{figures_of, pinned_names as pinned_among};
ghost use Rattle.unify_texts.specs.Figures.{kept_names as kept_among};
ghost use Rattle.unify_texts.specs.Staying.{told_files, told_rows};

use hosts_join::Names;
use ownership::{KindCounts, Mapping};

/// The figures of one kind.
#[derive(Clone, Copy)]
pub struct Figures {
    /// How many names there are.
    pub names: u32,
    /// How many of them are pinned.
    pub pinned: u32,
    /// How many free names have a number that they have on some host already.
    pub kept: u32,
    /// How many free names have another number.
    pub fresh: u32,
    /// How many files have one of the names as their owner, over all hosts.
    pub files: u64,
    /// How many files change.
    pub changed_files: u64,
    /// How many account rows there are, over all hosts.
    pub rows: u64,
    /// How many account rows change.
    pub changed_rows: u64,
}

// How many names are pinned.
#[tactic(auto, using(crate::proofs::Totals::count_more, crate::proofs::Totals::count_start))]
fn pinned_names(names: &Names<'_>) -> u32
    ensures { result ≡ pinned_among names.now }
{
    let mut pinned: u32 = 0;
    for index in 0..names.len() {
        if !names.class(index).is_free() {
            pinned += 1;
        }
    }
    pinned
}

// How many free names have a number that they have on some host.
#[tactic(auto, using(crate::proofs::Totals::count_more, crate::proofs::Totals::count_start))]
fn kept_names(names: &Names<'_>, mapping: &Mapping) -> u32
    requires { length mapping.now ≡ length names.now.names }
    ensures { result ≡ kept_among names.now mapping.now }
{
    let mut kept: u32 = 0;
    for index in 0..names.len() {
        if names.class(index).is_free() && names.lines(index, mapping.number(index)) > 0 {
            kept += 1;
        }
    }
    kept
}

// How many files keep their number.
#[tactic(auto, using(crate::proofs::Totals::sum_more, crate::proofs::Totals::sum_start))]
fn staying_files(counts: &KindCounts, mapping: &Mapping, names: u32) -> u64
    requires counters { length counts.now ≡ names }
    requires numbers { length mapping.now ≡ names }
    requires few { AreWithin counts.now 2147483648 }
    ensures { result ≡ told_files counts.now mapping.now names }
{
    let mut staying: u64 = 0;
    for index in 0..names {
        staying += counts.kept(index, mapping.number(index));
    }
    staying
}

// How many account rows keep their number.
#[tactic(auto, using(crate::proofs::Totals::sum_more, crate::proofs::Totals::sum_start))]
fn staying_rows(names: &Names<'_>, mapping: &Mapping) -> u64
    requires { length mapping.now ≡ length names.now.names }
    ensures { result ≡ told_rows names.now mapping.now }
{
    let mut staying: u64 = 0;
    for index in 0..names.len() {
        staying += names.lines(index, mapping.number(index));
    }
    staying
}

/// The figures of a mapping of the names; `files` is how many of the counted files have one of the
/// names as their owner. Requires that there is a number for each name, and that the counters were
/// made for the names and none is above 2147483648; where they count files, of which so many have
/// an owner, the figures are those of the files.
///
/// Four passes over the names, with two scans of a name's rows, which are at most 64, and one
/// bisection of its counters. It takes no memory.
pub fn figures_under(
    names: &Names<'_>,
    counts: &KindCounts,
    files: u64,
    mapping: &Mapping,
) -> Figures
    requires made { AreMadeFor names.now.names counts.now }
    requires few { AreWithin counts.now 2147483648 }
    requires numbers { length mapping.now ≡ length names.now.names }
    ensures { (added : List File) → CountFiles names.now.names counts.now added
        → files ≡ owned_files names.now.names added
        → result ≡ figures_of names.now added mapping.now }
{
    let pinned = pinned_names(names);
    let kept = kept_names(names, mapping);
    let staying = staying_files(counts, mapping, names.len());
    Figures {
        names: names.len(),
        pinned,
        kept,
        fresh: names.len() - pinned - kept,
        files,
        changed_files: files.saturating_sub(staying),
        rows: names.all_lines(),
        changed_rows: names.all_lines() - staying_rows(names, mapping),
    }
}
