//! Paths in one buffer, found by bisection.
ghost use Rattle.std.specs.Prelude.{◌≡◌, ◌++◌, [], ◌∷◌, length, position, IfOk, OnOk, OnErr};
ghost use Rattle.std.specs.List.{range_with_len};
ghost use Rattle.std.specs.Ordering.{nat_cmp};
ghost use Rattle.std.specs.Cmp.Lexicographic.{slice_cmp};
ghost use Rattle.std.specs.Str.{bytes_eq};
ghost use Rattle.reown_plan.specs.Places.{path_at, AreDistinctPaths};
ghost use Rattle.reown_runner.specs.Paths.{ArePlaces};

use std::alloc::{AllocError, Global};
use std::cmp::Ordering;
use std::marker::Model;

/// Where a path stands in a buffer: its first byte, and the one after its last.
#[derive(Clone, Copy)]
struct Span {
    start: usize,
    end: usize,
}

/// Paths in their order, in one buffer. Beside its bytes a path takes 16 more.
#[derive(Drop)]
pub(crate) struct PathList {
    bytes: Vec<u8>,
    spans: Vec<Span>,
}

impl Model for PathList {
    ghost use Rattle.std.specs.Prelude.{ℕ, List, length, map};
    ghost use Rattle.std.specs.List.{All};
    ghost use Rattle.reown_runner.specs.Paths.{IsSpanWithin, path_in};

    ghost Value = { List (List ℕ) };

    ghost view = { λ p. map (path_in p.bytes.items) p.spans.items };

    ghost invariant = { λ p. All (IsSpanWithin (length p.bytes.items)) p.spans.items };
}

impl PathList {
    /// No paths, with room for so many.
    pub(crate) fn with_capacity(alloc: Global, capacity: usize) -> Result<Self, AllocError>
        ensures { IfOk result (λ paths. paths ≡ []) }
    {
        let spans = Vec::with_capacity(alloc, capacity)?;
        Ok(PathList {
            bytes: Vec::new(alloc),
            spans,
        })
    }

    /// Puts a path after the others.
    pub(crate) fn push(&mut self, path: &[u8]) -> Result<(), AllocError>
        ensures ok { OnOk result (self.new ≡ self.old ++ path.now ∷ []) }
        ensures err { OnErr result (self.new ≡ self.old) }
    {
        let start = self.bytes.len();
        self.bytes.extend_from_slice(path)?;
        let end = self.bytes.len();
        self.spans.push(Span { start, end })?;
        Ok(())
    }

    fn len(&self) -> usize
        ensures { result ≡ length self.now }
    {
        self.spans.len()
    }

    // The path at a place, the empty one where there is none.
    fn path(&self, place: usize) -> &[u8]
        ensures { result.now ≡ path_at self.now place }
    {
        match self.spans.get(place) {
            Some(span) => &self.bytes[span.start..span.end],
            None => &[],
        }
    }

    // How the paths at two places compare.
    fn compare(&self, one: usize, other: usize) -> Ordering
        ensures { result ≡ slice_cmp nat_cmp (path_at self.now one) (path_at self.now other) }
    {
        self.path(one).cmp(self.path(other))
    }
}

// The places of so many paths, as they come.
fn all_places(alloc: Global, count: usize) -> Result<Vec<usize>, AllocError>
    ensures { IfOk result (λ places. places.items ≡ range_with_len 0 count) }
{
    let mut places = Vec::with_capacity(alloc, count)?;
    for place in 0..count {
        places.push(place)?;
    }
    Ok(places)
}

// The places of paths, in the byte order of the paths.
fn sorted_places(alloc: Global, paths: &PathList) -> Result<Vec<usize>, AllocError>
    ensures { IfOk result (λ places. ArePlaces paths.now places.items) }
{
    let mut places = all_places(alloc, paths.len())?;
    places.sort_by(|one, other| paths.compare(*one, *other))?;
    Ok(places)
}

// The place of a path, if it is one of these, by bisection.
fn place_of(paths: &PathList, places: &[usize], path: &[u8]) -> Option<usize>
    requires distinct { AreDistinctPaths paths.now }
    requires places { ArePlaces paths.now places.now }
    ensures { result ≡ position (bytes_eq path.now) paths.now }
{
    let mut low = 0;
    let mut high = places.len();
    while low < high {
        let middle = low + (high - low) / 2;
        let place = places[middle];
        match paths.path(place).cmp(path) {
            Ordering::Less => low = middle + 1,
            Ordering::Equal => return Some(place),
            Ordering::Greater => high = middle,
        }
    }
    None
}

/// Paths in their order, each found by bisection. Whoever names files chooses their paths, so that
/// no look-up may cost more than a few comparisons, whatever the names are: that is why no table
/// of hashes is used here. Beside the list it keeps 8 bytes a path.
#[derive(Drop)]
pub(crate) struct PathIndex {
    paths: PathList,
    places: Vec<usize>,
}

impl Model for PathIndex {
    ghost use Rattle.std.specs.Prelude.{ℕ, List};
    ghost use Rattle.reown_plan.specs.Places.{AreDistinctPaths};
    ghost use Rattle.reown_runner.specs.Paths.{ArePlaces};

    ghost Value = { List (List ℕ) };

    ghost view = { λ p. p.paths };

    ghost invariant = { λ p. AreDistinctPaths p.paths × ArePlaces p.paths p.places.items };
}

impl PathIndex {
    /// Paths that differ, to be found. One sort of their places: for each a comparison of paths
    /// for each binary digit of their number, and fewer where they come almost in order.
    pub(crate) fn new(alloc: Global, paths: PathList) -> Result<Self, AllocError>
        requires { AreDistinctPaths paths }
        ensures { IfOk result (λ index. index ≡ paths) }
    {
        let places = sorted_places(alloc, &paths)?;
        Ok(PathIndex { paths, places })
    }

    /// The place of a path, if it is one of these. At most a comparison of paths for each binary
    /// digit of their number; it takes no memory.
    pub(crate) fn find(&self, path: &[u8]) -> Option<usize>
        ensures { result ≡ position (bytes_eq path.now) self.now }
    {
        place_of(&self.paths, &self.places, path)
    }
}
