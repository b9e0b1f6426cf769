//! How many findings are of each kind.
ghost use Rattle.std.specs.Prelude.{◌≡◌, ◌-◌, ◌<◌, []};
ghost use Rattle.kept_names.specs.Tally.{one_more, tallied, tally_of};

use crate::finding::What;

/// How many findings are of each kind.
#[derive(Clone, Copy, Drop)]
pub(crate) struct Tally {
    pub(crate) missing: usize,
    pub(crate) changed: usize,
    pub(crate) new: usize,
    pub(crate) unnamed: usize,
    pub(crate) left: usize,
}

impl Tally {
    /// Nothing was counted yet.
    pub(crate) fn new() -> Tally
        ensures { result ≡ tally_of [] }
    {
        Tally {
            missing: 0,
            changed: 0,
            new: 0,
            unnamed: 0,
            left: 0,
        }
    }

    /// How many are of this kind.
    pub(crate) fn number(&self, what: What) -> usize
        ensures { result ≡ tallied self.now what }
    {
        match what {
            What::Missing => self.missing,
            What::Changed { .. } => self.changed,
            What::New => self.new,
            What::Unnamed { .. } => self.unnamed,
            What::Left { .. } => self.left,
        }
    }

    /// Counts a finding.
    pub(crate) fn count(&mut self, what: What)
        requires { tallied self.now what < usize.MAX }
        ensures { self.exit.now ≡ one_more self.entry.now what }
    {
        match what {
            What::Missing => self.missing += 1,
            What::Changed { .. } => self.changed += 1,
            What::New => self.new += 1,
            What::Unnamed { .. } => self.unnamed += 1,
            What::Left { .. } => self.left += 1,
        }
    }

    /// How many of so many files of the first inventory are neither missing nor changed.
    pub(crate) fn kept(&self, files: usize) -> usize
        ensures { result ≡ files - self.now.missing - self.now.changed }
    {
        files
            .saturating_sub(self.missing)
            .saturating_sub(self.changed)
    }
}
