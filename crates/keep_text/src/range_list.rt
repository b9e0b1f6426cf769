//! Ranges of numbers, in order.

ghost use Rattle.std.specs.Prelude.{◌≡◌, ◌++◌, ◌∷◌, [], List, OnErr, OnOk};
ghost use Rattle.logindefs.specs.declared.ranges.IdRange.{IdRange};
ghost use Rattle.hosts_join.specs.RangeLists.{lies_in_some};

use logindefs::IdRange;
use std::alloc::{AllocError, Global};
use std::marker::Model;

/// Ranges of numbers, in order.
#[derive(Drop)]
pub struct RangeList {
    ranges: Vec<IdRange>,
}

impl Model for RangeList {
    ghost Value = { List IdRange };

    ghost view = { λ list. list.ranges.items };
}

impl RangeList {
    /// No ranges. Takes no memory.
    pub fn new(alloc: Global) -> RangeList
        ensures { result ≡ [] }
    {
        RangeList {
            ranges: Vec::new(alloc),
        }
    }

    /// The ranges. Takes constant time and no memory.
    pub fn ranges(&self) -> &[IdRange]
        ensures { result.now ≡ self.now }
    {
        self.ranges.as_slice()
    }

    /// Whether the number lies in one of them. Two comparisons for each.
    pub fn has(&self, number: u32) -> bool
        ensures { result ≡ lies_in_some self.now number }
    {
        self.ranges.iter().any(|range| range.has(number))
    }

    /// Appends a range, in constant time except for growth. `AllocError` where a growth was
    /// refused; the ranges then stay.
    pub fn push(&mut self, range: IdRange) -> Result<(), AllocError>
        ensures err { OnErr result (self.new ≡ self.old) }
        ensures pushed { OnOk result (self.new ≡ self.old ++ range ∷ []) }
    {
        self.ranges.push(range)?;
        Ok(())
    }
}
