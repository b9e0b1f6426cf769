//! The records of a plan's text.
ghost use Rattle.std.specs.Prelude.{◌≡◌, ◌++◌, ℕ, List, map, All, IfOk, length};
ghost use Rattle.reown_plan.specs.PlanData.{PlanRecord};
ghost use Rattle.reown_plan.specs.Records.{record_of};
ghost use Rattle.reown_plan.specs.Fronts.{BeginsNoRecord};
ghost use Rattle.reown_plan.specs.Spelling.{lines, IsLawfulRecord};

use crate::Record;
use crate::read::read_record;
use std::alloc::{AllocError, Global};

/// The records at the front of a text, and what is after them.
#[derive(Drop)]
pub(crate) struct ReadRecords<'a> {
    pub(crate) records: Vec<Record<'a>>,
    pub(crate) behind: &'a [u8],
}

/// Reads records as long as there is one. One pass.
pub(crate) fn read_records<'a>(alloc: Global, text: &'a [u8]) -> Result<ReadRecords<'a>, AllocError>
    ensures spelled { IfOk result
        (λ read. text.now ≡ lines (map record_of read.records.items) ++ read.behind.now) }
    ensures lawful { IfOk result (λ read. All IsLawfulRecord (map record_of read.records.items)) }
    ensures all { IfOk result (λ read. BeginsNoRecord read.behind.now) }
{
    let mut records = Vec::new(alloc);
    let mut rest = text;
    'records: while let Some((planned, after)) = read_record(rest) {
        records.push(planned)?;
        rest = after;
    }
    Ok(ReadRecords {
        records,
        behind: rest,
    })
}

/// What is after so many records. One pass over them.
pub(crate) fn behind_records(text: &[u8], count: usize) -> &[u8]
    ensures { (records : List PlanRecord) (rest : List ℕ) → All IsLawfulRecord records
        → length records ≡ count → text.now ≡ lines records ++ rest → result.now ≡ rest }
{
    let mut rest = text;
    for _ in 0..count {
        let Some((_, after)) = read_record(rest) else {
            return rest;
        };
        rest = after;
    }
    rest
}
