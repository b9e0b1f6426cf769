//! The text of the plan that takes a plan back.
ghost use Rattle.std.specs.Prelude.{◌≡◌, IfOk};
ghost use Rattle.reown_plan.specs.Records.{record_of};
ghost use Rattle.reown_reverse.specs.Reverse.{reversed, reversed_record};
ghost use Rattle.reown_plan.specs.Spelling.{spelling};

use reown_plan::{Plan, Record, push_plan_end, push_plan_head, push_record};
use std::alloc::{AllocError, Global};

// The record that gives the file back what it had.
fn reverse_of<'a>(planned: &Record<'a>) -> Record<'a>
    ensures { record_of result ≡ reversed_record (record_of planned.now) }
{
    Record {
        before: planned.after,
        after: planned.before,
        path: planned.path,
    }
}

/// The text of the plan that takes a plan back: of the same host, with the old and the new owner of
/// each record exchanged. `Plan::read` reads it (`reverses_take_back`), and its mark is that of its
/// own text.
///
/// `AllocError` where memory is refused. One pass over the records, and memory in step with the
/// text.
pub fn reversed_text(alloc: Global, plan: &Plan<'_>) -> Result<Vec<u8>, AllocError>
    ensures { IfOk result (λ text. text.items ≡ spelling (reversed plan.now)) }
{
    let mut text = Vec::new(alloc);
    push_plan_head(&mut text, plan.host())?;
    for planned in plan.records() {
        push_record(&mut text, &reverse_of(planned))?;
    }
    push_plan_end(&mut text)?;
    Ok(text)
}
