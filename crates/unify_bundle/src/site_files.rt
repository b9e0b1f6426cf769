//! What a merge wrote, as its parts.

ghost use Rattle.std.specs.Prelude.{◌≡◌, ℕ, List, map, IfOk};
ghost use Rattle.unify.specs.declared.site_files.NamedText.{NamedText};
ghost use Rattle.unify_bundle.specs.HostParts.{ArePartedFor};

use std::alloc::{AllocError, Global};
use unify::{NamedText, Outcome, SiteFiles, TextList};

// The texts of files.
fn texts_of(alloc: Global, files: Vec<NamedText>) -> Result<TextList, AllocError>
    ensures { IfOk result (λ texts. texts ≡ map (λ file. file.text) files.items) }
{
    let mut texts = TextList::new(alloc);
    for file in files {
        texts.push(file.text)?;
    }
    Ok(texts)
}

/// What was merged of so many hosts, with their plans and their own files, which stand among the
/// files that were written. One move of each file.
pub fn with_files(
    alloc: Global,
    mut outcome: Outcome,
    hosts: usize,
    mut files: Vec<NamedText>,
) -> Result<SiteFiles, AllocError>
    requires { (plans : List (List ℕ)) × (own : List NamedText)
        × ArePartedFor outcome.keeps_names hosts files.items plans own }
    ensures { IfOk result (λ site. (plans : List (List ℕ)) (own : List NamedText)
        → ArePartedFor outcome.keeps_names hosts files.items plans own
        → (site.outcome ≡ record outcome { plans = plans }) × (site.own.items ≡ own)) }
{
    let mut behind = files.split_off(if outcome.keeps_names { 2 } else { 4 })?;
    let mut own = behind.split_off(hosts)?;
    let _report = own.pop();
    outcome.plans = texts_of(alloc, behind)?;
    Ok(SiteFiles { outcome, own })
}
