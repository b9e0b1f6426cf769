//! Readers of a plan's parts.
ghost use Rattle.std.specs.Prelude.{◌≡◌, ◌≢◌, ◌++◌, ◌≤◌, ◌<◌, ◌^◌, ◌∷◌, ℕ, List, All, true};
ghost use Rattle.std.specs.Prelude.{IsSomeAnd, decimal, length, IfSome, IfNone};
ghost use Rattle.reown_plan.specs.declared.plan.Owner.{Owner};
ghost use Rattle.reown_plan.specs.Spelling.{number, head, line, IsHostName, IsOwner};
ghost use Rattle.reown_plan.specs.Spelling.{IsLawfulRecord};
ghost use Rattle.mtree_inv.specs.Files.{IsLawfulPath};
ghost use Rattle.reown_plan.specs.Records.{record_of};
ghost use Rattle.reown_plan.specs.PlanData.{PlanRecord};

use crate::{Owner, Record};
use hosts_join::is_host_name;
use idtext::{GREATEST_ID, MOST_LINE_BYTES, cut};
use itoa::Buffer;

// The number that these bytes write, without leading zeros.
fn written(text: &[u8]) -> Option<u32>
    ensures found { IfSome result (λ n. (n < 2 ^ 32) × (decimal n ≡ text.now)) }
    ensures none { IfNone result ((n : ℕ) → n < 2 ^ 32 → decimal n ≢ text.now) }
{
    let value = str::from_utf8(text).ok()?.parse::<u32>().ok()?;
    let mut buffer = Buffer::new();
    if buffer.format(value).as_bytes() == text {
        Some(value)
    } else {
        None
    }
}

// A number and the space after it, and what follows.
fn read_number(text: &[u8]) -> Option<(u32, &[u8])>
    ensures spelled { IfSome result (λ r. text.now ≡ number r.0 ++ r.1.now) }
    ensures complete { (n : ℕ) (rest : List ℕ) → n < 2 ^ 32 → text.now ≡ number n ++ rest
        → IsSomeAnd result (λ r. (r.0 ≡ n) × (r.1.now ≡ rest)) }
{
    let (digits, rest) = cut(b' ', text)?;
    let value = written(digits)?;
    Some((value, rest))
}

// A number of an account.
fn read_id(text: &[u8]) -> Option<(u32, &[u8])>
    ensures spelled { IfSome result (λ r. text.now ≡ number r.0 ++ r.1.now) }
    ensures lawful { IfSome result (λ r. r.0 ≤ 4294967294) }
    ensures complete { (n : ℕ) (rest : List ℕ) → n ≤ 4294967294 → text.now ≡ number n ++ rest
        → IsSomeAnd result (λ r. (r.0 ≡ n) × (r.1.now ≡ rest)) }
{
    let (value, rest) = read_number(text)?;
    if value > GREATEST_ID {
        return None;
    }
    Some((value, rest))
}

// The first line, and what follows.
pub(crate) fn read_head(text: &[u8]) -> Option<(&[u8], &[u8])>
    ensures spelled { IfSome result (λ r. text.now ≡ head r.0.now ++ r.1.now) }
    ensures lawful { IfSome result (λ r. IsHostName r.0.now) }
    ensures complete { (host rest : List ℕ) → IsHostName host → text.now ≡ head host ++ rest
        → IsSomeAnd result (λ r. (r.0.now ≡ host) × (r.1.now ≡ rest)) }
{
    let after = text.strip_prefix(b"unify plan 1 ")?;
    let (host, rest) = cut(b'\n', after)?;
    if !is_host_name(host) {
        return None;
    }
    Some((host, rest))
}

// A record, and what follows.
pub(crate) fn read_record(text: &[u8]) -> Option<(Record<'_>, &[u8])>
    ensures spelled { IfSome result (λ r. text.now ≡ line (record_of r.0) ++ r.1.now) }
    ensures lawful { IfSome result (λ r. IsLawfulRecord (record_of r.0)) }
    ensures complete { (c : PlanRecord) (rest : List ℕ) → IsLawfulRecord c
        → text.now ≡ line c ++ rest
        → IsSomeAnd result (λ r. (record_of r.0 ≡ c) × (r.1.now ≡ rest)) }
{
    let (before, text) = read_owner(text)?;
    let (after, text) = read_owner(text)?;
    if before == after {
        return None;
    }
    let (size, text) = read_number(text)?;
    let (path, rest) = read_path(text, size as usize)?;
    let planned = Record {
        before,
        after,
        path,
    };
    Some((planned, rest))
}

// A path of this length and the end of its line, and what follows.
fn read_path(text: &[u8], size: usize) -> Option<(&[u8], &[u8])>
    ensures spelled { IfSome result (λ r. text.now ≡ r.0.now ++ 10 ∷ r.1.now) }
    ensures length { IfSome result (λ r. length r.0.now ≡ size) }
    ensures lawful { IfSome result (λ r. IsLawfulPath r.0.now) }
    ensures complete { (path rest : List ℕ) → IsLawfulPath path → length path ≡ size
        → text.now ≡ path ++ 10 ∷ rest
        → IsSomeAnd result (λ r. (r.0.now ≡ path) × (r.1.now ≡ rest)) }
{
    if size == 0 || size > MOST_LINE_BYTES || size >= text.len() || text[size] != b'\n' {
        return None;
    }
    let path = &text[..size];
    if !has_no_nul(path) {
        return None;
    }
    Some((path, &text[size + 1..]))
}

fn has_no_nul(path: &[u8]) -> bool
    ensures lawful { result ≡ true → All (λ b. b ≢ 0) path.now }
    ensures complete { All (λ b. b ≢ 0) path.now → result ≡ true }
{
    path.iter().all(|byte| *byte != 0)
}

fn read_owner(text: &[u8]) -> Option<(Owner, &[u8])>
    ensures spelled { IfSome result (λ r. text.now ≡ number r.0.uid ++ number r.0.gid ++ r.1.now) }
    ensures lawful { IfSome result (λ r. IsOwner r.0) }
    ensures complete { (owner : Owner) (rest : List ℕ) → IsOwner owner
        → text.now ≡ number owner.uid ++ number owner.gid ++ rest
        → IsSomeAnd result (λ r. (r.0 ≡ owner) × (r.1.now ≡ rest)) }
{
    let (uid, text) = read_id(text)?;
    let (gid, text) = read_id(text)?;
    Some((Owner { uid, gid }, text))
}
