//! What a fault line says after the fault's name.

ghost use Rattle.std.specs.Prelude.{◌≡◌, ◌++◌, ◌∷◌, [], OnOk, codes, decimal};
ghost use Rattle.unify_texts.specs.Words.{which_word, spaced, shown};
ghost use Rattle.unify_texts.specs.BundleLines.{file_word};
ghost use Rattle.unify_texts.specs.Faults.{class_word, details, joining_details, place_shown};
ghost use Rattle.unify_texts.specs.Faults.{reserver_words};

use crate::bundle_line::FileName;
use crate::fault::Fault;
use crate::words::{Word, kind_word, push_words};
use hosts_join::{PoolClass, Reserved, Reserver, Which};
use idtext::Name;
use logindefs::IdRange;
use std::alloc::AllocError;

/// The host, or the empty name, which is shown as a hyphen, for the pins text.
fn pinning_place<'a>(first: &Option<Name<'a>>) -> &'a [u8]
    ensures { shown result.now ≡ place_shown first.now }
{
    match first {
        None => b"",
        Some(host) => host.bytes(),
    }
}

/// A class's name in a fault line.
fn class_text(class: PoolClass) -> &'static str
    ensures { result.now ≡ class_word class }
{
    match class {
        PoolClass::Regular => "regular",
        PoolClass::System => "system",
    }
}

/// Appends what the fault says, each word after a space.
pub fn push_details(out: &mut Vec<u8>, fault: &Fault<'_>) -> Result<(), AllocError>
    ensures { OnOk result (out.new.items ≡ out.old.items ++ spaced (details fault.now)) }
{
    match fault {
        Fault::Memory | Fault::Device => Ok(()),
        Fault::Line {
            host,
            file,
            line,
            ..
        } => push_place(out, host.bytes(), *file, *line),
        Fault::BadHostName(name) | Fault::HostTwice(name) => push_name(out, name.bytes()),
        Fault::HostCount(count) => push_words(out, &[Word::Number(u128::from(*count))]),
        Fault::NoPrimaryGroup { host, user } => push_user(out, host.bytes(), user.bytes()),
        Fault::PinDisagrees { .. }
        | Fault::PinReserved { .. }
        | Fault::PinClash { .. }
        | Fault::PoolTooSmall { .. } => push_joining_details(out, fault),
        Fault::UnownedUid { host, uid, path } => {
            push_unowned(out, host.bytes(), "uid", *uid, path.bytes())
        }
        Fault::UnownedGid { host, gid, path } => {
            push_unowned(out, host.bytes(), "gid", *gid, path.bytes())
        }
        Fault::NameMissing { kind, name }
        | Fault::OutsidePool { kind, name }
        | Fault::PinBroken { kind, name } => push_kind_name(out, *kind, name.bytes()),
        Fault::NumberTwice { kind, number } => push_kind_number(out, *kind, *number),
        Fault::NotCovered { kind, name, number } => {
            push_uncovered(out, *kind, name.bytes(), *number)
        }
        Fault::SumsDiffer { kind, sum, weight } => push_sums(out, *kind, *sum, *weight),
        Fault::BadPlan(offset) => push_labelled(out, "byte", *offset),
        Fault::Missing(path)
        | Fault::Foreign(path)
        | Fault::Unfinished(path)
        | Fault::AlreadyChanged(path) => push_name(out, path.bytes()),
        Fault::InventoryChanged(host) => push_host(out, host.bytes()),
        Fault::BadCertificate(line)
        | Fault::BadMap(line)
        | Fault::BadBundle(line)
        | Fault::BadPins(line)
        | Fault::BadKeep(line) => push_labelled(out, "line", *line),
    }
}

/// What a fault says for which the names of a kind cannot be joined; nothing for any other.
fn push_joining_details(out: &mut Vec<u8>, fault: &Fault<'_>) -> Result<(), AllocError>
    ensures { OnOk result (out.new.items ≡ out.old.items ++ spaced (joining_details fault.now)) }
{
    match fault {
        Fault::PinDisagrees {
            kind,
            name,
            first,
            second,
        } => push_disagreement(
            out,
            *kind,
            name.bytes(),
            pinning_place(first),
            second.bytes(),
        ),
        Fault::PinReserved {
            kind,
            number,
            name,
            by,
        } => push_reserved(out, *kind, *number, name.bytes(), by),
        Fault::PinClash {
            kind,
            number,
            first,
            second,
        } => push_clash(out, *kind, *number, first.bytes(), second.bytes()),
        Fault::PoolTooSmall {
            kind,
            class,
            names,
            numbers,
        } => push_pool(out, *kind, *class, *names, *numbers),
        _ => Ok(()),
    }
}

/// A line of a host's file.
fn push_place(out: &mut Vec<u8>, host: &[u8], file: FileName, line: u64) -> Result<(), AllocError>
    ensures { OnOk result
        (out.new.items ≡ out.old.items
        ++ spaced (codes "host" ∷ shown host.now ∷ file_word file ∷ codes "line" ∷ decimal line
        ∷ [])) }
{
    push_words(
        out,
        &[
            Word::Text("host"),
            Word::Shown(host),
            Word::Text(file.word()),
            Word::Text("line"),
            Word::Number(u128::from(line)),
        ],
    )
}

/// A host.
fn push_host(out: &mut Vec<u8>, host: &[u8]) -> Result<(), AllocError>
    ensures { OnOk result
        (out.new.items ≡ out.old.items ++ spaced (codes "host" ∷ shown host.now ∷ [])) }
{
    push_words(out, &[Word::Text("host"), Word::Shown(host)])
}

/// A user of a host.
fn push_user<'x>(out: &mut Vec<u8>, host: &'x [u8], user: &'x [u8]) -> Result<(), AllocError>
    ensures { OnOk result
        (out.new.items ≡ out.old.items
        ++ spaced (codes "host" ∷ shown host.now ∷ codes "user" ∷ shown user.now ∷ [])) }
{
    push_words(
        out,
        &[
            Word::Text("host"),
            Word::Shown(host),
            Word::Text("user"),
            Word::Shown(user),
        ],
    )
}

/// A number that nobody on a host has, under its label, and the file that it owns.
fn push_unowned<'x>(
    out: &mut Vec<u8>,
    host: &'x [u8],
    label: &'x str,
    number: u32,
    path: &'x [u8],
) -> Result<(), AllocError>
    ensures { OnOk result
        (out.new.items ≡ out.old.items
        ++ spaced (codes "host" ∷ shown host.now ∷ label.now ∷ decimal number ∷ shown path.now
        ∷ [])) }
{
    push_words(
        out,
        &[
            Word::Text("host"),
            Word::Shown(host),
            Word::Text(label),
            Word::Number(u128::from(number)),
            Word::Shown(path),
        ],
    )
}

/// A name that two places pin to two numbers.
fn push_disagreement<'x>(
    out: &mut Vec<u8>,
    kind: Which,
    name: &'x [u8],
    first: &'x [u8],
    second: &'x [u8],
) -> Result<(), AllocError>
    ensures { OnOk result
        (out.new.items ≡ out.old.items
        ++ spaced (which_word kind ∷ shown name.now ∷ shown first.now ∷ shown second.now ∷ [])) }
{
    push_words(
        out,
        &[
            Word::Text(kind_word(kind)),
            Word::Shown(name),
            Word::Shown(first),
            Word::Shown(second),
        ],
    )
}

/// A name that is pinned to a reserved number, and who reserves it.
fn push_reserved(
    out: &mut Vec<u8>,
    kind: Which,
    number: u32,
    name: &[u8],
    by: &Reserved<'_>,
) -> Result<(), AllocError>
    ensures { OnOk result
        (out.new.items ≡ out.old.items
        ++ spaced (which_word kind ∷ decimal number ∷ shown name.now
        ∷ reserver_words by.now.numbers by.now.by)) }
{
    push_words(
        out,
        &[
            Word::Text(kind_word(kind)),
            Word::Number(u128::from(number)),
            Word::Shown(name),
        ],
    )?;
    push_reserver(out, by)
}

/// Who keeps numbers from being given: a range with its ends, a name that a host keeps, or a host.
fn push_reserver(out: &mut Vec<u8>, reserved: &Reserved<'_>) -> Result<(), AllocError>
    ensures { OnOk result
        (out.new.items ≡ out.old.items
        ++ spaced (reserver_words reserved.now.numbers reserved.now.by)) }
{
    match &reserved.by {
        Reserver::Range => push_range(out, &reserved.numbers),
        Reserver::Name { host, name } => push_kept_name(out, host.bytes(), name.bytes()),
        Reserver::Unowned { host } => {
            push_words(out, &[Word::Text("unowned"), Word::Shown(host.bytes())])
        }
    }
}

/// A range with its ends.
fn push_range(out: &mut Vec<u8>, range: &IdRange) -> Result<(), AllocError>
    ensures { OnOk result
        (out.new.items ≡ out.old.items
        ++ spaced (codes "range" ∷ decimal range.now.low ∷ decimal range.now.high ∷ [])) }
{
    push_words(
        out,
        &[
            Word::Text("range"),
            Word::Number(u128::from(range.low)),
            Word::Number(u128::from(range.high)),
        ],
    )
}

/// A name that is kept on a host.
fn push_kept_name<'x>(out: &mut Vec<u8>, host: &'x [u8], name: &'x [u8]) -> Result<(), AllocError>
    ensures { OnOk result
        (out.new.items ≡ out.old.items
        ++ spaced (codes "name" ∷ shown host.now ∷ shown name.now ∷ [])) }
{
    push_words(
        out,
        &[Word::Text("name"), Word::Shown(host), Word::Shown(name)],
    )
}

/// A number that two names are pinned to.
fn push_clash<'x>(
    out: &mut Vec<u8>,
    kind: Which,
    number: u32,
    first: &'x [u8],
    second: &'x [u8],
) -> Result<(), AllocError>
    ensures { OnOk result
        (out.new.items ≡ out.old.items
        ++ spaced (which_word kind ∷ decimal number ∷ shown first.now ∷ shown second.now ∷ [])) }
{
    push_words(
        out,
        &[
            Word::Text(kind_word(kind)),
            Word::Number(u128::from(number)),
            Word::Shown(first),
            Word::Shown(second),
        ],
    )
}

/// A class with more names than numbers.
fn push_pool(
    out: &mut Vec<u8>,
    kind: Which,
    class: PoolClass,
    names: u64,
    numbers: u64,
) -> Result<(), AllocError>
    ensures { OnOk result
        (out.new.items ≡ out.old.items
        ++ spaced (which_word kind ∷ class_word class ∷ decimal names ∷ decimal numbers ∷ [])) }
{
    push_words(
        out,
        &[
            Word::Text(kind_word(kind)),
            Word::Text(class_text(class)),
            Word::Number(u128::from(names)),
            Word::Number(u128::from(numbers)),
        ],
    )
}

/// A name at a number.
fn push_uncovered(
    out: &mut Vec<u8>,
    kind: Which,
    name: &[u8],
    number: u32,
) -> Result<(), AllocError>
    ensures { OnOk result
        (out.new.items ≡ out.old.items
        ++ spaced (which_word kind ∷ shown name.now ∷ decimal number ∷ [])) }
{
    push_words(
        out,
        &[
            Word::Text(kind_word(kind)),
            Word::Shown(name),
            Word::Number(u128::from(number)),
        ],
    )
}

/// A sum that is not the weight.
fn push_sums(out: &mut Vec<u8>, kind: Which, sum: u128, weight: u128) -> Result<(), AllocError>
    ensures { OnOk result
        (out.new.items ≡ out.old.items
        ++ spaced (which_word kind ∷ decimal sum ∷ decimal weight ∷ [])) }
{
    push_words(
        out,
        &[
            Word::Text(kind_word(kind)),
            Word::Number(sum),
            Word::Number(weight),
        ],
    )
}

/// A number of a kind.
fn push_kind_number(out: &mut Vec<u8>, kind: Which, number: u32) -> Result<(), AllocError>
    ensures { OnOk result
        (out.new.items ≡ out.old.items ++ spaced (which_word kind ∷ decimal number ∷ [])) }
{
    push_words(
        out,
        &[
            Word::Text(kind_word(kind)),
            Word::Number(u128::from(number)),
        ],
    )
}

/// A name of a kind.
fn push_kind_name(out: &mut Vec<u8>, kind: Which, name: &[u8]) -> Result<(), AllocError>
    ensures { OnOk result
        (out.new.items ≡ out.old.items ++ spaced (which_word kind ∷ shown name.now ∷ [])) }
{
    push_words(out, &[Word::Text(kind_word(kind)), Word::Shown(name)])
}

/// A name or a path.
fn push_name(out: &mut Vec<u8>, name: &[u8]) -> Result<(), AllocError>
    ensures { OnOk result (out.new.items ≡ out.old.items ++ spaced (shown name.now ∷ [])) }
{
    push_words(out, &[Word::Shown(name)])
}

/// A number under its label.
fn push_labelled(out: &mut Vec<u8>, label: &str, number: u64) -> Result<(), AllocError>
    ensures { OnOk result
        (out.new.items ≡ out.old.items ++ spaced (label.now ∷ decimal number ∷ [])) }
{
    push_words(out, &[Word::Text(label), Word::Number(u128::from(number))])
}
