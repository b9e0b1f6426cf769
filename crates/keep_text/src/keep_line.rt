//! The lines of a keep text. The format is this project's own.

ghost use Rattle.std.specs.Prelude.{◌≡◌};
ghost use Rattle.idtext.specs.Spaces.{cut_at_last_space};
ghost use Rattle.keep_text.specs.KeepLines.{keep_line_of, named, ranged};

use hosts_join::Which;
use idtext::{Name, decimal, is_lawful_name, is_skipped, split_at_last_space};
use logindefs::IdRange;

/// What a line of a keep text says of users, or of groups.
#[derive(Drop)]
pub enum Said<'a> {
    /// The name keeps, on each host, the number that it has there.
    Name(Name<'a>),
    /// The numbers of this range, which is not empty, stay as they are.
    Range(IdRange),
    /// Numbers without an account stay as they are.
    Unowned,
}

/// A line of a keep text.
#[derive(Drop)]
pub enum KeepLine<'a> {
    /// It says nothing: it is blank, or begins with `#`.
    Skipped,
    /// It is no such line.
    Wrong,
    /// It says something of users, or of groups.
    Given { which: Which, said: Said<'a> },
}

/// What a line says whose first word is followed by this name.
fn name_line(which: Which, name: &[u8]) -> KeepLine<'_>
    ensures { result ≡ named which name.now }
{
    if is_lawful_name(name) {
        return KeepLine::Given {
            which,
            said: Said::Name(Name::new(name)),
        };
    }
    KeepLine::Wrong
}

/// What a line says whose first word is followed by these two numbers.
fn range_line(which: Which, numbers: &[u8]) -> KeepLine<'_>
    ensures { result ≡ ranged which (cut_at_last_space numbers.now) }
{
    let Some((low, high)) = split_at_last_space(numbers) else {
        return KeepLine::Wrong;
    };
    let Some(low) = decimal(low) else {
        return KeepLine::Wrong;
    };
    match decimal(high) {
        Some(high) if low <= high => KeepLine::Given {
            which,
            said: Said::Range(IdRange { low, high }),
        },
        _ => KeepLine::Wrong,
    }
}

/// What a line says by itself. A few passes over it.
#[tactic(auto, unfolding(crate::specs::KeepLines::keep_line_of))]
pub fn keep_line(line: &[u8]) -> KeepLine<'_>
    ensures { result ≡ keep_line_of line.now }
{
    if is_skipped(line) {
        return KeepLine::Skipped;
    }
    if let Some(name) = line.strip_prefix(b"user ") {
        return name_line(Which::User, name);
    }
    if let Some(name) = line.strip_prefix(b"group ") {
        return name_line(Which::Group, name);
    }
    if let Some(numbers) = line.strip_prefix(b"users ") {
        return range_line(Which::User, numbers);
    }
    if let Some(numbers) = line.strip_prefix(b"groups ") {
        return range_line(Which::Group, numbers);
    }
    if line == b"unowned users".as_slice() {
        return KeepLine::Given {
            which: Which::User,
            said: Said::Unowned,
        };
    }
    if line == b"unowned groups".as_slice() {
        return KeepLine::Given {
            which: Which::Group,
            said: Said::Unowned,
        };
    }
    KeepLine::Wrong
}
