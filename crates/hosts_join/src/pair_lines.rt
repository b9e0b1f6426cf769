//! The lines of a map text and of a pins text.

ghost use Rattle.std.specs.Prelude.{◌≡◌};
ghost use Rattle.hosts_join.specs.PairLines.{pair_line_of, cut_pair};
ghost use Rattle.idtext.specs.Spaces.{cut_at_last_space};

use crate::Which;
use idtext::{Name, decimal, is_lawful_name, is_skipped, split_at_last_space};

/// What a line of a map text or a pins text says.
#[derive(Drop)]
pub enum PairLine<'a> {
    /// Nothing: the line is blank, or begins with `#`.
    Skipped,
    /// It is no such line.
    Wrong,
    /// The name has the number.
    Given {
        which: Which,
        name: Name<'a>,
        number: u32,
    },
}

// The pair that stands after the first word of a line.
fn pair(which: Which, text: &[u8]) -> PairLine<'_>
    ensures { result ≡ cut_pair which (cut_at_last_space text.now) }
{
    let Some((name, digits)) = split_at_last_space(text) else {
        return PairLine::Wrong;
    };
    match decimal(digits) {
        Some(number) if is_lawful_name(name) => PairLine::Given {
            which,
            name: Name::new(name),
            number,
        },
        _ => PairLine::Wrong,
    }
}

/// What a line says: `user NAME NUMBER` or `group NAME NUMBER`, where the name is what stands
/// between the first and the last space, or nothing. A few passes over the line.
#[tactic(auto, unfolding(crate::specs::PairLines::pair_line_of))]
pub fn pair_line(line: &[u8]) -> PairLine<'_>
    ensures { result ≡ pair_line_of line.now }
{
    if is_skipped(line) {
        return PairLine::Skipped;
    }
    if let Some(rest) = line.strip_prefix(b"user ") {
        return pair(Which::User, rest);
    }
    if let Some(rest) = line.strip_prefix(b"group ") {
        return pair(Which::Group, rest);
    }
    PairLine::Wrong
}
