//! Names of accounts, and lines that say nothing.
#![tactic(auto)]

ghost use Rattle.std.specs.Prelude.{◌≡◌};
ghost use Rattle.std.specs.List.{list_all, list_any};
ghost use Rattle.idtext.specs.Names.{is_lawful_name as is_lawful, is_separator as separates};
ghost use Rattle.idtext.specs.Names.{is_skipped as says_nothing};
ghost use Rattle.idtext.specs.Words.{is_white as is_space};

use crate::words::is_white;

// Whether a byte stands in no name.
fn is_separator(byte: u8) -> bool
    ensures { result ≡ separates byte }
{
    byte == b',' || byte == b':' || byte == b'\n' || byte == 0
}

// Whether a byte of a name is one that stands in no name.
fn has_separator(name: &[u8]) -> bool
    ensures { result ≡ list_any separates name.now }
{
    name.iter().any(|byte| is_separator(*byte))
}

/// Whether a user or a group may have this name: it is not empty, has no comma, colon, newline or
/// NUL, which part names in passwd(5) and group(5), and does not begin with `#`, `+` or `-`, which
/// mark comments and NIS entries. One pass over the name.
pub fn is_lawful_name(name: &[u8]) -> bool
    ensures { result ≡ is_lawful name.now }
{
    match name {
        [] | [b'#' | b'+' | b'-', ..] => false,
        _ => !has_separator(name),
    }
}

// Whether a line is empty or only white space.
fn is_blank(line: &[u8]) -> bool
    ensures { result ≡ list_all is_space line.now }
{
    line.iter().all(|byte| is_white(*byte))
}

/// Whether a line of passwd, group, a map, a pins text or a keep text says nothing: it is empty or
/// only white space, or begins with `#`. One pass over the line, up to the first byte that is not
/// white space.
pub fn is_skipped(line: &[u8]) -> bool
    ensures { result ≡ says_nothing line.now }
{
    match line {
        [b'#', ..] => true,
        _ => is_blank(line),
    }
}
