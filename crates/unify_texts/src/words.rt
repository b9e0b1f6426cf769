//! Lines of words.

ghost use Rattle.std.specs.Prelude.{◌≡◌, ◌++◌, ◌∷◌, OnOk, map};
ghost use Rattle.unify_texts.specs.Words.{which_word, shown, spaced, line, word_text};

use hosts_join::Which;
use idtext::{push_escaped, push_number};
use std::alloc::AllocError;

/// A word of a line.
#[derive(Clone, Copy)]
pub enum Word<'a> {
    /// A text, as it stands.
    Text(&'a str),
    /// A name, as it stands.
    Raw(&'a [u8]),
    /// A name or a path, escaped; a hyphen where it is empty.
    Shown(&'a [u8]),
    /// A number, in decimal.
    Number(u128),
}

pub fn kind_word(kind: Which) -> &'static str
    ensures { result.now ≡ which_word kind }
{
    match kind {
        Which::User => "user",
        Which::Group => "group",
    }
}

fn push_shown(out: &mut Vec<u8>, name: &[u8]) -> Result<(), AllocError>
    ensures { OnOk result (out.new.items ≡ out.old.items ++ shown name.now) }
{
    match name {
        [] => {
            out.push(b'-')?;
            Ok(())
        }
        [_, ..] => push_escaped(out, name),
    }
}

fn push_word(out: &mut Vec<u8>, word: &Word<'_>) -> Result<(), AllocError>
    ensures { OnOk result (out.new.items ≡ out.old.items ++ 32 ∷ word_text word.now) }
{
    out.push(b' ')?;
    match word {
        Word::Text(text) => out.extend_from_slice(text.as_bytes()),
        Word::Raw(name) => out.extend_from_slice(name),
        Word::Shown(name) => push_shown(out, name),
        Word::Number(number) => push_number(out, *number),
    }
}

/// Appends the words, each after a space.
pub fn push_words(out: &mut Vec<u8>, words: &[Word<'_>]) -> Result<(), AllocError>
    ensures { OnOk result (out.new.items ≡ out.old.items ++ spaced (map word_text words.now)) }
{
    for word in words {
        push_word(out, word)?;
    }
    Ok(())
}

/// Appends a line: its first word, the others, each after a space, and the newline.
pub fn push_line(out: &mut Vec<u8>, first: &str, words: &[Word<'_>]) -> Result<(), AllocError>
    ensures { OnOk result
        (out.new.items ≡ out.old.items ++ line first.now (map word_text words.now)) }
{
    out.extend_from_slice(first.as_bytes())?;
    push_words(out, words)?;
    out.push(b'\n')?;
    Ok(())
}
