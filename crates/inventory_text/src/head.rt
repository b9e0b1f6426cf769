//! The first line of an inventory.
ghost use Rattle.std.specs.Prelude.{◌≡◌, ◌++◌, OnOk, is_ok, if◌then◌else◌, length, map, take};
ghost use Rattle.inventory_text.specs.Writing.{ended, head_line, words_text};

use crate::parts::push_with_escaped;
use std::alloc::AllocError;

// Appends words with a space in front of each, also where memory runs out on the way.
fn push_words(text: &mut Vec<u8>, words: &[&[u8]]) -> Result<(), AllocError>
    ensures pushed { OnOk result
        (text.new.items ≡ text.old.items ++ words_text (map (λ word. word.now) words.now)) }
    ensures kept { take (length text.old.items) text.new.items ≡ text.old.items }
{
    for word in words {
        push_with_escaped(text, b" ", word, &[])?;
    }
    Ok(())
}

// Appends the first line, also where memory runs out on the way.
fn push_each_word(
    text: &mut Vec<u8>,
    host: &[u8],
    time: &[u8],
    roots: &[&[u8]],
) -> Result<(), AllocError>
    ensures pushed { OnOk result
        (text.new.items ≡ text.old.items ++ ended (head_line (record {
          host = host.now;
          time = time.now;
          roots = map (λ root. root.now) roots.now;
        }))) }
    ensures kept { take (length text.old.items) text.new.items ≡ text.old.items }
{
    text.extend_from_slice(b"# unify inventory 1")?;
    push_words(text, &[host, time])?;
    push_words(text, roots)?;
    text.extend_from_slice(b"\n")
}

/// Appends the first line of a host's inventory, a comment that names the host, the time when it
/// was begun, and the roots whose files it lists, with each of their bytes visible.
/// [`heads_read_back`](crate::heads_read_back) says that they are read back. One pass over the
/// words.
///
/// # Errors
///
/// Where memory is refused; the text is then as it was.
pub fn push_head(
    text: &mut Vec<u8>,
    host: &[u8],
    time: &[u8],
    roots: &[&[u8]],
) -> Result<(), AllocError>
    ensures { text.new.items
        ≡ (if is_ok result then text.old.items ++ ended (head_line (record {
          host = host.now;
          time = time.now;
          roots = map (λ root. root.now) roots.now;
        }))
        else text.old.items) }
{
    let before = text.len();
    let pushed = push_each_word(text, host, time, roots);
    if pushed.is_err() {
        text.truncate(before);
    }
    pushed
}
