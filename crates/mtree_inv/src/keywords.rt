//! The keywords of a line.
ghost use Rattle.std.specs.Prelude.{◌≡◌, ◌≤◌, ◌<◌, ◌+◌, ℕ, [], ◌∷◌, length, slice_index};
ghost use Rattle.std.specs.Prelude.{true, false, IfSome, MatchOption};
ghost use Rattle.idtext.specs.Words.{is_white as is_space, words};

fn is_white(byte: u8) -> bool
    ensures { result ≡ is_space byte }
{
    byte == b' ' || byte == b'\t'
}

// How many bytes at the front of a line are white space.
fn white_len(line: &[u8]) -> usize
    ensures within { result ≤ length line.now }
    ensures run { (k : ℕ) → k < result → is_space (slice_index line.now k) ≡ true }
    ensures end { result < length line.now → is_space (slice_index line.now result) ≡ false }
{
    for (i, byte) in line.iter().enumerate() {
        if !is_white(*byte) {
            return i;
        }
    }
    line.len()
}

// Whether a byte stands after those that are white space, as those of most words do.
fn is_above_white(byte: u8) -> bool
    ensures { result ≡ true → is_space byte ≡ false }
{
    byte > b' '
}

// Whether the next four bytes are above white space.
fn are_four_above_white(line: &[u8], at: usize) -> bool
    requires { at ≤ length line.now }
    ensures within { result ≡ true → at + 4 ≤ length line.now }
    ensures run { result ≡ true
        → (k : ℕ) → at ≤ k → k < at + 4 → is_space (slice_index line.now k) ≡ false }
{
    line.len() - at >= 4
        && is_above_white(line[at])
        && is_above_white(line[at + 1])
        && is_above_white(line[at + 2])
        && is_above_white(line[at + 3])
}

// How many bytes at the front of a line are no white space.
fn black_len(line: &[u8]) -> usize
    ensures within { result ≤ length line.now }
    ensures run { (k : ℕ) → k < result → is_space (slice_index line.now k) ≡ false }
    ensures end { result < length line.now → is_space (slice_index line.now result) ≡ true }
{
    let mut at = 0;
    while are_four_above_white(line, at) {
        at += 4;
    }
    while at < line.len() && !is_white(line[at]) {
        at += 1;
    }
    at
}

// A line without the spaces at its front, as long as there are eight: a line that is joined with
// the one before it mostly begins with many.
fn without_indent(line: &[u8]) -> &[u8]
    ensures words { words result.now ≡ words line.now }
    ensures within { length result.now ≤ length line.now }
{
    let mut rest = line;
    while let Some(behind) = rest.strip_prefix(b"        ") {
        rest = behind;
    }
    rest
}

/// The first keyword of a line, and all that stands after it; None where the line has none. Most
/// are short: a search that is begun anew for each would take longer, and so would a call.
#[inline(always)]
pub(crate) fn first_keyword(line: &[u8]) -> Option<(&[u8], &[u8])>
    ensures words { MatchOption result (words line.now ≡ [])
        (λ found. words line.now ≡ found.0.now ∷ words found.1.now) }
    ensures shorter { IfSome result (λ found. length found.1.now < length line.now) }
{
    let rest = without_indent(line);
    let start = white_len(rest);
    if start == rest.len() {
        return None;
    }
    let (_, from) = rest.split_at(start);
    let len = black_len(from);
    Some(from.split_at(len))
}
