//! Inventories that tell where they begin and end.
ghost use Rattle.std.specs.Prelude.{◌≡◌};
ghost use Rattle.mtree_inv.specs.Machine as machine;
ghost use Rattle.mtree_inv.specs.Whole as whole;

use idtext::decimal;

/// The inventory that was begun last, as far as its lines came.
#[derive(Clone, Copy, Debug, PartialEq, Eq, Drop)]
pub(crate) struct Begun {
    /// How many lines after its first one gave a file; stays at the greatest number.
    pub(crate) files: u64,
    /// Whether this number was told, and no file was given since.
    pub(crate) is_ended: bool,
}

/// An inventory of which nothing but the first line came.
pub(crate) fn begun_now() -> Begun
    ensures { result ≡ machine.begun_now }
{
    Begun {
        files: 0,
        is_ended: false,
    }
}

/// With one file more.
pub(crate) fn with_file_given(begun: Option<Begun>) -> Option<Begun>
    ensures { result ≡ machine.with_file_given begun }
{
    match begun {
        None => None,
        Some(begun) => Some(Begun {
            files: begun.files.saturating_add(1),
            is_ended: false,
        }),
    }
}

// Whether the number that was told is this one.
fn is_number(told: Option<u32>, files: u64) -> bool
    ensures { result ≡ whole.is_number told files }
{
    match told {
        None => false,
        Some(number) => u64::from(number) == files,
    }
}

/// With the number of files that a line tells.
pub(crate) fn with_count(begun: Option<Begun>, text: &[u8]) -> Option<Begun>
    ensures { result ≡ machine.with_count text.now begun }
{
    match begun {
        None => None,
        Some(begun) => Some(Begun {
            files: begun.files,
            is_ended: is_number(decimal(text), begun.files),
        }),
    }
}

/// Whether one was begun that is not ended.
pub(crate) fn is_unended(begun: Option<Begun>) -> bool
    ensures { result ≡ machine.is_unended begun }
{
    match begun {
        None => false,
        Some(begun) => !begun.is_ended,
    }
}
