//! The directory of an earlier entry, for the names of those that come.
ghost use Rattle.std.specs.Prelude.{◌≡◌, true};
ghost use Rattle.mtree_inv.specs.Views.{IsPlainName};

use crate::place::{is_simple_part, without_dot};
use std::alloc::Global;
use std::marker::Model;

// Whether a name stands in a path as it is.
fn is_plain_name(name: &[u8]) -> bool
    ensures { result ≡ true → IsPlainName name.now }
{
    is_simple_part(name) && !name.contains(&b'/') && !name.contains(&0) && !name.contains(&b'\\')
}

/// What stands, up to the last slash, in the last full path that was read anew and has neither an
/// escape nor a component that begins with a dot. Most entries of an inventory with full paths lie in
/// the directory of the one before: then only the name is looked at. Nothing rests on what is kept
/// but time.
#[derive(Drop)]
pub(crate) struct KnownParent {
    is_known: bool,
    path: Vec<u8>,
}

impl Model for KnownParent {
    ghost use Rattle.std.specs.Prelude.{◌≡◌, true};
    ghost use Rattle.mtree_inv.specs.Views.{IsKnownParent};

    ghost Value = { Unit {0} };

    ghost view = { λ _. tt };

    ghost invariant = { λ k. k.is_known ≡ true → IsKnownParent k.path.items };
}

impl KnownParent {
    ghost use Rattle.std.specs.Prelude.{IfSome};
    ghost use Rattle.mtree_inv.specs.Views.{IsFullPath, IsParent};

    /// None is known. Takes no memory.
    pub(crate) fn new(alloc: Global) -> Self {
        KnownParent {
            is_known: false,
            path: Vec::new(alloc),
        }
    }

    /// The path of a word, a part of it, where that is one of a name in the directory.
    pub(crate) fn path_of<'w>(&self, word: &'w [u8]) -> Option<&'w [u8]>
        ensures { IfSome result (λ path. IsFullPath word.now path.now) }
    {
        if !self.is_known {
            return None;
        }
        let path = without_dot(word);
        let name = path.strip_prefix(self.path.as_slice())?;
        if is_plain_name(name) {
            Some(path)
        } else {
            None
        }
    }

    /// Keeps the front of a path, unless it has no slash, or memory is refused.
    pub(crate) fn keep(&mut self, parent: &[u8])
        requires { IsParent parent.now }
    {
        self.is_known = false;
        self.path.clear();
        let is_kept = self.path.extend_from_slice(parent).is_ok();
        self.is_known = is_kept && parent.contains(&b'/');
    }
}
