//! The files of an inventory by path.
ghost use Rattle.std.specs.Prelude.{◌≡◌, option_copied, IfOk};
ghost use Rattle.kept_names.specs.Found.{FindsFiles};
ghost use Rattle.mtree_inv.specs.Files.{HaveDistinctFiles};
ghost use Rattle.mtree_inv.specs.Inventory.{file_at};

use mtree_inv::Entry;
use std::alloc::{AllocError, Global};
use std::collections::BTreeMap;
use std::marker::Model;

/// Files that are found by path, in a search tree. Whoever names files chooses their paths, so no
/// look-up may cost more than a few comparisons, whatever the names are: that is why no table of
/// hashes is used here. It keeps references alone.
pub(crate) struct Paths<'f> {
    files: &'f [Entry],
    tree: BTreeMap<&'f [u8], &'f Entry>,
}

// Written out, so that the proof of a function that lets one go has one call there.
impl Drop for Paths<'_> {
    fn drop(self) {
        let Paths { files: _, tree } = self;
        drop(tree);
    }
}

impl<'f> Model for Paths<'f> {
    ghost use Rattle.std.specs.Prelude.{List};
    ghost use Rattle.kept_names.specs.Found.{FindsFiles};
    ghost use Rattle.mtree_inv.specs.declared.entry.Entry.{Entry};

    ghost Value = { List Entry };

    ghost view = { λ it. it.files.now };

    ghost invariant = { λ it. FindsFiles it.tree.entries it.files.now };
}

// The files by path, which differ.
fn tree_of<'f>(
    alloc: Global,
    files: &'f [Entry],
) -> Result<BTreeMap<&'f [u8], &'f Entry>, AllocError>
    requires { HaveDistinctFiles files.now }
    ensures { IfOk result (λ tree. FindsFiles tree.entries files.now) }
{
    let mut tree = BTreeMap::new(alloc);
    for file in files {
        tree.insert(file.path.bytes(), file)?;
    }
    Ok(tree)
}

impl<'f> Paths<'f> {
    /// The files, found by path. Each is put into the tree: as many comparisons of paths as the
    /// files' number has bits, or a few times that, for each.
    pub(crate) fn new(alloc: Global, files: &'f [Entry]) -> Result<Paths<'f>, AllocError>
        requires { HaveDistinctFiles files.now }
        ensures { IfOk result (λ paths. paths ≡ files.now) }
    {
        let tree = tree_of(alloc, files)?;
        Ok(Paths { files, tree })
    }

    /// The file at a path. A look-up in the tree.
    pub(crate) fn file(&self, path: &[u8]) -> Option<&'f Entry>
        ensures { option_copied result ≡ file_at self.now path.now }
    {
        self.tree.get(path).copied()
    }
}
