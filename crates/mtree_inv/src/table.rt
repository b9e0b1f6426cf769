//! The files so far by path, each path once.
ghost use Rattle.std.specs.Prelude.{◌≡◌, [], length, option_map, IfOk, OnOk, OnErr};
ghost use Rattle.mtree_inv.specs.Fronts.{IsCut, IsCutOf, path_of_cut};
ghost use Rattle.mtree_inv.specs.Inventory.{file_at};
ghost use Rattle.mtree_inv.specs.Machine.{with_new_file};
ghost use Rattle.mtree_inv.specs.Table.{file, listed};

use crate::cut_hashes::{CutHashes, no_hashes};
use crate::cuts::{Cuts, no_cuts};
use crate::fronts::{Fronts, cut, empty_front};
use crate::hashed_cut::HashedCut;
use std::alloc::{AllocError, Global};
use std::marker::Model;

// How many files there may have been where the memory is kept for the next text.
const MOST_KEPT: usize = 1048576;

/// The owner of a file.
#[derive(Clone, Copy, Debug, PartialEq, Eq, Drop)]
pub(crate) struct Owner {
    pub(crate) uid: u32,
    pub(crate) gid: u32,
}

/// The files by path. Where directories stand in directories, paths are thousands of times as long
/// as the names that a text has of them, so none is kept whole here: what stands in front of the
/// last block is kept once for all the paths that begin with it.
#[derive(Drop)]
pub(crate) struct Table {
    fronts: Fronts,
    paths: Cuts,
    owners: Vec<Owner>,
}

impl Model for Table {
    ghost use Rattle.mtree_inv.specs.Table.{TableValue, files_in, IsTable};

    ghost Value = { TableValue };

    ghost view = { λ t. record {
      fronts = t.fronts;
      files = files_in t.fronts t.paths t.owners.items;
    } };

    ghost invariant = { λ t. IsTable t.fronts t.paths t.owners.items };
}

/// No file. Takes no memory.
pub(crate) fn empty_table(alloc: Global) -> Table
    ensures { listed result ≡ [] }
{
    Table {
        fronts: empty_front(alloc),
        paths: no_cuts(alloc),
        owners: Vec::new(alloc),
    }
}

/// Leaves no file. The memory is kept for the files of the next text, unless there were very many.
/// Their paths are expected to have these hashes.
pub(crate) fn empty(table: &mut Table, alloc: Global, expected: CutHashes)
    ensures { listed table.new ≡ [] }
{
    if table.owners.len() > MOST_KEPT {
        *table = empty_table(alloc);
    }
    table.fronts = empty_front(alloc);
    table.paths.restart(expected);
    table.owners.clear();
}

/// The hashes of the paths so far, in their order, if these are at most so many and no two have
/// one hash; else none.
pub(crate) fn hashes(table: &Table, alloc: Global, most: usize) -> CutHashes {
    if table.paths.len() > most {
        return no_hashes(alloc);
    }
    match table.paths.hashes(alloc) {
        Ok(hashes) => hashes,
        Err(_) => no_hashes(alloc),
    }
}

/// The cut of a path: the number of its front, and what stands after that.
pub(crate) fn cut_of<'a>(
    table: &mut Table,
    alloc: Global,
    path: &'a [u8],
) -> Result<HashedCut<'a>, AllocError>
    ensures ok { IfOk result (λ found. IsCutOf table.new.fronts found path.now) }
    ensures files { listed table.new ≡ listed table.old }
{
    cut(&mut table.fronts, alloc, path)
}

/// The owner of the file with a path, if there is one.
pub(crate) fn find(
    table: &mut Table,
    alloc: Global,
    cut: &HashedCut<'_>,
) -> Result<Option<Owner>, AllocError>
    requires { IsCut table.old.fronts cut.now }
    ensures found { IfOk result
        (λ owner. option_map (file (path_of_cut table.old.fronts cut.now)) owner
        ≡ file_at (listed table.old) (path_of_cut table.old.fronts cut.now)) }
    ensures files { listed table.new ≡ listed table.old }
{
    match table.paths.find(alloc, cut)? {
        None => Ok(None),
        Some(index) => Ok(Some(table.owners[index])),
    }
}

/// How many files there are.
pub(crate) fn len(table: &Table) -> usize
    ensures { result ≡ length (listed table.now) }
{
    table.owners.len()
}

/// The owner of the file with a path, if there is one; else the file is added.
pub(crate) fn find_or_insert(
    table: &mut Table,
    alloc: Global,
    cut: &HashedCut<'_>,
    owner: Owner,
) -> Result<Option<Owner>, AllocError>
    requires { IsCut table.old.fronts cut.now }
    ensures known { IfOk result
        (λ known. option_map (file (path_of_cut table.old.fronts cut.now)) known
        ≡ file_at (listed table.old) (path_of_cut table.old.fronts cut.now)) }
    ensures files { OnOk result (listed table.new ≡ with_new_file (listed table.old)
        (file (path_of_cut table.old.fronts cut.now) owner)) }
    ensures err { OnErr result (listed table.new ≡ listed table.old) }
{
    table.owners.reserve(1)?;
    match table.paths.find_or_push(alloc, cut)? {
        Some(index) => Ok(Some(table.owners[index])),
        None => {
            table.owners.push_reserved(owner);
            Ok(None)
        }
    }
}
