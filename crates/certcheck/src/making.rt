//! The side of a certificate, from a mapping and its potentials.
ghost use Rattle.std.specs.Prelude.{◌≡◌, IfOk, length};
ghost use Rattle.hosts_join.specs.Lawful.{AreLawfulAccounts};
ghost use Rattle.certcheck.specs.Certificate.{IsSide};
ghost use Rattle.certcheck.specs.Made.{AreRowsInOrder, IsSolutionFor, IsSideOf};
ghost use Rattle.certcheck.specs.Views.{rows_of};

use crate::{CertRow, Side};
use hosts_join::Names;
use std::alloc::{AllocError, Global};

/// The rows, in byte order of their names.
fn rows_in_order<'a>(
    alloc: Global,
    names: &Names<'a>,
    mapping: &[u32],
    y: &[u64],
) -> Result<Vec<CertRow<'a>>, AllocError>
    requires numbers { length mapping.now ≡ length names.now.names }
    requires ys { length y.now ≡ length names.now.names }
    ensures rows { IfOk result
        (λ rows. AreRowsInOrder names.now mapping.now y.now (rows_of rows.items)) }
    ensures lawful { AreLawfulAccounts names.now }
{
    let order = names.in_byte_order();
    let mut rows = Vec::with_capacity(alloc, order.len())?;
    for index in order {
        rows.push(CertRow {
            name: names.name(*index),
            number: mapping[*index as usize],
            y: y[*index as usize],
        })?;
    }
    Ok(rows)
}

/// The side that has each name with its number and its potential y, by the index of the name,
/// ascending by name, and these potentials z of numbers. Requires a number that an account may have
/// and a y for each name, and z of at least 1 at ascending numbers that an account may have, as a
/// solution of `solve` for these names has them. Time and memory in step with the names;
/// `AllocError` where it is refused.
pub fn side_of<'a>(
    alloc: Global,
    names: &Names<'a>,
    mapping: &[u32],
    y: &[u64],
    z: &[(u32, u64)],
) -> Result<Side<'a>, AllocError>
    requires { IsSolutionFor names.now mapping.now y.now z.now }
    ensures side { IfOk result (IsSideOf names.now mapping.now y.now z.now) }
    ensures ordered { IfOk result IsSide }
{
    let rows = rows_in_order(alloc, names, mapping, y)?;
    let z = Vec::from_slice(alloc, z)?;
    Ok(Side::new(rows, z))
}
