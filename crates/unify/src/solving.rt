//! The best mapping of the names of one kind, with its side of the certificate.

ghost use Rattle.std.specs.Prelude.{◌≡◌, List, length, IfOk};
ghost use Rattle.certcheck.specs.Certificate.{IsSide};
ghost use Rattle.certcheck.specs.Made.{IsSideOf, IsSolutionFor};
ghost use Rattle.ownership.specs.Counts.{AreMadeFor, AreWithin, CountFiles};
ghost use Rattle.ownership.specs.Files.{File};
ghost use Rattle.unify.specs.Solving.{IsSolved};

use assignment::{Solution, solve};
use candidates::Rows;
use certcheck::{Side, side_of};
use hosts_join::Names;
use ownership::{KindCounts, Mapping};
use std::alloc::{AllocError, Global};

/// A mapping of names, and the side of a certificate that certifies it.
#[derive(Drop)]
pub struct CertifiedMapping<'a> {
    pub mapping: Mapping,
    pub side: Side<'a>,
}

// The side of a certificate that tells a solution for these names.
fn side_for<'a>(
    alloc: Global,
    names: &Names<'a>,
    solution: &Solution,
) -> Result<Side<'a>, AllocError>
    requires { IsSolutionFor names.now solution.now.mapping solution.now.y.items
        solution.now.z.items }
    ensures side { IfOk result
        (IsSideOf names.now solution.now.mapping solution.now.y.items solution.now.z.items) }
    ensures ordered { IfOk result IsSide }
{
    side_of(
        alloc,
        names,
        solution.mapping.numbers(),
        &solution.y,
        &solution.z,
    )
}

/// The mapping of the names that changes the fewest fields of files, and among those the fewest
/// account rows, with its certificate. Requires that the counters were made for the names. It fails
/// for want of memory alone; its cost is that of `solve`.
pub fn solve_names<'a>(
    alloc: Global,
    names: &Names<'a>,
    counts: &KindCounts,
) -> Result<CertifiedMapping<'a>, AllocError>
    requires made { AreMadeFor names.now.names counts.now }
    requires few { AreWithin counts.now 2147483648 }
    ensures len { IfOk result (λ s. length s.mapping ≡ length names.now.names) }
    ensures solved { IfOk result
        (λ s. (files : List File) → CountFiles names.now.names counts.now files
        → IsSolved names.now files s.mapping s.side) }
{
    let rows = Rows::build(alloc, names, counts)?;
    let solution = solve(alloc, &rows)?;
    let side = side_for(alloc, names, &solution)?;
    Ok(CertifiedMapping {
        mapping: solution.mapping,
        side,
    })
}
