//! What a certificate says.

use std::marker::Model;

/// A name, a slice of the input, with its number and its potential y.
#[derive(Clone, Copy, Debug)]
pub struct CertRow<'a> {
    pub name: &'a [u8],
    pub number: u32,
    pub y: u64,
}

/// What a certificate says of one kind: rows, strictly ascending in byte order of their names,
/// which are lawful, with numbers that an account may have; and numbers with a potential z of at
/// least 1, strictly ascending. Every other number has the potential 0.
#[derive(Drop)]
pub struct Side<'a> {
    rows: Vec<CertRow<'a>>,
    z: Vec<(u32, u64)>,
}

impl<'a> Model for Side<'a> {
    ghost use Rattle.certcheck.specs.Certificate as spec;

    ghost Value = { spec.Side };

    ghost use Rattle.certcheck.specs.Views.{rows_of};

    ghost view = { λ s. record { rows = rows_of s.rows.items; z = s.z.items } };

    ghost invariant = { λ s. spec.IsSide (record { rows = rows_of s.rows.items; z = s.z.items }) };
}

impl<'a> Side<'a> {
    ghost use Rattle.std.specs.Prelude.{◌≡◌};
    ghost use Rattle.certcheck.specs.Certificate as spec;
    ghost use Rattle.certcheck.specs.Views.{rows_of};

    /// The side of these rows and these z. Requires the invariant of the type. No cost.
    pub fn new(rows: Vec<CertRow<'a>>, z: Vec<(u32, u64)>) -> Self
        requires { spec.IsSide (record { rows = rows_of rows.items; z = z.items }) }
        ensures { result ≡ record { rows = rows_of rows.entry.items; z = z.items } }
    {
        Side { rows, z }
    }

    /// The rows, ascending by name. No cost.
    pub fn rows(&self) -> &[CertRow<'a>]
        ensures rows { rows_of result.now ≡ self.now.rows }
        ensures side { spec.IsSide self.now }
    {
        self.rows.as_slice()
    }

    /// The numbers with a z, ascending. No cost.
    pub fn z(&self) -> &[(u32, u64)]
        ensures z { result.now ≡ self.now.z }
        ensures side { spec.IsSide self.now }
    {
        self.z.as_slice()
    }
}

/// What a certificate says of users and of groups.
#[derive(Drop)]
pub struct Certificate<'a> {
    pub users: Side<'a>,
    pub groups: Side<'a>,
}
