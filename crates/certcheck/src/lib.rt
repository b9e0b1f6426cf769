//! Certificates that a mapping is the best, and their check. A certificate has, of each kind, the
//! number and a potential y of every name, and a potential z of some numbers. Whoever wrote it, a
//! yes of `check` proves that no better mapping exists, by weak duality of the assignment problem
//! (Kuhn 1955, Munkres 1957).
#![tactic(auto)]

mod certificate;
mod certified;
mod checking;
mod cover;
mod fault;
mod laws;
mod line;
mod lines;
mod lookup;
mod making;
mod names;
mod numbers;
mod numeral;
mod pools;
mod reading;
mod sums;
mod writing;

pub use certificate::{CertRow, Certificate, Side};
pub use certified::{
    accepted_is_certified, certified_is_accepted, first_fault_is_told, told_fault_is_there,
};
pub use checking::check;
pub use fault::CheckFault;
pub use laws::{certificate_by_example, certificates_are_spelled, first_bad_line_is_told};
pub use lines::read_certificate;
pub use making::side_of;
pub use reading::CertificateFault;
pub use writing::write_certificate;
