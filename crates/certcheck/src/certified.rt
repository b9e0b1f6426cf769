//! Laws of what the check answers, each the contract of a call that does nothing.
ghost use Rattle.certcheck.specs.Certified.{AcceptedIsCertified, CertifiedIsAccepted};
ghost use Rattle.certcheck.specs.FaultOrder.{FirstFaultIsTold};
ghost use Rattle.certcheck.specs.Refused.{ToldFaultIsThere};

/// An accepted certificate certifies the mappings of both kinds, so no admissible pair of mappings
/// costs less, and none of the same cost for a kind changes fewer account rows of it; the answer is
/// the cost.
pub fn accepted_is_certified()
    ensures { AcceptedIsCertified }
{}

/// A certificate that certifies the mappings of both kinds is accepted.
pub fn certified_is_accepted()
    ensures { CertifiedIsAccepted }
{}

/// The fault that a refused certificate is told is there: a name that one of site and certificate
/// lacks, two rows with the number, a free name's number outside its pool, a pinned name's that is
/// not its pin, a number of the name's pool that weighs more for it than y and z together, or the
/// two sums, which differ.
pub fn told_fault_is_there()
    ensures { ToldFaultIsThere }
{}

/// A refused certificate is told its first fault: that of users, or, where they have none, that of
/// groups. Of a kind that is the one with the lowest number from 29 to 34, and of those with one
/// number the one of the least name, and then of the least account number.
pub fn first_fault_is_told()
    ensures { FirstFaultIsTold }
{}
