//! Laws of the definitions, each the contract of a function that does nothing.

ghost use Rattle.edf_claim.specs.Claims.{SaysOneClaim};
ghost use Rattle.edf_claim.specs.Faults.{SaysClaimOrFault, FaultIsFirst};

/// A table says at most one claim.
pub fn tables_say_one_claim()
    ensures { SaysOneClaim }
{}

/// A table says a claim exactly where its list of tests has no fault, and the claim is the one that is
/// read of it.
pub fn tables_say_a_claim_or_fail()
    ensures { SaysClaimOrFault }
{}

/// The fault of a table's list of tests is the first test that the table fails.
pub fn faults_are_first()
    ensures { FaultIsFirst }
{}
