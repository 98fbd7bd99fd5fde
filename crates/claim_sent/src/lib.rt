// How many client bytes the frames of a source carry, and that a new keeper's counts make it the
// nearest total, as the contract of a function with an empty body.
#![tactic(auto)]

ghost use Rattle.claim_sent.specs.Sent.{BytesSent};

// Each frame carries as many client bytes as its count says. If the counts are those of a new rate
// keeper, the first t frames carry the whole number nearest to the rate's total.
pub fn bytes_sent()
    ensures { BytesSent }
{}
