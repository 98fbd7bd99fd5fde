// The starred cases of 01, with the counts of 02's P7, as one table, a worked run with the
// standard's patterns and the tallies of its card, one with a customer's, one with mending and one
// with swapped cords, that nothing less than demand 3's numbers would do, and that they, mending
// and the even placing do for what is promised. So the claims are neither empty nor more than they
// need be, nor weaker than what they are used for.
#![tactic(auto)]

ghost use Rattle.claim_worked.specs.Starred.{AllHold, starred};
ghost use Rattle.claim_worked.specs.Run.{WorkedRun};
ghost use Rattle.claim_worked.specs.Customer.{CustomerRun};
ghost use Rattle.claim_worked.specs.Mended.{MendedRun};
ghost use Rattle.claim_worked.specs.Typed.{TypedRun};
ghost use Rattle.claim_worked.specs.Readable.{Readable};
ghost use Rattle.claim_worked.specs.Less.{NoLess};
ghost use Rattle.claim_worked.specs.Enough.{Enough};

// The starred cases of 01 hold, with the counts of 02's P7 in the place of 01's.
#[tactic(auto, using(crate::proofs::Starred::starred_hold))]
pub fn starred_cases()
    ensures { AllHold starred }
{}

// A worked run, with refused calls, steps of every size and a hit in it, and the tallies of its
// card.
#[tactic(auto, using(crate::proofs::Run::worked_run))]
pub fn worked_run()
    ensures { WorkedRun }
{}

// The same with a customer's patterns, and its own steps.
#[tactic(auto, using(crate::proofs::Customer::customer_run))]
pub fn customer_run()
    ensures { CustomerRun }
{}

// The same frames, some with wrong control bits, with mending on and with mending off.
#[tactic(auto, using(crate::proofs::Mended::mended_run))]
pub fn mended_run()
    ensures { MendedRun }
{}

// Ports with the payload type checked: the right cord, a hit between frames numbered 0, a swapped
// cord, one swapped in service, and a swapped one with the type check off.
#[tactic(auto, using(crate::proofs::Typed::typed_run))]
pub fn typed_run()
    ensures { TypedRun }
{}

// Every source run can be read by any sink, from any frame up to any later one.
#[tactic(auto, using(crate::proofs::Readable::readable))]
pub fn readable_runs()
    ensures { Readable }
{}

// One frame does not find the count, the second is not yet delivered, two frames numbered 0 do not
// have the type accepted, and four wrong bits can make the count false, as three can with mending
// on.
#[tactic(auto, using(crate::proofs::Run::no_less))]
pub fn no_less()
    ensures { NoLess }
{}

// The claims with their numbers written out. Two unharmed frames bring one sink back from any
// state. With the type check on the bytes come behind the third frame numbered 0, those that came
// before counted. A mended frame is told as mended, and runs of an OPU0 frame carry so many client
// bytes.
#[tactic(auto, using(crate::proofs::Enough::enough))]
pub fn is_enough()
    ensures { Enough }
{}
