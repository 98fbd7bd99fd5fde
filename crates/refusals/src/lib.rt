// The paper's table "Why a call is turned back", and no code: numbered conditions, of which the
// lowest that applies is the answer, and the law by which a judge is proved. Each component has an
// enum of the refusals that it can answer.
#![tactic(auto)]
