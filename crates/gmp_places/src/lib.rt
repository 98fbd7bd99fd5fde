// The stuffing places of a frame: where client bytes stand in a payload, how many there are, and
// how evenly they lie. No code runs here; gmp_stuffing goes by it.
#![tactic(auto)]

ghost use Rattle.gmp_places.specs.Places.{PlacesCounted};
ghost use Rattle.gmp_places.specs.Even.{BytesLieEvenly};

// There are exactly C places, and among the first n exactly the whole part of n * C / S.
#[tactic(auto, using(crate::proofs::Laws::places_are, crate::proofs::Laws::places_all))]
pub fn places_counted()
    ensures { PlacesCounted }
{}

// On every grid from K = 1 on, with a count C of at most S, the client bytes in any run of L
// successive payload bytes of one frame differ from L * C / S by less than one, and no smaller
// figure holds.
#[tactic(auto, using(crate::proofs::Even::lie_evenly))]
pub fn bytes_lie_evenly()
    ensures { BytesLieEvenly }
{}
