// What the sink's call with the card's tallies promises: its definitions, and that a mended frame
// is no BADCHECK frame in the tallies. The calls are in the crates card_count and card_sink.
#![tactic(auto)]

ghost use Rattle.card_promise.specs.Card.{MendedIsGood};

// A mended frame is no BADCHECK frame, in its standing or in the tallies.
pub fn mended_is_good()
    ensures { MendedIsGood }
{}
