// What the control bytes of a frame lead to in the sink (rules 1 to 3 of 01's "Sink"): the check,
// whether a bit was mended, and the word followed from the sink's state.
#![tactic(auto)]

ghost use Rattle.gmp_sink_control.specs.Control.{FollowsWord, ReadsControl};

use gmp_control::Followed;
use gmp_crc8::{CheckedWord, WordBytes};
use gmp_frame::Control;
use gmp_settings::Settings;
use gmp_sink::{ControlRead, SinkState};
use gmp_standing::{Count, Standing};

// Rules 1 to 3: what the control bytes lead to, and whether a bit of them was mended.
#[tactic(auto, using(gmp_sink::proofs::Laws::standing_read, gmp_sink::proofs::Laws::word_read, gmp_sink::proofs::Laws::mended_read, gmp_sink::proofs::Laws::count_after_lem))]
pub fn read_control(settings: Settings, state: SinkState, control: Control) -> ControlRead
    ensures { ReadsControl settings state control result }
{
    let checked = gmp_crc8_read::read(settings.mending, control.jc1, control.jc2, control.jc3);
    match checked {
        CheckedWord::Whole(word) => follow_word(settings, state, word, false),
        CheckedWord::Mended(word) => follow_word(settings, state, word, true),
        CheckedWord::Bad => ControlRead {
            followed: Followed {
                standing: Standing::BadCheck,
                count: Count::Unknown,
                word: None,
            },
            mended: false,
        },
    }
}

// Rules 2 and 3: what a word that was read leads to from this state, and whether it was mended.
fn follow_word(settings: Settings, state: SinkState, word: WordBytes, mended: bool) -> ControlRead
    ensures { FollowsWord settings state word mended result }
{
    let count = state.count;
    let earlier = state.word;
    ControlRead {
        followed: gmp_control_read::follow(settings, count, earlier, word.jc1, word.jc2),
        mended: mended,
    }
}
