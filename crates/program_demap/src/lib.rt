// A frame of OPU0 to the sink, on one port with its tally, as the program odu0demap takes it, and
// what it came to.
#![tactic(auto)]

ghost use Rattle.std.specs.Prelude.{◌≡◌, length};
ghost use Rattle.program_demap.specs.Frames.{new_demapper, Takes};

use card_tally::Tally;
use gmp_payload_type::Expected;
use gmp_sink::SinkState;
use gmp_standing::Standing;

// What the arguments ask for: mending, the type check, and the type expected. The check and the
// type stand apart, as in the call: the one is a setting, the other is told of each frame. No frame
// changes them, so they go beside the demapper and are no part of it.
#[derive(Clone, Copy)]
pub struct Wanted {
    pub mending: bool,
    pub type_check: bool,
    pub payload_type: u8,
}

// The sink's state, its port's tally, the number of the last standing, 0 before the first frame,
// and the multiframe number of the next frame. The standing stays a number: what it found is in the
// sink's state, and an Option would need an enum of the standings' names, which nothing else has.
#[derive(Clone, Copy)]
pub struct Demapper {
    pub state: SinkState,
    pub tally: Tally,
    pub last: u32,
    pub multiframe: u32,
}

// What a frame came to: the bytes handed out, its standing, whether a wrong control bit was mended,
// and the demapper after it.
#[derive(Clone, Copy)]
pub struct Taken {
    pub handed: u32,
    pub standing: Standing,
    pub mended: bool,
    pub after: Demapper,
}

// A new sink, with nothing tallied.
pub fn new_demapper() -> Demapper
    ensures { result ≡ new_demapper }
{
    Demapper {
        state: gmp_sink::new_sink(),
        tally: Tally::default(),
        last: 0,
        multiframe: 0,
    }
}

// Hands a frame to the sink and tallies it, on port 1 of a card whose other ports are idle. With
// these settings, lengths and port no call is refused.
pub fn demap_frame(wanted: Wanted, demapper: Demapper, frame: &[u8], out: &mut [u8]) -> Taken
    ensures { length frame.now ≡ 15240 → length out.old ≡ 14410 → Takes wanted demapper frame.now result out.new }
{
    let mending = gmp_settings::with_mending(gmp_settings::opu0(), wanted.mending);
    let settings = gmp_settings::with_type_check(mending, wanted.type_check);
    let expected = Expected {
        multiframe: demapper.multiframe,
        payload_type: wanted.payload_type,
    };
    let mut card = card_tally::new_tallies();
    card.ports[0] = demapper.tally;
    let counted = card_sink::lend_call(settings, demapper.state, expected, frame, out, 1, card);
    let result = counted.result;
    let tally = card_tally::tally_of(counted.tallies, 1);
    let Ok(standing) = result.answer else {
        return Taken {
            handed: 0,
            standing: Standing::Waiting,
            mended: false,
            after: demapper,
        };
    };
    Taken {
        handed: result.handed,
        standing,
        mended: result.mended,
        after: Demapper {
            state: result.state,
            tally,
            last: gmp_standing::standing_number(standing),
            multiframe: (demapper.multiframe % 256 + 1) % 256,
        },
    }
}
