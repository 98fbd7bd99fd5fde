// A load of OPU0 to the source, at the count that the rate keeper gives, as the program odu0map
// maps it.
#![tactic(auto)]

ghost use Rattle.std.specs.Prelude.{◌≡◌, length};
ghost use Rattle.program_map.specs.Frames.{start_meaning, start_answer, Ready, Maps};

use gmp_refusal::Refusal;
use gmp_source::SourceState;

// The rate p / q.
#[derive(Clone, Copy)]
pub struct Rate {
    pub p: u32,
    pub q: u32,
}

// The source's state, and the rate keeper's remainder. The rate is no part of it and goes beside
// it, as with the paper's keeper: no frame changes it, and no promise has to say that it stays.
#[derive(Clone, Copy)]
pub struct Mapper {
    pub source: SourceState,
    pub remainder: u32,
}

// A new rate keeper, and a new source with the keeper's first count and payload type 7. The source
// never refuses that count.
pub fn new_mapper(rate: Rate) -> Result<Mapper, Refusal>
    ensures { start_meaning result ≡ start_answer rate }
{
    let first = gmp_keeper_call::first_remainder(rate.q);
    let kept = gmp_keeper_call::next_count(gmp_settings::opu0(), rate.p, rate.q, first);
    let remainder = kept.remainder;
    let source = gmp_source::new_source(gmp_settings::opu0(), kept.answer?, 7)?;
    Ok(Mapper { source, remainder })
}

// Makes the frame of a load, which announces the keeper's next count. Neither the keeper nor the
// source refuses.
pub fn make_frame(rate: Rate, mapper: Mapper, load: &[u8], frame: &mut [u8]) -> Mapper
    ensures { Ready rate mapper → length load.now ≡ mapper.source.count → length frame.old ≡ 15240 → Maps rate mapper load.now result frame.new }
{
    let kept = gmp_keeper_call::next_count(gmp_settings::opu0(), rate.p, rate.q, mapper.remainder);
    let Ok(next) = kept.answer else {
        return mapper;
    };
    let result = gmp_source_call::source_call(
        gmp_settings::opu0(),
        mapper.source,
        next,
        load,
        frame,
    );
    Mapper {
        source: result.state,
        remainder: kept.remainder,
    }
}
