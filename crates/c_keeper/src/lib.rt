// The rate keeper for C and Rust: numbers in, numbers out. All meaning is in the crates below; here
// values are only converted.
#![tactic(auto)]

ghost use Rattle.std.specs.Prelude.{◌≡◌};
ghost use Rattle.gmp_keeper.specs.Keeper.{keeper_call, first_remainder, result_meaning};
ghost use Rattle.c_settings.specs.Numbers.{settings_from};
ghost use Rattle.c_keeper.specs.Numbers.{keeper_reply};

use c_settings::SettingsNumbers;
use gmp_keeper::KeeperResult;

// The refusal's number or 0, the count or 0, and the remainder. Numbers, and no Result, since C
// reads this struct.
#[repr(C)]
#[derive(Clone, Copy)]
pub struct KeeperReply {
    pub refusal: u32,
    pub count: u32,
    pub remainder: u32,
}

pub fn odu0_keeper_new(q: u32) -> u32
    ensures { result ≡ first_remainder q }
{
    gmp_keeper_call::first_remainder(q)
}

pub fn odu0_keeper_call(settings: SettingsNumbers, p: u32, q: u32, remainder: u32) -> KeeperReply
    ensures { result ≡ keeper_reply (keeper_call (settings_from settings) p q remainder) }
{
    let card = c_settings::settings_from(settings);
    keeper_reply(gmp_keeper_call::next_count(card, p, q, remainder))
}

fn keeper_reply(res: KeeperResult) -> KeeperReply
    ensures { result ≡ keeper_reply (result_meaning res) }
{
    let KeeperResult { answer, remainder } = res;
    match answer {
        Ok(count) => KeeperReply {
            refusal: 0,
            count,
            remainder,
        },
        Err(refusal) => KeeperReply {
            refusal: gmp_refusal::refusal_number(Err(refusal)),
            count: 0,
            remainder,
        },
    }
}
