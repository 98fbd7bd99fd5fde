// The rate keeper's calls as C and Rust link them. Each is the function of its name in `c_keeper`.
// They stand twice, since what C links has to be exported by the static library itself.
#![tactic(auto)]

ghost use Rattle.std.specs.Prelude.{◌≡◌};
ghost use Rattle.gmp_keeper.specs.Keeper.{keeper_call, first_remainder};
ghost use Rattle.c_settings.specs.Numbers.{settings_from};
ghost use Rattle.c_keeper.specs.Numbers.{keeper_reply};

use c_keeper::KeeperReply;
use c_settings::SettingsNumbers;

#[unsafe(no_mangle)]
pub extern "C" fn odu0_keeper_new(q: u32) -> u32
    ensures { result ≡ first_remainder q }
{
    c_keeper::odu0_keeper_new(q)
}

#[unsafe(no_mangle)]
pub extern "C" fn odu0_keeper_call(
    settings: SettingsNumbers,
    p: u32,
    q: u32,
    remainder: u32,
) -> KeeperReply
    ensures { result ≡ keeper_reply (keeper_call (settings_from settings) p q remainder) }
{
    c_keeper::odu0_keeper_call(settings, p, q, remainder)
}
