// The ports of the card, eight, numbered from 1, and when a port is refused.
#![tactic(auto)]

ghost use Rattle.std.specs.Prelude.{◌≡◌};
ghost use Rattle.ports.specs.Port.{bad_port};

// Number 10: whether a port is 0 or above 8.
pub fn is_bad_port(port: u32) -> bool
    ensures { result ≡ bad_port port }
{
    port == 0 || 8 < port
}
