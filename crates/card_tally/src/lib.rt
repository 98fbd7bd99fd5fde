// The card's tallies, one for each port: frames taken, BADCHECK frames and bytes handed out, each
// staying at its largest number; the card's total; and that a frame changes its own port's tally
// only.
#![tactic(auto)]

ghost use Rattle.std.specs.Prelude.{◌≡◌, false, ◌+◌, ◌-◌, ◌<◌};
ghost use Rattle.ports.specs.Port.{bad_port};
ghost use Rattle.card_tally.specs.Tally.{added};
ghost use Rattle.card_tally.specs.Ports.{new_tallies, tally_of, counted, total_of, OwnPortOnly};

// The tally of a port.
#[repr(C)]
#[derive(Clone, Copy, Default)]
pub struct Tally {
    pub frames: u32,
    pub badcheck: u32,
    pub bytes: u32,
}

// The tallies of the card's eight ports, in the order of their numbers.
#[derive(Clone, Copy)]
pub struct Tallies {
    pub ports: [Tally; 8],
}

// The card's total: the sum of the eight, for each of the three numbers.
#[repr(C)]
#[derive(Clone, Copy, Default)]
pub struct Total {
    pub frames: u64,
    pub badcheck: u64,
    pub bytes: u64,
}

// A card on which nothing is tallied yet.
pub fn new_tallies() -> Tallies
    ensures { result ≡ new_tallies }
{
    Tallies {
        ports: [Tally::default(); 8],
    }
}

// The tally of a port, all zero where the card has no such port.
pub fn tally_of(tallies: Tallies, port: u32) -> Tally
    ensures { result ≡ tally_of tallies port }
{
    if ports::is_bad_port(port) {
        return Tally::default();
    }
    tallies.ports[place_of(port)]
}

// The tallies after one frame more of this port, with so many BADCHECK frames and bytes. A port
// that the card does not have changes nothing.
#[tactic(auto, unfolding(crate::specs::Ports::counted))]
pub fn count_frame(tallies: Tallies, port: u32, badcheck: u32, bytes: u32) -> Tallies
    ensures { result ≡ counted tallies port 1 badcheck bytes }
{
    if ports::is_bad_port(port) {
        return tallies;
    }
    let place = place_of(port);
    let tally = tallies.ports[place];
    let mut after = tallies;
    after.ports[place] = add_frame(tally, badcheck, bytes);
    after
}

// The card's total. Eight numbers of 32 bits add up to one of 64 without being cut.
pub fn card_total(tallies: Tallies) -> Total
    ensures { result ≡ total_of tallies }
{
    let mut sum = Total::default();
    for tally in &tallies.ports {
        sum.frames += tally.frames as u64;
        sum.badcheck += tally.badcheck as u64;
        sum.bytes += tally.bytes as u64;
    }
    sum
}

// A frame of one port changes the three numbers of that port only.
#[tactic(auto, using(crate::proofs::Ports::own_port_only))]
pub fn own_port_only()
    ensures { OwnPortOnly }
{}

// The place of a port among the eight, from 0.
fn place_of(port: u32) -> usize
    requires { bad_port port ≡ false }
    ensures { (result ≡ port - 1) × (result < 8) }
{
    port as usize - 1
}

// A port's tally after one frame more, with so many BADCHECK frames and bytes.
#[tactic(auto, using(crate::proofs::Laws::min_is_cut), unfolding(crate::specs::Tally::added))]
fn add_frame(tally: Tally, badcheck: u32, bytes: u32) -> Tally
    ensures { result ≡ added tally 1 badcheck bytes }
{
    Tally {
        frames: tally.frames.saturating_add(1),
        badcheck: tally.badcheck.saturating_add(badcheck),
        bytes: tally.bytes.saturating_add(bytes),
    }
}
