// The planner's question: how much of each ringlet is still unreserved.
ghost use Rattle.std.specs.Prelude.{◌≡◌, ◌||◌, ◌+◌, ◌*◌, ◌≤◌, pos, ◌-ℤ◌};
ghost use Rattle.stations.specs.Stations.{capacity};
ghost use Rattle.controller.specs.Node.{state_of};
ghost use Rattle.bandwidth.specs.Free.{below_zero, number, free_as, free_bandwidth};

use crate::sums::add_up;
use controller::Node;

// The highest link rate, in the unit of type 2.
const HIGHEST_RATE: u32 = 65535;

// The lowest level that knows type 2.
const LOWEST_LEVEL: u8 = 2;

// What is left of each ringlet, below zero where more is reserved than there is.
#[derive(Clone, Copy, Debug, PartialEq, Eq)]
pub struct Free {
    pub ringlet0: i32,
    pub ringlet1: i32,
}

// Why there is no answer.
#[derive(Clone, Copy, Debug, PartialEq, Eq)]
pub enum Unanswered {
    RateTooHigh,
    LevelTooLow,
    // A station is behind: the lowest address of one.
    Behind(u64),
}

impl Free {
    // The excess-reserved defect: below zero on either ringlet. Exactly 0 is none.
    pub fn is_excess(&self) -> bool
        ensures { result ≡ below_zero self.now.ringlet0 || below_zero self.now.ringlet1 }
    {
        self.ringlet0 < 0 || self.ringlet1 < 0
    }
}

impl From<Unanswered> for u8 {
    ghost from_gives = { λ u n. n ≡ number u };

    fn from(u: Unanswered) -> u8 {
        match u {
            Unanswered::RateTooHigh => 4,
            Unanswered::LevelTooLow => 32,
            Unanswered::Behind(_) => 31,
        }
    }
}

// The rate minus the own reservation and all others.
fn unreserved(rate: u32, own: u16, others: u32) -> i32
    requires rate { rate ≤ 65535 }
    requires others { others ≤ 65535 * capacity }
    ensures { result ≡ pos rate -ℤ pos (own + others) }
{
    // `as`, which is proved to lose nothing: there is no `From`, and `try_from` with an `unwrap` is no plainer.
    rate as i32 - (u32::from(own) + others) as i32
}

// What is left of each ringlet of this link rate, of which the node itself has reserved so much. Any numbers may be asked.
#[tactic(auto, unfolding(crate::specs::Free::free_bandwidth, crate::specs::Free::unreserved), using(blocks::proofs::Known::knows_2))]
pub fn free_bandwidth(node: &Node, rate: u32, own0: u16, own1: u16) -> Result<Free, Unanswered>
    ensures { free_as result ≡ free_bandwidth (state_of node.now) rate own0 own1 }
{
    if HIGHEST_RATE < rate {
        return Err(Unanswered::RateTooHigh);
    }
    if node.level() < LOWEST_LEVEL {
        return Err(Unanswered::LevelTooLow);
    }
    let others = add_up(node.stations())?;
    Ok(Free {
        ringlet0: unreserved(rate, own0, others.ringlet0),
        ringlet1: unreserved(rate, own1, others.ringlet1),
    })
}
