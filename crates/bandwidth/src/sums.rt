// The reservations of all stations, from one pass over the table.
ghost use Rattle.std.specs.Prelude.{◌≡◌, ◌≤◌, ◌*◌, length, IfOk};
ghost use Rattle.stations.specs.Stations.{capacity};
ghost use Rattle.bandwidth.specs.Steps.{sums_of};

use crate::free::Unanswered;
use stations::Station;

// All reservations of each ringlet.
#[derive(Clone, Copy, Debug, PartialEq, Eq)]
pub struct Sums {
    pub ringlet0: u32,
    pub ringlet1: u32,
}

// The stations stand in ascending order, so the first that is behind has the lowest address.
#[tactic(auto, unfolding(crate::specs::Steps::sums_from), using(crate::proofs::Summing::from_none))]
pub(crate) fn add_up(stations: &[Station]) -> Result<Sums, Unanswered>
    requires { length stations.now ≤ capacity }
    ensures sums { result ≡ sums_of stations.now }
    ensures low { IfOk result (λ s. (s.ringlet0 ≤ 65535 * capacity) × (s.ringlet1 ≤ 65535 * capacity)) }
{
    let mut ringlet0 = 0;
    let mut ringlet1 = 0;
    for s in stations {
        if s.behind {
            return Err(Unanswered::Behind(s.address));
        }
        // Both are read before the first call, behind which the range of a field of `s` is no longer known.
        let (reserved0, reserved1) = (s.reserved0, s.reserved1);
        ringlet0 += u32::from(reserved0);
        ringlet1 += u32::from(reserved1);
    }
    Ok(Sums { ringlet0, ringlet1 })
}
