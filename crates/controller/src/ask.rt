// What may be asked of a node between records.
ghost use Rattle.std.specs.Prelude.{◌≡◌, length};

use crate::node::Node;
use blocks::Attributes;
use ways::Steering;

impl Node {
    ghost use Rattle.controller.specs.Kept.{Kept};
    ghost use Rattle.controller.specs.Node.{state_of, west_request, east_request, steering, shown_as, asked};

    // The way to the station of an address, and where the trouble on it is; any number may be asked.
    #[tactic(auto, unfolding(crate::specs::Node::steering))]
    pub fn steer(&self, address: u64) -> Steering
        ensures { result ≡ steering (state_of self.now) address }
    {
        let (west, east) = (self.west_request(), self.east_request());
        ways::way_to(&self.table, west, east, address)
    }

    // The attributes of the station of an address, none where it is not in the table; any number may be asked.
    pub fn attributes(&self, address: u64) -> Option<Attributes>
        ensures { shown_as result ≡ asked (state_of self.now) address }
    {
        let at = self.table.find_station(address)?;
        Some(self.table.station_at(at).attributes())
    }

    // The request on the west span; two calls and no number for a side, as README names them.
    #[tactic(auto, unfolding(crate::specs::Node::west_request))]
    pub fn west_request(&self) -> u8
        ensures { result ≡ west_request (state_of self.now) }
    {
        self.spans.west.request(&self.settings.ticks())
    }

    // The request on the east span.
    #[tactic(auto, unfolding(crate::specs::Node::east_request))]
    pub fn east_request(&self) -> u8
        ensures { result ≡ east_request (state_of self.now) }
    {
        self.spans.east.request(&self.settings.ticks())
    }

    // The level that the node was started with.
    pub fn level(&self) -> u8
        ensures { result ≡ self.now.settings.level }
    {
        self.settings.level
    }

    // The own sequence: 0 at start, then that of the latest report.
    pub fn own_sequence(&self) -> u8
        ensures { result ≡ (state_of self.now).pacer.sequence }
    {
        self.pacer.sequence
    }

    // The stations in the table.
    pub fn stations(&self) -> &[stations::Station]
        ensures stations { result.now ≡ (state_of self.now).stations }
        ensures kept { Kept self.now }
    {
        self.table.stations()
    }

    // The number of stations in the table.
    pub fn station_count(&self) -> usize
        ensures { result ≡ length (state_of self.now).stations }
    {
        self.table.station_count()
    }
}
