ghost use Rattle.std.specs.Prelude.{◌≡◌};
ghost use Rattle.vh_queue.specs.Views.{horizon_of, with_horizon, horizons_at};

use crate::region::Region;

// Up to which serials the entries of a region and the present time were made active, and up to which those
// without a time have got it.
#[derive(Clone, Copy)]
pub(crate) struct Horizons {
    pub(crate) inactive: u64,
    pub(crate) nonblocking: u64,
    pub(crate) monitor: u64,
    pub(crate) dated: u64,
}

impl Horizons {
    // The horizon of a region.
    pub(crate) fn of(&self, region: Region) -> u64
        ensures { result ≡ horizon_of self.now region }
    {
        match region {
            Region::Start | Region::Active => 0,
            Region::Inactive => self.inactive,
            Region::Nonblocking => self.nonblocking,
            Region::Monitor => self.monitor,
        }
    }

    // The entries of the region with a serial below this one are active from now on.
    pub(crate) fn set(&mut self, region: Region, serial: u64)
        ensures { self.new ≡ with_horizon region serial self.old }
    {
        match region {
            Region::Start | Region::Active => {}
            Region::Inactive => self.inactive = serial,
            Region::Nonblocking => self.nonblocking = serial,
            Region::Monitor => self.monitor = serial,
        }
    }

    // Those once time has gone on to the same time or another, which gives it to those without one or doesn't.
    pub(crate) fn at(&self, same: bool, gives: bool, next: u64) -> Horizons
        ensures { result ≡ horizons_at same gives next self.now }
    {
        Horizons {
            inactive: next,
            nonblocking: if same { self.nonblocking } else { 0 },
            monitor: if same { self.monitor } else { 0 },
            dated: if gives { next } else { self.dated },
        }
    }
}
