//! What a search knows of its trail, so that settling it need not begin anew.

ghost use Rattle.std.specs.Prelude.{◌≡◌, ◌≤◌, true, false, length};
ghost use Rattle.std.specs.Bool.{OnTrue};
ghost use Rattle.ec_trail.specs.TrailList.{top_level, IsTrail};

use ec_trail::trail::Trail;
use ec_unit::watch::Settled;

/// What is known of a trail that is to be settled.
#[derive(Clone, Copy)]
pub struct Known {
    /// So many literals at its front were there when it was settled last.
    pub front: u32,
    /// Whether each clause of fewer than two literals is known to hold at level 0.
    pub short: bool,
}

impl Known {
    ghost use Rattle.ec_sat.specs.Ready.{short_after};

    /// Nothing is known of it.
    pub fn nothing() -> Known
        ensures front { result.front ≡ 0 }
        ensures short { result.short ≡ false }
    {
        Known {
            front: 0,
            short: false,
        }
    }

    /// What is known of a trail that was settled. At level 0 each short clause holds if none is
    /// false or unit.
    pub fn after(self, trail: &Trail, settled: Settled) -> Known
        ensures front { result.front ≡ length trail.now.entries }
        ensures short { result.short ≡ short_after self.short settled (top_level trail.now.entries) }
        ensures trail { IsTrail trail.now.variables trail.now.entries }
    {
        let level = trail.level();
        let short = match settled {
            Settled::Quiet => self.short || level == 0,
            Settled::Conflict(_) => self.short,
        };
        Known {
            front: trail.len(),
            short,
        }
    }

    /// What is known of a trail that was cut when a clause of this many literals was added.
    pub fn added(self, trail: &Trail, len: usize) -> Known
        ensures front { result.front ≤ self.front }
        ensures cut { result.front ≤ length trail.now.entries }
        ensures short { OnTrue result.short ((self.short ≡ true) × (2 ≤ len)) }
    {
        Known {
            front: self.front.min(trail.len()),
            short: self.short && len >= 2,
        }
    }
}
