// One edge of the graph: a cell or a set.

ghost use Rattle.std.specs.Prelude.{◌≡◌, ◌+◌, ◌<◌, ◌≤◌, ◌^◌, ◌↔◌, IsTrue, MatchOption};
ghost use Rattle.bounded_flow.specs.Edges.{IsSound, Pushed, Leads, LeadsNowhere, rest_of, gap_of, enters, leaves};

/// A cell or a set: its whole units, and how far the weight left times them is under or over its remainder. One of the two is 0.
/// An edge that is under may be pushed from tail to head, one that is over from head to tail.
#[derive(Clone, Copy, Debug)]
pub struct Edge {
    pub tail: u32,
    pub head: u32,
    pub whole: u32,
    pub under: u128,
    pub over: u128,
}

impl Edge {
    /// The distance of the remainder from the weight left times the whole units.
    pub fn gap(&self) -> u128
        requires { gap_of self.now < 2 ^ 128 }
        ensures { result ≡ gap_of self.now }
    {
        self.under + self.over
    }

    /// Whether the whole units aren't the share, so that there is a gap.
    pub fn is_off(&self) -> bool
        ensures { IsTrue result ↔ (0 < gap_of self.now) }
    {
        self.under > 0 || self.over > 0
    }

    /// The remainder, over the weight left.
    pub fn rest(&self, left: u128) -> u128
        requires sound { IsSound left self.now }
        requires room { left ≤ 2 ^ 116 }
        ensures { result ≡ rest_of left self.now }
    {
        left * self.whole as u128 + self.under - self.over
    }

    /// The node to which a push brings a unit.
    pub fn enters(&self) -> u32
        ensures { result ≡ enters self.now }
    {
        if self.under > 0 { self.head } else { self.tail }
    }

    /// The node from which a push takes a unit.
    pub fn leaves(&self) -> u32
        ensures { result ≡ leaves self.now }
    {
        if self.under > 0 { self.tail } else { self.head }
    }

    /// The node to which a push from `node` leads, where the edge may be pushed from there.
    pub fn leads(&self, node: u32) -> Option<u32>
        ensures { MatchOption result (LeadsNowhere self.now node) (Leads self.now node) }
    {
        if self.is_off() && self.leaves() == node {
            Some(self.enters())
        } else {
            None
        }
    }

    /// Moves the whole units by one toward the remainder.
    pub fn push(&mut self, left: u128)
        requires sound { IsSound left self.old }
        requires off { 0 < gap_of self.old }
        requires room { left ≤ 2 ^ 116 }
        requires one { 1 ≤ left }
        ensures sound { IsSound left self.new }
        ensures pushed { Pushed left self.old self.new }
    {
        if self.under > 0 {
            self.whole += 1;
            if self.under >= left {
                self.under -= left;
            } else {
                self.over = left - self.under;
                self.under = 0;
            }
        } else {
            self.whole -= 1;
            if self.over >= left {
                self.over -= left;
            } else {
                self.under = left - self.over;
                self.over = 0;
            }
        }
    }
}
