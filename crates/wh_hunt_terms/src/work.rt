//! The work of a hunt: one number that every part of it takes from.

ghost use Rattle.std.specs.Prelude.{◌≡◌, ◌<◌, ◌+◌, MatchBool};

/// What is left of the work that a hunt may do. One unit is the visit of one node of a term.
#[derive(Drop)]
pub struct Work {
    left: u64,
}

impl Work {
    /// A hunt may do this much work.
    pub fn new(units: u64) -> Work
        ensures { result.left ≡ units }
    {
        Work { left: units }
    }

    /// Takes the units from what is left; the answer is whether there were as many. Else nothing is left.
    pub fn spend(&mut self, units: u64) -> bool
        ensures { MatchBool result (self.new.left + units ≡ self.old.left) ((self.old.left < units) × (self.new.left ≡ 0)) }
    {
        match self.left.checked_sub(units) {
            Some(left) => {
                self.left = left;
                true
            }
            None => {
                self.left = 0;
                false
            }
        }
    }

    /// The units that are left.
    pub fn left(&self) -> u64
        ensures { result ≡ self.now.left }
    {
        self.left
    }
}
