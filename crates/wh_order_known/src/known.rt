//! What is known of goals: a table from goals to the least number of entries that shows each, under some filters.

ghost use Rattle.std.specs.Prelude.{◌≡◌, All, IfOk, IfSome, IsTrue, length};
ghost use Rattle.wh_order_node.specs.FilteringView.{filtering_data};
ghost use Rattle.wh_order_known.specs.Least.{NotRefuted};
ghost use Rattle.wh_order_known.specs.Counts.{IsLeastCount, count_of};
ghost use Rattle.wh_order_known.specs.Entries.{IsEntryFor, IsExact};

use crate::choice::{Choice, count_of};
use crate::copies::{are_alike, copy_tree};
use crate::entry::Entry;
use crate::key::key_of;
use std::alloc::{AllocError, Global};
use wh_order::{Claim, Goal};
use wh_order_node::Filters;

// How many buckets there are. Each search makes a table of them, and most searches keep few goals: a larger table
// costs more than it gives.
const BUCKETS: usize = 128;

// The place of no entry.
const NO_PLACE: usize = usize::MAX;

/// The least numbers of entries that show goals, under some filters.
#[derive(Drop)]
pub struct Known<'a> {
    /// Where more of them are kept.
    pub alloc: Global,
    /// The filters.
    pub filters: &'a Filters,
    /// How many goals were asked for, modulo 2^64; nothing is claimed of it.
    pub asked: u64,
    // What is known so far, in the order in which it came.
    entries: Vec<Entry>,
    // The place of the last entry of each bucket.
    heads: Vec<usize>,
    ghost exact: { NotRefuted (All (IsExact (filtering_data filters.now)) entries.items) },
    ghost whole: { length heads.items ≡ 128 },
}

impl<'a> Known<'a> {
    /// Nothing is known.
    pub fn new(alloc: Global, filters: &'a Filters) -> Result<Known<'a>, AllocError>
        ensures { IfOk result (λ known. known.filters.now ≡ filters.now) }
    {
        Ok(Known {
            alloc,
            filters,
            asked: 0,
            entries: Vec::new(alloc),
            heads: vec![in alloc; NO_PLACE; BUCKETS]?,
        })
    }

    /// The least number of entries that shows the goal, nested at most `room` deep, where it is known.
    pub fn look(&self, goal: &Goal<'_>, room: u8) -> Option<Option<u32>>
        ensures { IfSome result (λ count. NotRefuted (IsLeastCount (filtering_data self.now.filters.now) room goal.now count)) }
    {
        let key = key_of(goal, room);
        let entries = self.entries.as_slice();
        let mut end = entries.len();
        let mut place = self.heads[key as usize % BUCKETS];
        while place < end {
            let entry = &entries[place];
            if is_for(entry, goal, room, key) {
                return Some(entry.count);
            }
            end = place;
            place = entry.before;
        }
        None
    }

    // Keeps the least number of entries that shows the goal, nested at most `room` deep.
    fn note(&mut self, goal: &Goal<'_>, room: u8, count: Option<u32>) -> Result<(), AllocError>
        requires { NotRefuted (IsLeastCount (filtering_data self.old.filters.now) room goal.now count) }
        ensures filters { self.new.filters ≡ self.old.filters }
    {
        let key = key_of(goal, room);
        let bucket = key as usize % BUCKETS;
        let place = self.entries.len();
        let entry = Entry {
            claim: goal.claim,
            next: goal.next,
            left: copy_tree(self.alloc, goal.left.tree())?,
            right: copy_tree(self.alloc, goal.right.tree())?,
            room,
            count,
            key,
            before: self.heads[bucket],
        };
        self.entries.push(entry)?;
        self.heads[bucket] = place;
        Ok(())
    }

    /// Keeps the number of entries of a choice, where it is the least number that shows the goal, nested at most `room`
    /// deep; no choice stands for a number that is 2^32 at least.
    pub fn note_choice(
        &mut self,
        goal: &Goal<'_>,
        room: u8,
        choice: Option<Choice>,
    ) -> Result<(), AllocError>
        requires { NotRefuted (IsLeastCount (filtering_data self.old.filters.now) room goal.now (count_of choice)) }
        ensures filters { self.new.filters ≡ self.old.filters }
    {
        self.note(goal, room, count_of(choice))
    }
}

// Whether the entry is for this goal, which has that key, nested at most `room` deep.
fn is_for(entry: &Entry, goal: &Goal<'_>, room: u8, key: u32) -> bool
    ensures { IsTrue result → IsEntryFor entry.now goal.now room }
{
    entry.key == key
        && entry.room == room
        && entry.next == goal.next
        && same_claim(entry.claim, goal.claim)
        && are_alike(&entry.left, goal.left.tree())
        && are_alike(&entry.right, goal.right.tree())
}

// Whether the claims are the same.
fn same_claim(first: Claim, second: Claim) -> bool
    ensures { IsTrue result → first ≡ second }
{
    match (first, second) {
        (Claim::AtLeast, Claim::AtLeast) => true,
        (Claim::Greater, Claim::Greater) => true,
        (Claim::Above(from), Claim::Above(other)) => from == other,
        _ => false,
    }
}
