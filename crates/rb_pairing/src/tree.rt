ghost use Rattle.std.specs.Prelude.{◌≡◌, ◌<◌, ◌≢◌, ◌^◌, Some, None, IsSome, length, slice_set};
ghost use Rattle.rb_pairing.specs.Nodes.{expiry_of, expiries};
ghost use Rattle.rb_pairing.specs.Forest.{LieAsTrees, IsTree, IsEntry};

use crate::nodes::Nodes;

impl Nodes {
    /// Adds an entry to the tree at a slot that has none, and returns the root.
    ///
    /// It is put under the newest entry, unless it expires earlier.
    pub(crate) fn add(
        &mut self,
        root: Option<usize>,
        newest: Option<usize>,
        slot: usize,
        expiry: u64,
    ) -> Option<usize>
        requires tree { IsTree self.old root }
        requires newest { IsEntry self.old newest }
        requires in_room { slot < length self.old }
        requires absent { expiry_of self.old slot ≡ None }
        ensures tree { IsTree self.new result }
        ensures expiries { expiries self.new ≡ slice_set (expiries self.old) slot (Some expiry) }
        ensures countable { length self.old < 2 ^ 64 }
    {
        self.occupy(slot, expiry);
        if let Some(above) = newest
            && !self.is_earlier(slot, above)
        {
            self.adopt(above, slot);
            return root;
        }
        self.meld(root, Some(slot))
    }

    /// The newest entry or, if that is the slot's, the one before it, if there is one.
    pub(crate) fn newest_but(&self, newest: Option<usize>, slot: usize) -> Option<usize>
        requires linked { LieAsTrees self.now }
        requires newest { IsEntry self.now newest }
        requires in_room { slot < length self.now }
        ensures entry { IsEntry self.now result }
        ensures apart { result ≢ Some slot }
    {
        if newest == Some(slot) {
            self.previous(slot)
        } else {
            newest
        }
    }

    /// Takes an entry out of the tree, and returns the root of the others.
    pub(crate) fn take_out(&mut self, root: Option<usize>, slot: usize) -> Option<usize>
        requires tree { IsTree self.old root }
        requires in_room { slot < length self.old }
        requires present { IsSome (expiry_of self.old slot) }
        ensures tree { IsTree self.new result }
        ensures expiries { expiries self.new ≡ slice_set (expiries self.old) slot None }
    {
        let heir = self.unlink(slot);
        self.vacate(slot);
        if root == Some(slot) { heir } else { root }
    }

    /// The entry that is reached by going down from the slot's to the first of each row, until none is
    /// under it.
    ///
    /// No entry is reached twice, so the loop ends before its range does.
    pub(crate) fn leaf_under(&self, mut slot: usize) -> usize
        requires linked { LieAsTrees self.now }
        requires present { IsSome (expiry_of self.now slot) }
        ensures { IsSome (expiry_of self.now result) }
    {
        'down: for _ in 0..self.room() {
            let Some(child) = self.child(slot) else {
                return slot;
            };
            slot = child;
        }
        slot
    }
}
