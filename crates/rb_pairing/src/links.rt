ghost use Rattle.std.specs.Prelude.{◌≡◌, ℕ, ◌<◌, ◌≢◌, ◌↔◌, Some, None, IsTrue, IsSome, IfSome, IfNone, length};
ghost use Rattle.rb_pairing.specs.Nodes.{expiry_of, child_of, next_of, previous_of, moment_of};
ghost use Rattle.rb_pairing.specs.Forest.{LieAsTrees, IsTop, IsInRow};
ghost use Rattle.rb_pairing.specs.Changes.{Bypasses, Cuts, Replaces, Adopts, Joins};
ghost use Rattle.rb_pairing.specs.Changes.{Relinks, JoinsChildren, Unlinks, Melds};

use crate::nodes::Nodes;

impl Nodes {
    // Links the entry's neighbours in its row, if it is in one, past it. Its own links stay.
    fn bypass(&mut self, slot: usize)
        requires linked { LieAsTrees self.old }
        requires in_room { slot < length self.old }
        ensures { Bypasses self.old self.new slot }
    {
        let next = self.next(slot);
        let previous = self.previous(slot);
        self.set_previous(next, previous);
        self.set_link(previous, slot, next);
    }

    // Takes the entry, with all entries under it, out of its row, if it is in one.
    fn cut(&mut self, slot: usize)
        requires linked { LieAsTrees self.old }
        requires in_room { slot < length self.old }
        ensures { Cuts self.old self.new slot }
    {
        self.bypass(slot);
        self.set_place(slot, None, None);
    }

    // Puts the only entry under another into that one's place, and leaves the other with no links.
    fn replace(&mut self, slot: usize, by: usize)
        requires linked { LieAsTrees self.old }
        requires child { child_of self.old slot ≡ Some by }
        requires only { next_of self.old by ≡ None }
        ensures { Replaces self.old self.new slot by }
    {
        let next = self.next(slot);
        let previous = self.previous(slot);
        self.set_previous(next, Some(by));
        self.set_link(previous, slot, Some(by));
        self.set_place(by, previous, next);
        self.clear_links(slot);
    }

    /// Puts the entry first into the row under `parent`, whatever its own place was.
    pub(crate) fn adopt(&mut self, parent: usize, slot: usize)
        requires in_room { slot < length self.old }
        requires present { IsSome (expiry_of self.old parent) }
        requires first { (other : ℕ) → child_of self.old parent ≡ Some other → other < length self.old }
        requires apart { child_of self.old parent ≢ Some slot }
        ensures { Adopts self.old self.new parent slot }
    {
        let first = self.child(parent);
        self.set_previous(first, Some(slot));
        self.set_place(slot, Some(parent), first);
        self.set_child(parent, slot);
    }

    /// Whether the entry at `right` expires before the one at `left`.
    pub(crate) fn is_earlier(&self, right: usize, left: usize) -> bool
        requires right { IsSome (expiry_of self.now right) }
        requires left { IsSome (expiry_of self.now left) }
        ensures { IsTrue result ↔ (moment_of self.now right < moment_of self.now left) }
    {
        self.moment(right) < self.moment(left)
    }

    // Hangs the later of two neighbours under the other, which keeps their place in the row. Each link is
    // written once: the later one's own place is not emptied before it is set. It is inlined into both passes
    // over a row, since a removal spends its time in them.
    #[inline(always)]
    fn join(&mut self, left: usize, right: usize) -> usize
        requires linked { LieAsTrees self.old }
        requires neighbours { next_of self.old left ≡ Some right }
        ensures { Joins self.old self.new left right result }
    {
        if self.is_earlier(right, left) {
            self.bypass(left);
            self.adopt(right, left);
            right
        } else {
            self.bypass(right);
            self.adopt(left, right);
            left
        }
    }

    // Joins the entries under `parent` in pairs from the first on, and returns the last one that stays.
    //
    // A row is no longer than the room, so the loop ends before its range does.
    fn join_pairs(&mut self, parent: usize) -> Option<usize>
        requires linked { LieAsTrees self.old }
        requires in_room { parent < length self.old }
        ensures relinks { Relinks self.old self.new }
        ensures none { IfNone result (child_of self.new parent ≡ None) }
        ensures row { IfSome result (λ last. IsInRow self.new parent last) }
        ensures last { IfSome result (λ last. next_of self.new last ≡ None) }
    {
        let mut last = self.child(parent)?;
        'pairs: for _ in 0..self.room() {
            let Some(right) = self.next(last) else {
                return Some(last);
            };
            last = self.join(last, right);
            let Some(next) = self.next(last) else {
                return Some(last);
            };
            last = next;
        }
        Some(last)
    }

    // Joins the entries of the row under `parent` from the last one back, and returns the one that is left.
    fn join_back(&mut self, parent: usize, mut last: usize) -> usize
        requires in_room { parent < length self.old }
        requires row { IsInRow self.old parent last }
        requires last { next_of self.old last ≡ None }
        ensures relinks { Relinks self.old self.new }
        ensures only { child_of self.new parent ≡ Some result }
        ensures last { next_of self.new result ≡ None }
    {
        'back: for _ in 0..self.room() {
            if self.is_first(parent, last) {
                return last;
            }
            let left = self.previous(last).unwrap();
            last = self.join(left, last);
        }
        last
    }

    // Joins the entries under `parent`, if there are any, into one tree, and returns its root.
    fn join_children(&mut self, parent: usize) -> Option<usize>
        requires linked { LieAsTrees self.old }
        requires in_room { parent < length self.old }
        ensures { JoinsChildren self.old self.new parent result }
    {
        let last = self.join_pairs(parent)?;
        Some(self.join_back(parent, last))
    }

    /// Takes an entry out of its tree. The entries under it are joined into one tree, whose root takes
    /// its place and is returned.
    ///
    /// The root need not be compared with the entry above it, which expires no later than the entry
    /// that was taken out.
    pub(crate) fn unlink(&mut self, slot: usize) -> Option<usize>
        requires linked { LieAsTrees self.old }
        requires in_room { slot < length self.old }
        ensures { Unlinks self.old self.new slot result }
    {
        let Some(heir) = self.join_children(slot) else {
            self.cut(slot);
            return None;
        };
        self.replace(slot, heir);
        Some(heir)
    }

    /// Hangs the later of two entries that are in no row under the other, which it returns. If only one
    /// is given, returns that.
    pub(crate) fn meld(&mut self, one: Option<usize>, other: Option<usize>) -> Option<usize>
        requires linked { LieAsTrees self.old }
        requires one { (slot : ℕ) → one ≡ Some slot → IsTop self.old slot }
        requires other { (slot : ℕ) → other ≡ Some slot → IsTop self.old slot }
        requires apart { (slot : ℕ) → one ≡ Some slot → other ≢ Some slot }
        ensures { Melds self.old self.new one other result }
    {
        let (Some(first), Some(second)) = (one, other) else {
            return one.or(other);
        };
        if self.is_earlier(second, first) {
            self.adopt(second, first);
            other
        } else {
            self.adopt(first, second);
            one
        }
    }
}
