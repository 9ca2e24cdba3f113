ghost use Rattle.std.specs.Prelude.{◌≡◌, count_by, is_some};
ghost use Rattle.std.proofs.Props.{props};
ghost use Rattle.rb_pairing.specs.Nodes.{expiries};
ghost use Rattle.rb_pairing.specs.Forest.{IsTree, IsEntry};

use crate::nodes::Nodes;
use rb_timer::{Timer, clears_one_by_one};
use std::alloc::{AllocError, Global};

/// A pairing heap of the entries, by expiry, whose links are slots.
///
/// In the long run an insert and a removal cost at most the logarithm of the number of entries, which is
/// not proved: a leaf below k entries raises the usual potential, the sum of the logarithms of the
/// entries' sizes, by a sum of log(1 + 1/size) over k different sizes, which is at most log(k + 1). A
/// single removal may join as many entries as there are. A clear costs a constant for each entry,
/// whatever the room. A `reserve` that makes room costs all the room that there is then, and every other
/// call a constant.
#[derive(Debug, Drop)]
pub struct PairingTimer {
    // The node of each slot of the room.
    nodes: Nodes,
    // The slot of the root, the entry under which all others hang.
    root: Option<usize>,
    // The slot of the newest entry or, once that is removed, of the one before it. A new entry is put
    // under this one, unless it expires earlier. So rising expiries make a chain, in which each entry
    // has at most one child, and nothing has to be joined.
    newest: Option<usize>,
    // How many entries there are.
    len: usize,
    ghost tree: { IsTree nodes root } by { Prim.hlevel props },
    ghost newest_stands: { IsEntry nodes newest },
    ghost counted: { len ≡ count_by is_some (expiries nodes) },
}

impl Timer for PairingTimer {
    ghost use Rattle.std.specs.Prelude.{length};
    ghost use Rattle.rb_timer.specs.Slots.{content_of};
    ghost use Rattle.rb_pairing.specs.Nodes.{expiries};
    ghost use Rattle.rb_pairing.specs.NodeRoom.{in_nodes_of_content};

    ghost content = { λ timer. content_of (expiries timer.nodes) };

    ghost room = { λ timer. length timer.nodes };

    ghost slots_below_room = { λ timer. in_nodes_of_content timer.nodes };

    fn new(alloc: Global) -> Self {
        PairingTimer {
            nodes: Nodes::new(alloc),
            root: None,
            newest: None,
            len: 0,
        }
    }

    fn room(&self) -> usize {
        self.nodes.room()
    }

    fn len(&self) -> usize {
        self.len
    }

    fn get(&self, slot: usize) -> Option<u64> {
        self.nodes.expiry(slot)
    }

    fn reserve(&mut self, wanted: usize) -> Result<(), AllocError> {
        self.nodes.reserve(wanted)
    }

    fn insert(&mut self, slot: usize, expiry: u64) {
        self.root = self.nodes.add(self.root, self.newest, slot, expiry);
        self.newest = Some(slot);
        self.len += 1;
    }

    fn remove(&mut self, slot: usize) -> u64 {
        let expiry = self.nodes.moment(slot);
        self.newest = self.nodes.newest_but(self.newest, slot);
        self.root = self.nodes.take_out(self.root, slot);
        self.len -= 1;
        expiry
    }

    fn least(&self) -> Option<(usize, u64)> {
        let root = self.root?;
        Some((root, self.nodes.moment(root)))
    }

    fn due(&mut self, now: u64) -> Option<(usize, u64)> {
        self.least().filter(|&(_, expiry)| expiry <= now)
    }

    fn clear(&mut self) {
        if clears_one_by_one(self.len, self.nodes.room()) {
            self.take_each();
        } else {
            self.take_all();
        }
    }
}

impl PairingTimer {
    ghost use Rattle.std.specs.Prelude.{◌≡◌, length};
    ghost use Rattle.std.specs.FinMap as map;
    ghost use Rattle.rb_timer.specs.Slots.{content_of};
    ghost use Rattle.rb_pairing.specs.Nodes.{expiries};

    // Takes the entries out one by one, each when none is under it, so that nothing is ever joined.
    //
    // It goes on from the newest entry: once that is removed, the newest is the one before it.
    fn take_each(&mut self)
        ensures content { content_of (expiries self.new.nodes) ≡ map.empty }
        ensures room { length self.new.nodes ≡ length self.old.nodes }
    {
        while let Some(slot) = self.newest.or(self.root) {
            let leaf = self.nodes.leaf_under(slot);
            self.newest = Some(leaf);
            self.remove(leaf);
        }
    }

    // Takes all entries out in one pass over the room.
    fn take_all(&mut self)
        ensures content { content_of (expiries self.new.nodes) ≡ map.empty }
        ensures room { length self.new.nodes ≡ length self.old.nodes }
    {
        self.nodes.clear();
        self.root = None;
        self.newest = None;
        self.len = 0;
    }
}
