// The index: for each node the ends that it is, in image order. It is made once for a circuit, so that no
// sum asks of every element whether it ends here.
ghost use Rattle.std.specs.Prelude.{◌≡◌, true, cond, [], ◌∷◌, map, ◌+◌, ◌≤◌, ◌<◌, length};
ghost use Rattle.units.specs.Table.{overlaid};
ghost use Rattle.network.specs.Elements.{touches, elements_at};
ghost use Rattle.circuit.specs.Index.{end_number, ends_at, index_of};
ghost use Rattle.circuit.specs.Board.{count_on, network_on, Unindexed};

use crate::Circuit;
use crate::branch::End;

impl Circuit {
    // The end of element j that node i is, if it is one, goes to place k of the ends. Gives the next free place.
    fn put_end(&mut self, i: usize, j: usize, k: usize) -> usize
        requires { (j < 32) × (touches (network_on self.old.board self.old.stretches) i j ≡ true → k < 64) }
        ensures { (self.new.board ≡ overlaid self.old.board (37 + k) (map (end_number (network_on self.old.board self.old.stretches) i) (cond (touches (network_on self.old.board self.old.stretches) i j) (j ∷ []) []))) × (result ≡ k + cond (touches (network_on self.old.board self.old.stretches) i j) 1 0) × (self.new.stretches ≡ self.old.stretches) }
    {
        match self.end_at(j, i) {
            Some(End::P) => {
                self.board[37 + k] = 2 * j as u64;
                k + 1
            }
            Some(End::Q) => {
                self.board[37 + k] = 2 * j as u64 + 1;
                k + 1
            }
            None => k,
        }
    }

    // All ends that node i is, from place `at` on. Gives the place after them.
    fn put_ends(&mut self, i: usize, at: usize) -> usize
        requires { (count_on self.old.board ≤ 32) × (at + length (elements_at (network_on self.old.board self.old.stretches) i) ≤ 64) }
        ensures { (self.new.board ≡ overlaid self.old.board (37 + at) (ends_at (network_on self.old.board self.old.stretches) i)) × (result ≡ at + length (elements_at (network_on self.old.board self.old.stretches) i)) × (self.new.stretches ≡ self.old.stretches) }
    {
        let count = self.count();
        let mut k = at;
        for j in 0..count {
            k = self.put_end(i, j, k);
        }
        k
    }

    // The index of a board that has all else but the steepest sums.
    pub fn fill_index(&mut self)
        requires { Unindexed self.old.board self.old.stretches }
        ensures board { self.new.board ≡ overlaid self.old.board 20 (index_of (network_on self.old.board self.old.stretches)) }
        ensures stretches { self.new.stretches ≡ self.old.stretches }
    {
        let nodes = self.nodes();
        let mut k: usize = 0;
        for i in 0..nodes + 1 {
            k = self.put_ends(i, k);
            self.board[21 + i] = k as u64;
        }
    }
}
