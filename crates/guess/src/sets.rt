// Sets of rows that ties have made one.
//
// Whatever stands in them, what is read is a row.
ghost use Rattle.std.specs.Prelude.{◌<◌};

use crate::rows;
use std::array;

// Of each row: the set that it is in, the row that stands for the set of its number, that set's root, and
// whether the row is spared.
#[derive(Clone, Copy)]
pub struct Sets {
    set: [usize; 15],
    root: [usize; 15],
    pub spared: [bool; 15],
}

impl Sets {
    // Every row is a set of its own.
    pub fn alone() -> Sets {
        let own = array::from_fn(|k| k);
        Sets {
            set: own,
            root: own,
            spared: [false; 15],
        }
    }

    // The row that stands for the set of row i.
    pub fn root(&self, i: usize) -> usize
        requires { i < 15 }
        ensures { result < 15 }
    {
        rows::row(self.root[rows::row(self.set[i])])
    }

    pub fn spare(&mut self, i: usize)
        requires { i < 15 }
    {
        self.spared[i] = true;
    }

    // The sets of two roots are one; the second stands for it.
    pub fn tie(&mut self, spared: usize, keeps: usize)
        requires { (spared < 15) × (keeps < 15) }
    {
        let from = self.set[spared];
        let to = rows::row(self.set[keeps]);
        for set in self.set.iter_mut() {
            if *set == from {
                *set = to;
            }
        }
        self.root[to] = keeps;
    }

    // Row i takes the place of its set's root r, which is spared in its stead.
    pub fn swap(&mut self, r: usize, i: usize)
        requires { (r < 15) × (i < 15) }
    {
        let set = rows::row(self.set[i]);
        self.spared[r] = true;
        self.spared[i] = false;
        self.root[set] = i;
    }
}
