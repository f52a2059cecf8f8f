// The numbers of a board by name. `specs/Board.antt` says which place has which.
ghost use Rattle.std.specs.Prelude.{◌≡◌, ◌≤◌, ◌<◌};
ghost use Rattle.circuit.specs.Board.{leak_on, nodes_on, driven_on, count_on, kind_on, p_on, q_on, conductance_on, first_on, breakpoints_on, steepest_on, start_on, end_on};

use crate::Circuit;

impl Circuit {
    pub fn leak(&self) -> u64
        ensures { result ≡ leak_on self.now.board }
    {
        self.board[0]
    }

    pub fn nodes(&self) -> usize
        ensures { result ≡ nodes_on self.now.board }
    {
        self.board[1] as usize
    }

    pub fn driven(&self) -> usize
        ensures { result ≡ driven_on self.now.board }
    {
        self.board[2] as usize
    }

    pub fn count(&self) -> usize
        ensures { result ≡ count_on self.now.board }
    {
        self.board[3] as usize
    }

    pub fn kind(&self, j: usize) -> u64
        requires { j < 32 }
        ensures { result ≡ kind_on self.now.board j }
    {
        self.board[101 + 6 * j]
    }

    pub fn end_p(&self, j: usize) -> usize
        requires { j < 32 }
        ensures { result ≡ p_on self.now.board j }
    {
        self.board[102 + 6 * j] as usize
    }

    pub fn end_q(&self, j: usize) -> usize
        requires { j < 32 }
        ensures { result ≡ q_on self.now.board j }
    {
        self.board[103 + 6 * j] as usize
    }

    pub fn conductance(&self, j: usize) -> u64
        requires { j < 32 }
        ensures { result ≡ conductance_on self.now.board j }
    {
        self.board[104 + 6 * j]
    }

    pub fn first(&self, j: usize) -> usize
        requires { j < 32 }
        ensures { result ≡ first_on self.now.board j }
    {
        self.board[105 + 6 * j] as usize
    }

    pub fn breakpoints(&self, j: usize) -> usize
        requires { j < 32 }
        ensures { result ≡ breakpoints_on self.now.board j }
    {
        self.board[106 + 6 * j] as usize
    }

    pub fn steepest_sum(&self, i: usize) -> u64
        requires { i < 16 }
        ensures { result ≡ steepest_on self.now.board i }
    {
        self.board[4 + i]
    }

    pub fn start(&self, i: usize) -> usize
        requires { i ≤ 16 }
        ensures { result ≡ start_on self.now.board i }
    {
        self.board[20 + i] as usize
    }

    pub fn end(&self, k: usize) -> usize
        requires { k < 64 }
        ensures { result ≡ end_on self.now.board k }
    {
        self.board[37 + k] as usize
    }
}
