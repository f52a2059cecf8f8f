// Whether a block's lengths fit: how many samples, the drives for them, a place for each output.
ghost use Rattle.std.specs.Prelude.{◌≡◌, true, false, ℕ, ◌≤◌};
ghost use Rattle.block.specs.Block.{LengthsFit, Decides};

pub fn fit(driven: usize, n: u64, drives: usize, outputs: usize) -> bool
    requires { driven ≤ 15 }
    ensures { Decides result (LengthsFit driven n drives outputs) }
{
    if 4096 < n {
        return false;
    }
    let samples = n as usize;
    if drives / 4 < samples * driven {
        return false;
    }
    samples <= outputs / 4
}
