// The samples of a block, one after the other, up to the first that is refused.
ghost use Rattle.std.specs.Prelude.{◌≡◌, length};
ghost use Rattle.units.specs.Number.{number_of};
ghost use Rattle.circuit.specs.Board.{driven_on, network_on};
ghost use Rattle.guess.specs.Proposal.{Guessable};
ghost use Rattle.solve.specs.Sample.{Playable, Sampled};
ghost use Rattle.block.specs.Block.{drive_at};
ghost use Rattle.block.specs.Drives.{Begun};
ghost use Rattle.block.specs.Playing.{Driven, Room, Ran};

use crate::drives;
use crate::ending::Ending;
use circuit::Circuit;
use guess::Memory;
use solve::sample;
use units::bytes;
use units::number::Number;

// Where sample j begins: its drives at the driven nodes, and at the free nodes a guess, which may be
// anything.
fn begin(
    circuit: &Circuit,
    drives: &[u8],
    j: usize,
    x: &[i64; 32],
    volts: &mut [i64; 16],
    memory: &mut Memory,
)
    requires { Guessable circuit.now.board circuit.now.stretches x.now × Driven circuit.now.board drives.now j × (length volts.old ≡ 16) }
    ensures { Begun circuit.now.board drives.now j volts.new × (length volts.new ≡ 16) }
{
    drives::place(drives, circuit.driven(), j, volts);
    guess::propose(circuit, x, volts, memory);
}

// Sample j: its voltages and the stored currents after it.
fn next(
    circuit: &Circuit,
    drives: &[u8],
    j: usize,
    x: &mut [i64; 32],
    volts: &mut [i64; 16],
    memory: &mut Memory,
) -> Number
    requires { Playable circuit.now.board circuit.now.stretches x.old × Driven circuit.now.board drives.now j × (length volts.old ≡ 16) }
    ensures { Sampled (network_on circuit.now.board circuit.now.stretches) (drive_at drives.now (driven_on circuit.now.board) j) x.old x.new volts.new result × (length volts.new ≡ 16) }
{
    begin(circuit, drives, j, x, volts, memory);
    sample::sample(circuit, volts, x)
}

// All samples, each from the voltages of the one before it and what the guess kept.
pub fn run(
    circuit: &Circuit,
    output: usize,
    n: usize,
    drives: &[u8],
    x: &mut [i64; 32],
    volts: &mut [i64; 16],
    outputs: &mut [u8],
) -> Ending
    requires { Playable circuit.now.board circuit.now.stretches x.old × Room circuit.now.board output n drives.now outputs.old × (length volts.old ≡ 16) }
    ensures { Ran (network_on circuit.now.board circuit.now.stretches) output (drive_at drives.now (driven_on circuit.now.board)) x.old n outputs.old x.new outputs.new (number_of result.number) result.count }
{
    let mut memory = Memory::new();
    for j in 0..n {
        match next(circuit, drives, j, x, volts, &mut memory) {
            Number::Done => bytes::put_signed::<4>(outputs, 4 * j, volts[output]),
            number => {
                return Ending {
                    number,
                    count: j as u64,
                };
            }
        }
    }
    Ending {
        number: Number::Done,
        count: n as u64,
    }
}
