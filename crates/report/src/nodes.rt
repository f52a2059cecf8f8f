// How far to trust a circuit's voltages: a line for each free node, and the greatest B.
ghost use Rattle.std.specs.Prelude.{◌≡◌, true, ◌≤◌, length};
ghost use Rattle.console.specs.Text.{HasRoom, Puts};
ghost use Rattle.image.specs.Conductance.{conductances_fit};
ghost use Rattle.image.specs.Meaning.{network_at};
ghost use Rattle.image.specs.Setting.{plain};
ghost use Rattle.image.specs.Sound.{Sound};
ghost use Rattle.circuit.specs.Board.{network_on, Laid};
ghost use Rattle.report.specs.Nodes.{node_line, free_lines, Greatest, Bounds};

use super::fields;
use circuit::Circuit;
use console::text::Text;
use image::Parts;
use units::signed;

// A node's line.
fn put_node(text: &mut Text, circuit: &Circuit, i: usize)
    requires { Laid circuit.now.board circuit.now.stretches × HasRoom 84 text.old }
    ensures { Puts (node_line (network_on circuit.now.board circuit.now.stretches) i) 84 text.old text.new }
{
    let held = circuit.held(i);
    let steepest = circuit.steepest(i);
    let least = signed::rounded_up(steepest, held);
    fields::put_column(text, i as u64);
    fields::put_column(text, held);
    fields::put_column(text, steepest);
    fields::put_last(text, least);
}

// A line for each free node.
fn put_nodes(text: &mut Text, circuit: &Circuit)
    requires { Laid circuit.now.board circuit.now.stretches × HasRoom 1260 text.old }
    ensures { Puts (free_lines (network_on circuit.now.board circuit.now.stretches)) 1260 text.old text.new }
{
    let nodes = circuit.nodes();
    for k in circuit.driven()..nodes {
        put_node(text, circuit, k + 1);
    }
}

// The greatest B; 0 where there is no free node.
fn greatest(circuit: &Circuit) -> u64
    requires { Laid circuit.now.board circuit.now.stretches }
    ensures { Greatest (network_on circuit.now.board circuit.now.stretches) result }
{
    circuit.least_bound(0).unwrap_or(0)
}

// Those lines and the greatest B, of a circuit whose conductances are within their limits, at the start
// of `buffer`. Where they end.
pub fn put_bounds(buffer: &mut [u8], parts: Parts) -> usize
    requires { Sound parts × (conductances_fit parts plain ≡ true) × (4096 ≤ length buffer.old) }
    ensures { Bounds (network_at parts plain) buffer.old result buffer.new × (result ≤ 4096) }
{
    let mut circuit = Circuit {
        board: [0; 293],
        stretches: [0; 408],
    };
    opening::fill(parts, &mut circuit);
    let mut text = Text::new(buffer);
    put_nodes(&mut text, &circuit);
    fields::put_named(&mut text, b"greatest ", greatest(&circuit));
    text.end
}
