// What comes of a circuit, written out.
ghost use Rattle.std.specs.Prelude.{◌≡◌, length};
ghost use Rattle.circuit.specs.Board.{Laid, Evaluable};
ghost use Rattle.circuit.specs.Nets.{Netted};

use circuit::Circuit;
use circuit::advance::Beyond;
use std::io;
use std::io::Stdout;

// The least bound for e.
fn least(out: Stdout, circuit: &Circuit, e: u64) -> io::Result<()>
    requires { Laid circuit.now.board circuit.now.stretches }
{
    match circuit.least_bound(e) {
        Some(b) => print!(out; " {b}"),
        None => print!(out; " none"),
    }
}

// .. for no e, for one, and for the largest.
fn bounds(out: Stdout, circuit: &Circuit) -> io::Result<()>
    requires { Laid circuit.now.board circuit.now.stretches }
{
    print!(out; "  B")?;
    least(out, circuit, 0)?;
    least(out, circuit, 1)?;
    least(out, circuit, 1000000000000)?;
    least(out, circuit, 18446744073709551614)?;
    least(out, circuit, 18446744073709551615)?;
    print!(out; "\n")
}

// The held conductance of every node, with ground.
fn held(out: Stdout, circuit: &Circuit) -> io::Result<()>
    requires { Laid circuit.now.board circuit.now.stretches }
{
    let nodes = circuit.nodes();
    for i in 0..16usize {
        if i <= nodes {
            print!(out; " {}", circuit.held(i))?;
        }
    }
    Ok(())
}

// The steepest sum of every node, as it stands on the board.
fn steepest(out: Stdout, circuit: &Circuit) -> io::Result<()> {
    let nodes = circuit.nodes();
    for i in 0..16usize {
        if i <= nodes {
            print!(out; " {}", circuit.steepest_sum(i))?;
        }
    }
    Ok(())
}

// Held conductance and steepest sum of every node.
fn nodes(out: Stdout, circuit: &Circuit) -> io::Result<()>
    requires { Laid circuit.now.board circuit.now.stretches }
{
    print!(out; "  held")?;
    held(out, circuit)?;
    print!(out; " steepest")?;
    steepest(out, circuit)?;
    print!(out; "\n")
}

// What a circuit is by itself.
pub fn circuit(out: Stdout, circuit: &Circuit) -> io::Result<()>
    requires { Laid circuit.now.board circuit.now.stretches }
{
    nodes(out, circuit)?;
    bounds(out, circuit)
}

// The current of every element.
fn flows(out: Stdout, circuit: &Circuit, stored: &[i64; 32], volts: &[i64; 16]) -> io::Result<()>
    requires { Evaluable circuit.now.board circuit.now.stretches stored.now volts.now }
{
    let count = circuit.count();
    print!(out; "  flow")?;
    for j in 0..32usize {
        if j < count {
            print!(out; " {}", circuit.flow(stored, volts, j))?;
        }
    }
    Ok(())
}

// The net current of every node, with ground.
fn nets(out: Stdout, circuit: &Circuit, stored: &[i64; 32], volts: &[i64; 16]) -> io::Result<()>
    requires { Evaluable circuit.now.board circuit.now.stretches stored.now volts.now }
{
    let nodes = circuit.nodes();
    print!(out; " net")?;
    for i in 0..16usize {
        if i <= nodes {
            print!(out; " {}", circuit.net_current(stored, volts, i))?;
        }
    }
    Ok(())
}

// Every node is moved from zero volts to its voltage, one after the other.
fn move_all(
    circuit: &Circuit,
    stored: &[i64; 32],
    volts: &[i64; 16],
    at: &mut [i64; 16],
    nets: &mut [i64; 16],
)
    requires { Evaluable circuit.now.board circuit.now.stretches stored.now volts.now × Evaluable circuit.now.board circuit.now.stretches stored.now at.old × (length at.old ≡ 16) × Netted circuit.now.board circuit.now.stretches stored.now at.old nets.old }
{
    let nodes = circuit.nodes();
    for i in 0..nodes + 1 {
        circuit.move_to(stored, i, volts[i], at, nets);
    }
}

// The same net currents, as such moves leave them.
fn moved(out: Stdout, circuit: &Circuit, stored: &[i64; 32], volts: &[i64; 16]) -> io::Result<()>
    requires { Evaluable circuit.now.board circuit.now.stretches stored.now volts.now }
{
    let mut at = [0i64; 16];
    let mut nets = circuit.net_currents(stored, &at);
    move_all(circuit, stored, volts, &mut at, &mut nets);
    let nodes = circuit.nodes();
    print!(out; " moved")?;
    for i in 0..16usize {
        if i <= nodes {
            print!(out; " {}", nets[i])?;
        }
    }
    Ok(())
}

// The stored currents of n elements, and the one in the place after them.
fn row(out: Stdout, x: &[i64; 32], n: usize) -> io::Result<()> {
    for j in 0..32usize {
        if j <= n {
            print!(out; " {}", x[j])?;
        }
    }
    Ok(())
}

// The stored currents after a sample.
fn advanced(
    out: Stdout,
    circuit: &Circuit,
    volts: &[i64; 16],
    stored: &mut [i64; 32],
) -> io::Result<()>
    requires { Evaluable circuit.now.board circuit.now.stretches stored.old volts.now × (length stored.old ≡ 32) }
{
    match circuit.advance(volts, stored) {
        Ok(()) => print!(out; " stored")?,
        Err(Beyond) => print!(out; " beyond")?,
    }
    row(out, stored, circuit.count())?;
    print!(out; "\n")
}

// What a circuit does at these voltages with these stored currents.
pub fn sample(
    out: Stdout,
    circuit: &Circuit,
    volts: &[i64; 16],
    stored: &mut [i64; 32],
) -> io::Result<()>
    requires { Evaluable circuit.now.board circuit.now.stretches stored.old volts.now × (length stored.old ≡ 32) }
{
    flows(out, circuit, stored, volts)?;
    nets(out, circuit, stored, volts)?;
    moved(out, circuit, stored, volts)?;
    advanced(out, circuit, volts, stored)
}
