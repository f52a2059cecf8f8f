// From any bytes, voltages and stored currents to the circuit's functions: each is called only once
// what it asks has been tested here.
ghost use Rattle.std.specs.Prelude.{◌≡◌, true, ◌≤◌, ◌<◌};
ghost use Rattle.image.specs.Sound.{Sound};
ghost use Rattle.circuit.specs.Board.{nodes_on, count_on, Ready, Ranged, Kept};

use super::show;
use super::text::Image;
use circuit::{Circuit, advance};
use image::Parts;
use std::io;
use std::io::Stdout;
use units::voltage::Voltage;

// What is asked: a sample at these voltages with these stored currents, or what the circuit is by
// itself.
#[derive(Clone, Copy)]
pub struct Question {
    pub sample: bool,
    pub volts: [i64; 16],
    pub stored: [i64; 32],
}

fn all_in_range(circuit: &Circuit, volts: &[i64; 16]) -> bool
    requires { nodes_on circuit.now.board < 16 }
    ensures { result ≡ true → Ranged circuit.now.board volts.now }
{
    for i in 0..16usize {
        let v = Voltage {
            microvolts: volts[i],
        };
        if !v.in_range() {
            return false;
        }
    }
    true
}

fn all_kept(circuit: &Circuit, stored: &[i64; 32]) -> bool
    requires { count_on circuit.now.board ≤ 32 }
    ensures { result ≡ true → Kept circuit.now.board stored.now }
{
    for j in 0..32usize {
        if !advance::is_kept(stored[j]) {
            return false;
        }
    }
    true
}

fn of_board(out: Stdout, circuit: &Circuit, q: Question) -> io::Result<()>
    requires { Ready circuit.now.board circuit.now.stretches }
{
    let volts = q.volts;
    let mut stored = q.stored;
    if !q.sample {
        return show::circuit(out, circuit);
    }
    if !all_in_range(circuit, &volts) {
        return println!(out; "  a voltage is out of range");
    }
    if !all_kept(circuit, &stored) {
        return println!(out; "  a stored current is beyond its limit");
    }
    show::sample(out, circuit, &volts, &mut stored)
}

fn refused(out: Stdout) -> io::Result<()> {
    println!(out; "  the image is refused")
}

fn of_parts(out: Stdout, parts: Parts, q: Question) -> io::Result<()>
    requires { Sound parts }
{
    if !image::conductances_fit(parts) {
        return refused(out);
    }
    let mut circuit = Circuit {
        board: [0; 293],
        stretches: [0; 408],
    };
    opening::fill(parts, &mut circuit);
    of_board(out, &circuit, q)
}

fn of_bytes(out: Stdout, image: &[u8], q: Question) -> io::Result<()> {
    match image::read(image) {
        Ok(parts) => of_parts(out, parts, q),
        Err(_) => refused(out),
    }
}

// The first n bytes of s.
fn of_part(out: Stdout, s: &[u8], n: usize, q: Question) -> io::Result<()> {
    if n <= s.len() {
        return of_bytes(out, &s[0..n], q);
    }
    Ok(())
}

// The array as a slice.
fn of_array(out: Stdout, b: &[u8; 1400], n: usize, q: Question) -> io::Result<()> {
    of_part(out, b, n, q)
}

pub fn of(out: Stdout, i: Image, q: Question) -> io::Result<()> {
    let bytes = i.bytes;
    of_array(out, &bytes, i.digits / 2, q)
}
