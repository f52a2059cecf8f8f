// A circuit played for some samples, every one from several proposals.
ghost use Rattle.std.specs.Prelude.{◌≡◌, ℕ, length};
ghost use Rattle.units.specs.Voltage.{Within};
ghost use Rattle.network.specs.Network.{reading, stored_limit};
ghost use Rattle.image.specs.Sound.{Sound};
ghost use Rattle.solve.specs.Sample.{Playable};

use circuit::{Circuit, advance};
use image::Parts;
use solve::sample;
use std::io;
use std::io::Stdout;
use units::number::Number;
use units::voltage::Voltage;

// The drive of sample k: two sines of 2 V together, 440 and 1,000 Hz.
fn drive(k: u64) -> i64 {
    let wave = [
        376180i64, 747512, 1109225, 1456701, 1785553, 2091689, 2371380, 2621321, 2838676, 3021129,
        3166916, 3274847, 3344331, 3375372, 3368570, 3325110, 3246731, 3135697, 2994757, 2827090,
        2636254, 2426118, 2200796, 1964574,
    ];
    let p = (k % 24) as usize;
    wave[p]
}

// What proposal number `which` has at a node whose last answer was v.
fn proposal(which: u64, v: i64) -> i64 {
    match which {
        0 => v,
        1 => 0,
        2 => Voltage::LIMIT,
        3 => -Voltage::LIMIT,
        4 => {
            if v.unsigned_abs() < 1000000000 {
                return v + 1;
            }
            1
        }
        5 => {
            if v.unsigned_abs() < 1000000000 {
                return v - 1;
            }
            0
        }
        _ => i64::MAX,
    }
}

// The proposal at every place, and the drive d at the driven node, where there is one.
fn propose(which: u64, driven: usize, d: i64, last: &[i64; 16]) -> [i64; 16] {
    let mut volts = last.map(|v| proposal(which, v));
    if driven != 0 {
        volts[1] = d;
    }
    volts
}

// One sample on a copy of the stored currents: its number.
fn attempt(circuit: &Circuit, stored: &[i64; 32], volts: &mut [i64; 16]) -> Number
    requires { Playable circuit.now.board circuit.now.stretches stored.now }
{
    let mut x = *stored;
    sample::sample(circuit, volts, &mut x)
}

// Whether all proposals come to the same: one number, and one answer where there is any.
fn agree(circuit: &Circuit, stored: &[i64; 32], d: i64, last: &[i64; 16]) -> bool
    requires { Playable circuit.now.board circuit.now.stretches stored.now }
{
    let end = circuit.nodes() + 1;
    let driven = circuit.driven();
    let mut first = propose(0, driven, d, last);
    let number = attempt(circuit, stored, &mut first);
    for which in 1..7u64 {
        let mut other = propose(which, driven, d, last);
        if attempt(circuit, stored, &mut other) != number {
            return false;
        }
        if number == Number::Done && first[..end] != other[..end] {
            return false;
        }
    }
    true
}

// A sample on the stored currents themselves, from the last answer: its number.
fn advanced(circuit: &Circuit, stored: &mut [i64; 32], d: i64, last: &mut [i64; 16]) -> Number
    requires { Playable circuit.now.board circuit.now.stretches stored.old }
    ensures { Playable circuit.now.board circuit.now.stretches stored.new }
{
    let mut volts = propose(0, circuit.driven(), d, last);
    let number = sample::sample(circuit, &mut volts, stored);
    *last = volts;
    number
}

// One more voltage in a checksum.
fn mixed(sum: u64, v: i64) -> u64 {
    ((sum % 1000000007) * 31 + v.unsigned_abs() % 1000000007) % 1000000007
}

// These voltages, or stored currents.
fn show(out: Stdout, numbers: &[i64]) -> io::Result<()> {
    for n in numbers {
        print!(out; " {n}")?;
    }
    Ok(())
}

fn refused(out: Stdout, number: Number) -> io::Result<()> {
    print!(out; " refused {}", u64::from(number))
}

// .. where there is no more to say.
fn stopped(out: Stdout, number: Number) -> io::Result<()> {
    refused(out, number)?;
    print!(out; "\n")
}

fn differ(out: Stdout) -> io::Result<()> {
    println!(out; " differ")
}

fn agreed(out: Stdout, sum: u64, volts: &[i64]) -> io::Result<()> {
    print!(out; " agree, sum {sum}, last")?;
    show(out, volts)?;
    print!(out; "\n")
}

// The number of a refused sample, or an accepted one's voltages.
fn tell(out: Stdout, number: Number, volts: &[i64]) -> io::Result<()> {
    if number == Number::Done {
        show(out, volts)
    } else {
        refused(out, number)
    }
}

// n samples.
fn samples(out: Stdout, circuit: &Circuit, stored: &mut [i64; 32], n: u64) -> io::Result<()>
    requires { Playable circuit.now.board circuit.now.stretches stored.old }
{
    let end = circuit.nodes() + 1;
    let mut last = [0i64; 16];
    let mut sum: u64 = 1;
    for k in 0..n {
        if !agree(circuit, stored, drive(k), &last) {
            return differ(out);
        }
        let number = advanced(circuit, stored, drive(k), &mut last);
        if number != Number::Done {
            return stopped(out, number);
        }
        sum = last[..end].iter().fold(sum, |s, v| mixed(s, *v));
    }
    agreed(out, sum, &last[..end])
}

// One sample of drive d: from all proposals, those beside its own answer among them.
fn once(out: Stdout, circuit: &Circuit, stored: &mut [i64; 32], d: i64) -> io::Result<()>
    requires { Playable circuit.now.board circuit.now.stretches stored.old }
{
    let zeros = [0i64; 16];
    let mut last = propose(1, circuit.driven(), d, &zeros);
    attempt(circuit, stored, &mut last);
    if agree(circuit, stored, d, &last) {
        let number = advanced(circuit, stored, d, &mut last);
        tell(out, number, &last[..circuit.nodes() + 1])?;
        print!(out; ", stored")?;
        show(out, &stored[..circuit.count()])?;
        print!(out; "\n")
    } else {
        differ(out)
    }
}

// Stored currents that are zero but for x at element `at`.
fn charged(at: usize, x: i64) -> [i64; 32]
    ensures { (length result ≡ 32) × ((j : ℕ) → Within stored_limit (reading result j)) }
{
    let mut stored = [0i64; 32];
    if at < 32 {
        if advance::is_kept(x) {
            stored[at] = x;
        }
    }
    stored
}

// An opened image: n samples, or where n is 0 the one of drive d.
fn opened(out: Stdout, parts: Parts, n: u64, at: usize, x: i64, d: i64) -> io::Result<()>
    requires { Sound parts }
{
    if !image::conductances_fit(parts) {
        return stopped(out, Number::Conductance);
    }
    let circuit = opening::circuit(parts);
    let mut stored = charged(at, x);
    if n == 0 {
        once(out, &circuit, &mut stored, d)
    } else {
        samples(out, &circuit, &mut stored, n)
    }
}

// An image, which must be opened.
fn played(out: Stdout, image: &[u8], n: u64, at: usize, x: i64, d: i64) -> io::Result<()> {
    match image::read(image) {
        Ok(parts) => opened(out, parts, n, at, x, d),
        Err(number) => stopped(out, number),
    }
}

// n samples of the circuit of this name, from a fresh state.
pub fn circuit(out: Stdout, name: &str, image: &[u8], n: u64) -> io::Result<()> {
    print!(out; "{name}")?;
    played(out, image, n, 0, 0, 0)
}

// One sample of drive d, begun with x stored at element `at`: its number or its voltages, and all
// stored currents after it.
pub fn case(out: Stdout, name: &str, image: &[u8], at: usize, x: i64, d: i64) -> io::Result<()> {
    print!(out; "{name}, stored {x}, drive {d}:")?;
    played(out, image, 0, at, x, d)
}
