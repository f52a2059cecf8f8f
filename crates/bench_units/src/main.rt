// Runs the conversions, quotients and byte readers of `units` at the places where they could go wrong,
// and writes what comes of each; the file `stdout` has what should.
#![tactic(auto)]

ghost use Rattle.std.specs.Prelude.{◌≤◌};
ghost use Rattle.units.specs.Voltage.{voltage_limit};

use std::io;
use std::io::Stdout;
use units::voltage::Voltage;
use units::{bytes, ratio};

// The nearest voltage to x, behind the way that x is written.
fn nearest(out: Stdout, written: &str, x: f64) -> io::Result<()> {
    match Voltage::from_f64(x) {
        Some(v) => println!(out; "{written} is nearest to {}", v.microvolts),
        None => println!(out; "{written} is no voltage"),
    }
}

// Both signs of x, written with no sign.
fn either(out: Stdout, written: &str, x: f64) -> io::Result<()> {
    nearest(out, written, x)?;
    print!(out; "-")?;
    nearest(out, written, -x)
}

// 1 if v goes to f64 and back unchanged, else 0.
fn comes_back(v: i64) -> u64
    ensures { result ≤ 1 }
{
    let there = Voltage { microvolts: v };
    match Voltage::from_f64(there.to_f64()) {
        Some(back) => {
            if back.microvolts == v {
                return 1;
            }
            0
        }
        None => 0,
    }
}

// How many of v and -v come back.
fn both_back(v: u64) -> u64
    requires { v ≤ voltage_limit }
    ensures { result ≤ 2 }
{
    let z = v as i64;
    comes_back(z) + comes_back(-z)
}

// How many of the voltages 0, 16381, 32762, .. within the limit come back with either sign.
fn round_trips() -> u64
    ensures { result ≤ 4096 }
{
    let mut back: u64 = 0;
    for k in 0..2048u64 {
        back += both_back(k * 16381);
    }
    back
}

fn tests(out: Stdout, z: i64) -> io::Result<()> {
    let v = Voltage { microvolts: z };
    let range = if v.in_range() { "in" } else { "out of" };
    let drive = if v.in_drive() { "may" } else { "may not" };
    println!(out; "{z} is {range} range and {drive} be driven")
}

// What the eight bytes hold, at each width.
fn readings(out: Stdout, b: [u8; 8]) -> io::Result<()> {
    let s: &[u8] = &b;
    println!(out;
        "{:016x}: {} {} {} {}",
        bytes::unsigned_at::<8>(s, 0),
        bytes::unsigned_at::<2>(s, 0),
        bytes::unsigned_at::<4>(s, 0),
        bytes::signed_at::<4>(s, 0),
        bytes::signed_at::<8>(s, 0)
    )
}

// z stored as four bytes from place 1 on and as eight from place 6 on, among others, which stay.
fn stores(out: Stdout, z: i64) -> io::Result<()> {
    let mut b = [170u8; 16];
    let s: &mut [u8] = &mut b;
    bytes::put_signed::<4>(s, 1, z);
    bytes::put_signed::<8>(s, 6, z);
    println!(out;
        "{z}: {:016x} {:016x}",
        bytes::unsigned_at::<8>(s, 0),
        bytes::unsigned_at::<8>(s, 8)
    )
}

// The whole number nearest to a / b.
fn quotient(out: Stdout, a: u64, b: u64) -> io::Result<()> {
    println!(out; "{a} / {b} is nearest to {}", ratio::nearest(a, b))
}

fn near_zero(out: Stdout) -> io::Result<()> {
    either(out, "0", 0.0)?;
    either(out, "0.25", 0.25)?;
    either(out, "0.49999999999999994", 0.49999999999999994)?;
    either(out, "0.5", 0.5)?;
    either(out, "1.5", 1.5)?;
    either(out, "2.5", 2.5)
}

fn near_the_limit(out: Stdout) -> io::Result<()> {
    either(out, "33554431.5", 33554431.5)?;
    either(out, "33554432", 33554432.0)?;
    either(out, "33554432.49999999", 33554432.49999999)?;
    either(out, "33554432.5", 33554432.5)?;
    either(out, "33554433", 33554433.0)
}

fn far_out(out: Stdout) -> io::Result<()> {
    either(out, "4611686018427387904", 4611686018427387904.0)?;
    either(out, "1e300", 1.0e300)?;
    either(out, "the least subnormal", 5.0e-324)?;
    either(out, "the greatest subnormal", 2.225073858507201e-308)?;
    either(out, "infinity", 1.0 / 0.0)?;
    either(out, "NaN", 0.0 / 0.0)
}

fn there_and_back(out: Stdout) -> io::Result<()> {
    println!(out;
        "{} of 4098 voltages come back from f64 unchanged",
        round_trips() + both_back(33554432)
    )
}

fn limits(out: Stdout) -> io::Result<()> {
    tests(out, 33554432)?;
    tests(out, 33554433)?;
    tests(out, -33554432)?;
    tests(out, -33554433)?;
    tests(out, 16777216)?;
    tests(out, 16777217)?;
    tests(out, -16777216)?;
    tests(out, -16777217)
}

fn reads(out: Stdout) -> io::Result<()> {
    readings(out, [0, 0, 0, 0, 0, 0, 0, 0])?;
    readings(out, [255, 255, 255, 127, 0, 0, 0, 0])?;
    readings(out, [0, 0, 0, 128, 255, 255, 255, 127])?;
    readings(out, [255, 255, 255, 255, 255, 255, 255, 255])?;
    readings(out, [0, 0, 0, 0, 0, 0, 0, 128])?;
    readings(out, [1, 2, 3, 4, 5, 6, 7, 8])
}

fn writes(out: Stdout) -> io::Result<()> {
    stores(out, 0)?;
    stores(out, 1)?;
    stores(out, -1)?;
    stores(out, -2147483648)?;
    stores(out, 2147483647)?;
    stores(out, -33554432)
}

// Halves and what lies beside them, nothing to divide by, and numbers whose doubles are too long.
fn quotients(out: Stdout) -> io::Result<()> {
    quotient(out, 1000000000, 1500)?;
    quotient(out, 1000000000, 1023)?;
    quotient(out, 1000000000, 1024)?;
    quotient(out, 1000000000, 1025)?;
    quotient(out, 1000000000, 2000000000)?;
    quotient(out, 1000000000, 2000000001)?;
    quotient(out, 500000000000000, 819200)?;
    quotient(out, 249, 500)?;
    quotient(out, 250, 500)?;
    quotient(out, 0, 1)?;
    quotient(out, 7, 0)?;
    quotient(out, 18446744073709551615, 1)?;
    quotient(out, 18446744073709551615, 2)?;
    quotient(out, 9223372036854775807, 18446744073709551615)?;
    quotient(out, 9223372036854775808, 18446744073709551615)?;
    quotient(out, 18446744073709551615, 18446744073709551615)
}

fn main(rt: HostRuntime) -> io::Result<()> {
    let out = rt.stdout();
    near_zero(out)?;
    near_the_limit(out)?;
    far_out(out)?;
    there_and_back(out)?;
    limits(out)?;
    reads(out)?;
    writes(out)?;
    quotients(out)
}
