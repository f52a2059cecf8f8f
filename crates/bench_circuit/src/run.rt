// The ways to ask a circuit: by itself, and at voltages and stored currents that are given in text or
// come from a row of numbers.
ghost use Rattle.std.specs.Prelude.{◌^◌, ◌<◌};

use super::ask;
use super::ask::Question;
use super::text::{Image, list, with_sign};
use std::io;
use std::io::Stdout;

// What a circuit is by itself, behind its name.
pub fn circuit(out: Stdout, name: &[u8], i: Image) -> io::Result<()> {
    out.write_all(name)?;
    print!(out; "\n")?;
    ask::of(
        out,
        i,
        Question {
            sample: false,
            volts: [0; 16],
            stored: [0; 32],
        },
    )
}

fn at(out: Stdout, i: Image, volts: [i64; 16], stored: [i64; 32]) -> io::Result<()> {
    ask::of(
        out,
        i,
        Question {
            sample: true,
            volts,
            stored,
        },
    )
}

// The first 16 of the numbers.
fn first(l: [i64; 32]) -> [i64; 16] {
    let mut volts = [0i64; 16];
    for k in 0..16usize {
        volts[k] = l[k];
    }
    volts
}

// One sample: the voltages from ground on, and the stored currents.
pub fn sample(out: Stdout, i: Image, volts: &[u8], stored: &[u8]) -> io::Result<()> {
    at(out, i, first(list(volts)), list(stored))
}

// One sample with all stored currents alike.
pub fn filled(out: Stdout, i: Image, volts: &[u8], x: i64) -> io::Result<()> {
    at(out, i, first(list(volts)), [x; 32])
}

// A sample with v between nodes 1 and 2.
fn across(out: Stdout, i: Image, v: i64) -> io::Result<()> {
    let n = v.unsigned_abs();
    let negative = v < 0;
    let mut volts = [0i64; 16];
    volts[1] = with_sign(negative, n / 2);
    volts[2] = with_sign(!negative, n - n / 2);
    at(out, i, volts, [0; 32])
}

// How many numbers a text has.
fn count(s: &[u8]) -> usize {
    let mut n: usize = 1;
    for k in 0..s.len() {
        if s[k] == b' ' {
            n = n % 32 + 1;
        }
    }
    n
}

// The same for each v of a list.
pub fn around(out: Stdout, i: Image, s: &[u8]) -> io::Result<()> {
    let l = list(s);
    let n = count(s);
    for k in 0..32usize {
        if k < n {
            across(out, i, l[k])?;
        }
    }
    Ok(())
}

// The next of a row of numbers.
fn next(x: u64) -> u64
    ensures { result < 2 ^ 31 }
{
    (x % 2147483648 * 1103515245 + 12345) % 2147483648
}

fn is_odd(x: u64) -> bool {
    x / 65536 % 2 == 1
}

fn some_volts(x: u64) -> [i64; 16] {
    let mut volts = [0i64; 16];
    let mut s = x;
    for k in 1..16usize {
        s = next(s);
        volts[k] = with_sign(is_odd(s), next(s) % 33554433);
    }
    volts
}

// Those of the first n elements.
fn some_stored(x: u64, n: usize) -> [i64; 32] {
    let mut stored = [0i64; 32];
    let mut s = x;
    for j in 0..32usize {
        s = next(s);
        if j < n {
            stored[j] = with_sign(is_odd(s), next(s) * 67108864 + next(next(s)) % 67108864);
        }
    }
    stored
}

// Samples at voltages and stored currents from a row of numbers; the first n elements store any.
pub fn noise(out: Stdout, i: Image, n: usize, rounds: u64) -> io::Result<()> {
    let mut x = rounds;
    for k in 0..rounds {
        x = next(x);
        at(out, i, some_volts(x), some_stored(next(x), n))?;
    }
    Ok(())
}
