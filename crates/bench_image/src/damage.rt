// Thousands of damaged images, and bytes that never were one: how often each number is given, and a
// checksum of all numbers in turn.
use super::build::Image;
use super::{build, show};
use std::io;
use std::io::Stdout;
use std::num::wrapping_add_u64;

// The next of a row of numbers below 2^31.
fn next(x: u64) -> u64 {
    (x % 2147483648 * 1103515245 + 12345) % 2147483648
}

// A byte in place of another: any, one more, one less, or zero.
fn changed(old: u8, x: u64) -> u8 {
    let way = x / 8192 % 4;
    if way == 0 {
        return (x / 65536 % 256) as u8;
    }
    if way == 1 {
        return ((old as u64 + 1) % 256) as u8;
    }
    if way == 2 {
        return ((old as u64 + 255) % 256) as u8;
    }
    0
}

// One byte changed.
fn hurt(i: Image, x: u64) -> Image {
    let n = i.n;
    if n == 0 {
        return i;
    }
    let at = (x / 8192) as usize % n;
    if at < 1400 {
        let bytes = i.bytes;
        return build::byte(i, at, changed(bytes[at], next(x)));
    }
    i
}

// One or two bytes changed.
fn damaged(i: Image, x: u64) -> Image {
    let once = hurt(i, x);
    if x / 4096 % 2 == 0 {
        return once;
    }
    hurt(once, next(next(x)))
}

// Any bytes, up to 99 of them.
fn noise(x: u64) -> Image {
    let mut bytes = [0; 1400];
    let n = (x / 8192 % 100) as usize;
    let mut row = x;
    for k in 0..n {
        row = next(row);
        bytes[k] = (row / 8192 % 256) as u8;
    }
    Image { bytes, n }
}

fn checksum(sum: u64, number: u64) -> u64 {
    (sum % 1000000007 * 7 + number % 8) % 1000000007
}

fn later(x: u64) -> u64 {
    next(next(next(next(x))))
}

fn write(out: Stdout, count: &[u64], sum: u64) -> io::Result<()> {
    show::row(out, count)?;
    println!(out; " sum {sum}")
}

// A damaged copy of a good image, or noise.
fn tried(i: Image, any: bool, x: u64) -> Image {
    if any {
        return noise(x);
    }
    damaged(i, x)
}

// `times` of them.
pub fn tries(out: Stdout, label: &str, i: Image, any: bool, times: usize) -> io::Result<()> {
    print!(out; "{label}")?;
    let mut count = [0; 8];
    let mut sum: u64 = 0;
    let mut row: u64 = 1;
    for k in 0..times {
        let n = show::number(tried(i, any, row));
        let at = (n % 8) as usize;
        count[at] = wrapping_add_u64(count[at], 1);
        sum = checksum(sum, n);
        row = later(row);
    }
    write(out, &count, sum)
}
