// What comes of an image, written out.
use super::build;
use super::build::Image;
use image::{Element, Parts};
use std::io;
use std::io::Stdout;
use std::num::wrapping_add_usize as plus;
use units::number::Number;

// Document 01's number of the first n bytes of s.
fn number_in(s: &[u8], n: usize) -> u64 {
    if s.len() < n {
        return 7;
    }
    match image::read(&s[..n]) {
        Ok(parts) => u64::from(judged(parts)),
        Err(number) => u64::from(number),
    }
}

// Rule 6's number, of an image that the reader opened and that breaks it.
fn judged(parts: Parts) -> Number {
    if image::conductances_fit(parts) {
        Number::Done
    } else {
        Number::Conductance
    }
}

// The array as a slice.
fn number_at(b: &[u8; 1400], n: usize) -> u64 {
    number_in(b, n)
}

// Document 01's number of an image.
pub fn number(i: Image) -> u64 {
    let bytes = i.bytes;
    number_at(&bytes, i.n)
}

// The number alone.
pub fn plain(out: Stdout, label: &str, i: Image) -> io::Result<()> {
    println!(out; "{label} {}", number(i))
}

// The numbers of an image that is cut to each length up to `most`.
pub fn cuts(out: Stdout, label: &str, i: Image, most: usize) -> io::Result<()> {
    print!(out; "{label}")?;
    for n in 0..most {
        print!(out; " {}", number(build::cut(i, n)))?;
    }
    plain(out, " and whole", i)
}

// The numbers of images with one curve of zeros that says that it has 0, 1, .., 18 breakpoints.
pub fn bares(out: Stdout, label: &str) -> io::Result<()> {
    print!(out; "{label}")?;
    for m in 0..19usize {
        print!(out; " {}", number(build::bare(m)))?;
    }
    print!(out; "\n")
}

// A row of numbers.
pub fn row(out: Stdout, v: &[u64]) -> io::Result<()> {
    for n in v {
        print!(out; " {n}")?;
    }
    Ok(())
}

fn element(out: Stdout, e: Element, rate: u32) -> io::Result<()> {
    let nanosiemens = image::conductance(e.kind, e.value, rate);
    println!(out;
        "element {} {} {} {nanosiemens} {}",
        e.kind, e.p, e.q, e.curve
    )
}

fn slopes(out: Stdout, s: &[u8], m: usize) -> io::Result<()> {
    print!(out; " slopes")?;
    for j in 0..m {
        if j < 100 {
            if 8 + 4 * j <= s.len() {
                print!(out; " {}", image::slope(s, j))?;
            }
        }
    }
    Ok(())
}

fn breakpoints(out: Stdout, s: &[u8], m: usize) -> io::Result<()> {
    print!(out; " breakpoints")?;
    for j in 0..m {
        breakpoint(out, s, j)?;
    }
    Ok(())
}

fn breakpoint(out: Stdout, s: &[u8], j: usize) -> io::Result<()> {
    if 1 <= s.len() {
        let m = image::breakpoint_count(s);
        if j < 100 {
            if 12 + 4 * m + 4 * j <= s.len() {
                print!(out; " {}", image::breakpoint(s, j))?;
            }
        }
    }
    Ok(())
}

// A curve, read from the part of the image that it is.
fn curve(out: Stdout, c: &[u8], at: usize) -> io::Result<()> {
    if 1 <= c.len() {
        let m = image::breakpoint_count(c);
        print!(out; "curve at {at} of {}", c.len())?;
        slopes(out, c, m + 1)?;
        breakpoints(out, c, m)?;
        print!(out; "\n")?;
    }
    Ok(())
}

fn head(out: Stdout, leak: u64, p: Parts) -> io::Result<()> {
    println!(out;
        " {leak} {} {} {} {}",
        p.nodes, p.driven, p.output, p.element_count
    )
}

// A refusal has no leak.
fn leak(number: Number, version: u8) -> u64 {
    if number == Number::Done {
        return image::leak(version);
    }
    0
}

// The parts of the first n bytes of s, with their curves.
fn parts(out: Stdout, s: &[u8], n: usize) -> io::Result<()> {
    if n <= s.len() {
        let t = &s[0..n];
        let (number, p) = match image::read(t) {
            Ok(p) => (Number::Done, p),
            Err(number) => (number, image::no_parts()),
        };
        head(out, leak(number, p.version), p)?;
        elements(out, p)?;
        curves(
            out,
            t,
            8 * (p.element_count as usize),
            p.curve_count as usize,
        )?;
    }
    Ok(())
}

// The array as a slice.
fn parts_at(out: Stdout, b: &[u8; 1400], n: usize) -> io::Result<()> {
    parts(out, b, n)
}

// The number, and the circuit.
pub fn circuit(out: Stdout, label: &str, i: Image) -> io::Result<()> {
    print!(out; "{label} {}:", number(i))?;
    let bytes = i.bytes;
    parts_at(out, &bytes, i.n)
}

fn elements(out: Stdout, p: Parts) -> io::Result<()> {
    let n = p.element_count as usize;
    let rate = p.rate;
    for j in 0..n {
        if j < 32 {
            element(out, p.elements[j], rate)?;
        }
    }
    Ok(())
}

// The curves lie one behind the other.
fn curves(out: Stdout, s: &[u8], first: usize, n: usize) -> io::Result<()> {
    let mut at = first;
    for k in 0..n {
        let c = image::curve_at(s, at);
        curve(out, c, at)?;
        at = plus(at, c.len());
    }
    Ok(())
}
