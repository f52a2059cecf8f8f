// Document 01's bench cases one by one, two of them in version 2 too, and samples that are refused by each
// of its numbers 9, 10 and 11.
use crate::play;
use std::io;
use std::io::Stdout;

// Document 01's whole example.
fn divider(out: Stdout, d: i64) -> io::Result<()> {
    play::case(
        out,
        "divider",
        b"\x01\x01\x02\x00\xe8\x03\x00\x00\x01\x02\x00\x00\xe8\x03\x00\x00\x10\x00\x00\x00\x02\x00\x02\x01\x80\xbb\x00\x00\x02\x01\x10\x00",
        0,
        0,
        d,
    )
}

// 1000 ohm and 10,000 pF, with x stored.
fn capacitor(out: Stdout, x: i64, d: i64) -> io::Result<()> {
    play::case(
        out,
        "capacitor",
        b"\x01\x01\x02\x00\xe8\x03\x00\x00\x02\x02\x00\x00\x10\x27\x00\x00\x10\x00\x00\x00\x02\x00\x02\x01\x80\xbb\x00\x00\x02\x01\x10\x00",
        1,
        x,
        d,
    )
}

// 1000 ohm and a diode of one breakpoint.
fn diode(out: Stdout, d: i64) -> io::Result<()> {
    play::case(
        out,
        "diode",
        b"\x01\x01\x02\x00\xe8\x03\x00\x00\x04\x02\x00\x00\x00\x00\x00\x00\x01\x00\x00\x00\x00\x00\x00\x00\x80\x96\x98\x00\xc0\x27\x09\x00\x20\x00\x10\x00\x02\x01\x02\x01\x80\xbb\x00\x00\x02\x01\x10\x00",
        0,
        0,
        d,
    )
}

// 10,000 pF alone on a free node.
fn alone(out: Stdout, x: i64) -> io::Result<()> {
    play::case(
        out,
        "alone",
        b"\x02\x01\x00\x00\x10\x27\x00\x00\x08\x00\x00\x00\x01\x00\x01\x00\x80\xbb\x00\x00\x01\x01\x10\x00",
        0,
        x,
        0,
    )
}

// The example and the capacitor in version 2, whose leak moves the answer and the rail.
fn stiffer_divider(out: Stdout, d: i64) -> io::Result<()> {
    play::case(
        out,
        "stiffer_divider",
        b"\x01\x01\x02\x00\xe8\x03\x00\x00\x01\x02\x00\x00\xe8\x03\x00\x00\x10\x00\x00\x00\x02\x00\x02\x01\x80\xbb\x00\x00\x02\x02\x10\x00",
        0,
        0,
        d,
    )
}

fn stiffer_alone(out: Stdout, x: i64) -> io::Result<()> {
    play::case(
        out,
        "stiffer_alone",
        b"\x02\x01\x00\x00\x10\x27\x00\x00\x08\x00\x00\x00\x01\x00\x01\x00\x80\xbb\x00\x00\x01\x02\x10\x00",
        0,
        x,
        0,
    )
}

// Two capacitors on the drive, the second of the greatest conductance and with x stored: where the second
// goes beyond its limit, the first must keep what it has.
fn two_capacitors(out: Stdout, x: i64, d: i64) -> io::Result<()> {
    play::case(
        out,
        "two_capacitors",
        b"\x02\x01\x00\x00\x10\x27\x00\x00\x02\x01\x00\x00\x00\x00\x00\x04\x01\x01\x02\x00\xe8\x03\x00\x00\x01\x02\x00\x00\xe8\x03\x00\x00\x20\x00\x00\x00\x04\x00\x02\x01\x40\x1f\x00\x00\x02\x01\x10\x00",
        1,
        x,
        d,
    )
}

// A capacitor with x stored on a free node, which ten resistors of 1 ohm hold near the drive.
fn held(out: Stdout, x: i64, d: i64) -> io::Result<()> {
    play::case(
        out,
        "held",
        b"\x02\x02\x00\x00\x10\x27\x00\x00\x01\x01\x02\x00\x01\x00\x00\x00\x01\x01\x02\x00\x01\x00\x00\x00\x01\x01\x02\x00\x01\x00\x00\x00\x01\x01\x02\x00\x01\x00\x00\x00\x01\x01\x02\x00\x01\x00\x00\x00\x01\x01\x02\x00\x01\x00\x00\x00\x01\x01\x02\x00\x01\x00\x00\x00\x01\x01\x02\x00\x01\x00\x00\x00\x01\x01\x02\x00\x01\x00\x00\x00\x01\x01\x02\x00\x01\x00\x00\x00\x58\x00\x00\x00\x0b\x00\x02\x01\x80\xbb\x00\x00\x02\x01\x10\x00",
        0,
        x,
        d,
    )
}

// An inductor on the drive, which takes the other sign.
fn inductor(out: Stdout, x: i64, d: i64) -> io::Result<()> {
    play::case(
        out,
        "inductor",
        b"\x03\x01\x00\x00\x0a\x00\x00\x00\x01\x01\x02\x00\xe8\x03\x00\x00\x01\x02\x00\x00\xe8\x03\x00\x00\x18\x00\x00\x00\x03\x00\x02\x01\x80\xbb\x00\x00\x02\x01\x10\x00",
        0,
        x,
        d,
    )
}

pub fn cases(out: Stdout) -> io::Result<()> {
    divider(out, 0)?;
    divider(out, 1)?;
    divider(out, -1)?;
    divider(out, 1000000)?;
    divider(out, -1000000)?;
    divider(out, 16777216)?;
    divider(out, 16777217)?;
    divider(out, -16777216)?;
    divider(out, -16777217)?;
    capacitor(out, 0, 1000000)?;
    capacitor(out, 979589760000, 1000000)?;
    diode(out, 1000000)?;
    diode(out, 500000)?;
    diode(out, -1000000)?;
    alone(out, 32212288274431)?;
    alone(out, 32212288274432)?;
    alone(out, -32212288274432)?;
    alone(out, -32212288274433)?;
    stiffer_divider(out, 1000000)?;
    stiffer_divider(out, -1000000)?;
    stiffer_alone(out, 32212590264319)?;
    stiffer_alone(out, 32212590264320)?;
    stiffer_alone(out, -32212590264320)?;
    stiffer_alone(out, -32212590264321)?;
    two_capacitors(out, -144115188075855872, 0)?;
    two_capacitors(out, -144115188075855872, 1)?;
    two_capacitors(out, 144115188075855872, 0)?;
    two_capacitors(out, 144115188075855872, -1)?;
    held(out, -144115188075855872, -1000000)?;
    held(out, -144115188075855872, 16777216)?;
    held(out, 144115188075855872, 1000000)?;
    held(out, 144115188075855872, -16777216)?;
    inductor(out, 144115188075855872, 1)?;
    inductor(out, 144115188075855872, -1)?;
    inductor(out, -144115188075855872, -1)?;
    inductor(out, -144115188075855872, 1)
}
