// Changes to a good image, each at or just beyond a limit, as a table.
ghost use Rattle.std.specs.Prelude.{◌<◌};

use super::build::Image;
use super::{build, show};
use std::io;
use std::io::Stdout;

// How many there are.
const COUNT: usize = 324;

// Three numbers to each: what is done, where, and the value.
//   0  on a new line, a good image: 0 is the example, 1 is mixed, 2 is the largest
//   1  the number of the image with that byte there, 2 with those four bytes
//   3  from here on the image has that byte there, 4 those four bytes
const CASES: [u64; 972] = [
    // counts of elements 0 1 2 3 32 33 255
    0, 0, 0, 1, 20, 0, 1, 20, 1, 1, 20, 2, 1, 20, 3, 1, 20, 32, 1, 20, 33, 1, 20, 255,
    // counts of curves 0 1 8 9 255
    0, 0, 0, 1, 21, 0, 1, 21, 1, 1, 21, 8, 1, 21, 9, 1, 21, 255,
    // nodes 0 1 2 15 16 255
    0, 0, 0, 1, 22, 0, 1, 22, 1, 1, 22, 2, 1, 22, 15, 1, 22, 16, 1, 22, 255,
    // driven 0 1 2 3 255
    0, 0, 0, 1, 23, 0, 1, 23, 1, 1, 23, 2, 1, 23, 3, 1, 23, 255,
    // output 0 1 2 3 255
    0, 0, 0, 1, 28, 0, 1, 28, 1, 1, 28, 2, 1, 28, 3, 1, 28, 255,
    // version 0 1 2 3 255
    0, 0, 0, 1, 29, 0, 1, 29, 1, 1, 29, 2, 1, 29, 3, 1, 29, 255,
    // in version 2: last number 16 20, kinds 5 6
    0, 0, 0, 3, 29, 2, 1, 30, 16, 1, 30, 20, 1, 0, 5, 1, 0, 6,
    // last number 15 16 17 20, and 272
    0, 0, 0, 1, 30, 15, 1, 30, 16, 1, 30, 17, 1, 30, 20, 1, 31, 1,
    // rates 0 7999 8000 192000 192001
    0, 0, 0, 2, 24, 0, 2, 24, 7999, 2, 24, 8000, 2, 24, 192000, 2, 24, 192001, 2, 24, 4294967295,
    // element distance 15 16 17, and 272
    0, 0, 0, 1, 16, 15, 1, 16, 16, 1, 16, 17, 1, 17, 1,
    // curve distance 0 1, and 256
    0, 0, 0, 1, 18, 0, 1, 18, 1, 1, 19, 1,
    // distances of mixed
    0, 0, 1, 1, 72, 71, 1, 72, 73, 1, 73, 1, 1, 74, 39, 1, 74, 41, 1, 74, 0, 1, 75, 1,
    // curve counts of mixed 1 2 3
    0, 0, 1, 1, 77, 1, 1, 77, 2, 1, 77, 3,
    // first m 0 1 2 3 4 16 17 255
    0, 0, 1, 1, 32, 0, 1, 32, 1, 1, 32, 2, 1, 32, 3, 1, 32, 4, 1, 32, 16, 1, 32, 17, 1, 32, 255,
    // second m 0 1 2 3 16 17
    0, 0, 1, 1, 48, 0, 1, 48, 1, 1, 48, 2, 1, 48, 3, 1, 48, 16, 1, 48, 17,
    // sizes of the largest
    0, 0, 2, 1, 256, 15, 1, 256, 16, 1, 256, 17, 1, 256, 0, 1, 1208, 15, 1, 1208, 17, 1, 1208, 0,
    // padding
    0, 0, 1, 1, 33, 1, 1, 33, 255, 1, 34, 1, 1, 34, 255, 1, 35, 1, 1, 35, 255, 1, 49, 1, 1, 49,
    255, 1, 50, 1, 1, 50, 255, 1, 51, 1, 1, 51, 255,
    // padding of the largest
    0, 0, 2, 1, 257, 1, 1, 394, 1, 1, 531, 1, 1, 665, 1, 1, 802, 1, 1, 939, 1, 1, 1073, 1, 1, 1210,
    1,
    // slope 0
    0, 0, 1, 2, 36, 0, 2, 36, 1, 2, 36, 1073741823, 2, 36, 1073741824, 2, 36, 1073741825, 2, 36,
    4294967295,
    // slope 1
    0, 0, 1, 2, 40, 0, 2, 40, 1, 2, 40, 1073741823, 2, 40, 1073741824, 2, 40, 1073741825, 2, 40,
    4294967295,
    // slope 2
    0, 0, 1, 2, 52, 0, 2, 52, 1, 2, 52, 1073741823, 2, 52, 1073741824, 2, 52, 1073741825, 2, 52,
    4294967295,
    // slope 3
    0, 0, 1, 2, 56, 0, 2, 56, 1, 2, 56, 1073741823, 2, 56, 1073741824, 2, 56, 1073741825, 2, 56,
    4294967295,
    // slope 4
    0, 0, 1, 2, 60, 0, 2, 60, 1, 2, 60, 1073741823, 2, 60, 1073741824, 2, 60, 1073741825, 2, 60,
    4294967295,
    // breakpoint of the first
    0, 0, 1, 2, 44, 0, 2, 44, 67108864, 2, 44, 67108865, 2, 44, 4227858432, 2, 44, 4227858431, 2,
    44, 2147483648,
    // lower breakpoint
    0, 0, 1, 2, 64, 4227858432, 2, 64, 4227858431, 2, 64, 0, 2, 64, 67108863, 2, 64, 67108864, 2,
    64, 67108865,
    // upper breakpoint
    0, 0, 1, 2, 68, 67108864, 2, 68, 67108865, 2, 68, 0, 2, 68, 4227858433, 2, 68, 4227858432, 2,
    68, 4294967295,
    // breakpoints of the largest that rise, are equal, fall
    0, 0, 2, 2, 1336, 5008, 2, 1336, 5007, 2, 1336, 5006, 2, 1336, 6006, 2, 1336, 6007, 2, 1336,
    7007, 2, 1336, 7008,
    // kinds 0 1 2 3 4 5 255
    0, 0, 1, 1, 0, 0, 1, 0, 1, 1, 0, 2, 1, 0, 3, 1, 0, 4, 1, 0, 5, 1, 0, 255,
    // nodes p 0 1 2 3 4
    0, 0, 1, 1, 1, 0, 1, 1, 1, 1, 1, 2, 1, 1, 3, 1, 1, 4, 1, 1, 255,
    // nodes q 0 1 2 3 4
    0, 0, 1, 1, 2, 0, 1, 2, 1, 1, 2, 2, 1, 2, 3, 1, 2, 4, 1, 2, 255,
    // curve of a resistor, a capacitor, an inductor
    0, 0, 1, 1, 3, 0, 1, 3, 1, 1, 11, 1, 1, 19, 1,
    // curve of a diode 0 1 2 255
    0, 0, 1, 1, 27, 0, 1, 27, 1, 1, 27, 2, 1, 27, 255,
    // value of a diode 0 1 256, 2^16, 2^24
    0, 0, 1, 1, 28, 0, 1, 28, 1, 1, 29, 1, 1, 30, 1, 1, 31, 1,
    // the last element of the largest
    0, 0, 2, 1, 248, 0, 1, 248, 5, 1, 249, 16, 1, 250, 16, 1, 250, 0, 1, 251, 8, 1, 251, 7, 1, 252,
    1,
    // value of a resistor
    0, 0, 1, 2, 4, 0, 2, 4, 1, 2, 4, 2, 2, 4, 2000000000, 2, 4, 2000000001, 2, 4, 4294967295,
    // value of a capacitor
    0, 0, 1, 2, 12, 0, 2, 12, 1, 2, 12, 11184810, 2, 12, 11184811, 2, 12, 4294967295,
    // value of an inductor
    0, 0, 1, 2, 20, 0, 2, 20, 1, 2, 20, 9, 2, 20, 10, 2, 20, 1000000000, 2, 20, 4294967295,
    // inductor at 192,000 Hz
    0, 0, 1, 4, 80, 192000, 2, 20, 2, 2, 20, 3, 2, 20, 2604166666, 2, 20, 2604166667, 2, 20,
    4294967295,
    // capacitor at 8,000 Hz
    0, 0, 1, 4, 80, 8000, 2, 12, 0, 2, 12, 1, 2, 12, 67108864, 2, 12, 67108865,
    // capacitor at 71,111 Hz: 2^30 - 141.7, 2^30 + 0.498, 2^30 + 142.7
    0, 0, 1, 4, 80, 71111, 2, 12, 7549758, 2, 12, 7549759, 2, 12, 7549760,
    // capacitor at 12,436 Hz: 2^30 - 24.4, 2^30 + 0.504
    0, 0, 1, 4, 80, 12436, 2, 12, 43170706, 2, 12, 43170707,
    // inductor at 66,523 Hz: 2^30 + 662, the nearest above the limit
    0, 0, 1, 4, 80, 66523, 2, 20, 7,
    // inductor at 14,111 Hz: 2^30 - 3,949, the nearest below
    0, 0, 1, 4, 80, 14111, 2, 20, 33,
    // 2 before 3, 4, 5
    0, 0, 1, 3, 76, 0, 1, 72, 0, 1, 33, 1, 1, 0, 0,
    // 2 before 6
    0, 0, 1, 3, 85, 3, 2, 4, 2000000001,
    // 3 before 4, 5
    0, 0, 1, 3, 72, 71, 1, 33, 1, 1, 0, 0, 1, 1, 9,
    // 3 before 6
    0, 0, 1, 3, 74, 41, 2, 4, 2000000001,
    // 4 before 5
    0, 0, 1, 3, 51, 1, 1, 0, 0, 1, 24, 5, 1, 2, 1,
    // 4 before 6
    0, 0, 1, 3, 51, 1, 2, 4, 2000000001,
    // 5 before 6
    0, 0, 1, 4, 4, 2000000001, 1, 24, 5, 1, 25, 0, 1, 27, 2, 1, 28, 1, 1, 8, 4,
    // 3 before 2 never
    0, 0, 1, 3, 32, 0, 1, 76, 0, 1, 77, 9, 1, 78, 0, 1, 79, 4, 1, 84, 0, 1, 85, 0, 1, 86, 15,
];

fn good(out: Stdout, which: u64) -> io::Result<Image> {
    if which == 0 {
        print!(out; "example:")?;
        return Ok(build::example());
    }
    if which == 1 {
        print!(out; "mixed:")?;
        return Ok(build::mixed());
    }
    print!(out; "largest:")?;
    Ok(build::largest())
}

// The image with one byte or four at a place.
fn changed(i: Image, wide: bool, at: u64, v: u64) -> Image {
    if wide {
        return build::word(i, at as usize, v);
    }
    build::byte(i, at as usize, build::low(v))
}

fn change(out: Stdout, at: u64, v: u64) -> io::Result<()> {
    print!(out; " {at}={v}:")
}

// One case: the image for the next ones.
fn case(out: Stdout, i: Image, what: u64, at: u64, v: u64) -> io::Result<Image> {
    if what == 0 {
        print!(out; "\n")?;
        return good(out, v);
    }
    if what < 3 {
        change(out, at, v)?;
        print!(out; "{}", show::number(changed(i, what == 2, at, v)))?;
        return Ok(i);
    }
    print!(out; " with")?;
    change(out, at, v)?;
    Ok(changed(i, what == 4, at, v))
}

fn entry(k: usize) -> u64
    requires { k < 972 }
{
    CASES[k]
}

pub fn run(out: Stdout) -> io::Result<()> {
    let mut i = build::example();
    for k in 0..COUNT {
        i = case(out, i, entry(3 * k), entry(3 * k + 1), entry(3 * k + 2))?;
    }
    print!(out; "\n")
}
