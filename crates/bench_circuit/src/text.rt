// Images and lists of numbers from text.
ghost use Rattle.std.specs.Prelude.{◌≤◌};

// The first half of the digits, in bytes.
#[derive(Clone, Copy)]
pub struct Image {
    pub bytes: [u8; 1400],
    pub digits: usize,
}

fn digit(c: u8) -> u8
    ensures { result ≤ 15 }
{
    if b'0' <= c {
        if c <= b'9' {
            return c - b'0';
        }
    }
    if b'A' <= c {
        if c <= b'F' {
            return c - b'A' + 10;
        }
    }
    0
}

// The lower digit of a byte.
fn joined(byte: u8, d: u8) -> u8
    requires { d ≤ 15 }
{
    byte / 16 * 16 + d
}

// With one digit more; a space is none.
fn with_digit(i: Image, c: u8) -> Image {
    let mut bytes = i.bytes;
    let n = i.digits;
    let at = n / 2;
    if c != b' ' {
        if at < 1400 {
            if n % 2 == 0 {
                bytes[at] = 16 * digit(c);
            } else {
                bytes[at] = joined(bytes[at], digit(c));
            }
            return Image {
                bytes,
                digits: n + 1,
            };
        }
    }
    i
}

// Bytes written with two digits each.
pub fn hex(s: &[u8]) -> Image {
    let mut i = Image {
        bytes: [0; 1400],
        digits: 0,
    };
    for k in 0..s.len() {
        i = with_digit(i, s[k]);
    }
    i
}

// Numbers with spaces between them: those that are read, which one is being read, and its digits so
// far.
#[derive(Clone, Copy)]
struct Partial {
    values: [i64; 32],
    at: usize,
    negative: bool,
    size: u64,
}

pub fn with_sign(negative: bool, size: u64) -> i64 {
    if size < 1000000000000000000 {
        if negative {
            return -(size as i64);
        }
        return size as i64;
    }
    0
}

fn with_character(l: Partial, c: u8) -> Partial {
    let mut values = l.values;
    let at = l.at;
    if c == b' ' {
        return Partial {
            values,
            at: at % 32 + 1,
            negative: false,
            size: 0,
        };
    }
    if c == b'-' {
        return Partial {
            values,
            at,
            negative: true,
            size: 0,
        };
    }
    let size = l.size % 100000000000000000 * 10 + digit(c) as u64;
    if at < 32 {
        values[at] = with_sign(l.negative, size);
    }
    Partial {
        values,
        at,
        negative: l.negative,
        size,
    }
}

// Up to 32 numbers, and zeros after them.
pub fn list(s: &[u8]) -> [i64; 32] {
    let mut l = Partial {
        values: [0; 32],
        at: 0,
        negative: false,
        size: 0,
    };
    for k in 0..s.len() {
        l = with_character(l, s[k]);
    }
    l.values
}
