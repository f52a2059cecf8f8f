// Numbers read from text: any bytes are a number below 2^63 in size, one that is larger, or none.
ghost use Rattle.std.specs.Prelude.{◌≡◌, true, ◌^◌, ◌<◌, min, length};
ghost use Rattle.units.specs.Float.{signed};
ghost use Rattle.console.specs.Number.{all_digits, worth, worth_at, plain, spelt};

use super::words;
use super::words::Run;

// Why a text spells no number that is read: it is none, or one that is 2^63 or more in size.
#[derive(Clone, Copy)]
pub enum NumberError {
    NoNumber,
    Beyond,
}

// A number of this size or more is beyond.
const BEYOND: u64 = 9223372036854775808;

// Ten times a number above this is beyond.
const TENTH: u64 = 922337203685477580;

fn all_digits(text: &[u8]) -> bool
    ensures { result ≡ all_digits text.now }
{
    text.iter().all(u8::is_ascii_digit)
}

// What digits are worth, or what is beyond.
pub fn worth(digits: &[u8]) -> u64
    requires { all_digits digits.now ≡ true }
    ensures { result ≡ min (worth digits.now (length digits.now)) (2 ^ 63) }
{
    let mut n: u64 = 0;
    for digit in digits {
        // further digits only make it larger
        if TENTH < n {
            return BEYOND;
        }
        n = 10 * n + u64::from(*digit - b'0');
    }
    n.min(BEYOND)
}

// What the digits from a place of a text on are worth, or what is beyond; 0 where there are none.
pub fn worth_at(text: &[u8], at: usize) -> u64
    ensures { result ≡ min (worth_at text.now at) (2 ^ 63) }
{
    worth(words::first(Run::Digits, text.get(at..).unwrap_or(&[])))
}

// A number of this size, below zero or not.
pub fn value(negative: bool, size: u64) -> i64
    requires { size < 2 ^ 63 }
    ensures { result ≡ signed negative size }
{
    let value = size as i64;
    if negative { -value } else { value }
}

// What digits spell, where a minus stands before them or none.
fn plain(negative: bool, digits: &[u8]) -> Result<i64, NumberError>
    ensures { result ≡ plain negative digits.now }
{
    if digits.is_empty() || !all_digits(digits) {
        return Err(NumberError::NoNumber);
    }
    let size = worth(digits);
    if BEYOND <= size {
        return Err(NumberError::Beyond);
    }
    Ok(value(negative, size))
}

// What a text spells.
pub fn number(text: &[u8]) -> Result<i64, NumberError>
    ensures { result ≡ spelt text.now }
{
    match text.strip_prefix(b"-") {
        Some(digits) => plain(true, digits),
        None => plain(false, text),
    }
}
