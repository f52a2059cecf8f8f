// Writes images of any parts into any buffer: the arguments name files of raw records. For each record
// the number and the length are written as eight bytes each, and then the buffer as it is after the call.
// bench/writing holds them against the second program's; the file `stdout` has the second program's for
// the limits.
#![tactic(auto)]

mod record;

ghost use Rattle.std.specs.Prelude.{◌≡◌, ◌≤◌, length};

use std::io;
use std::io::Read;
use std::rt::Files;
use units::bytes;
use writing::Refusal;

// A proved loop has to end. No file has so many records.
const ENOUGH: u64 = 4611686018427387904;

// What a buffer holds before the call: each byte is unlike its neighbours, so that one that is lost or
// moved is seen.
fn unwritten() -> [u8; record::LONG]
    ensures { 2048 ≡ length result }
{
    let mut buffer = [0; record::LONG];
    for i in 0..record::LONG {
        buffer[i] = ((7 * i + 165) % 256) as u8;
    }
    buffer
}

fn write_number(out: &impl Print, n: u64) -> io::Result<()> {
    let mut eight = [0u8; 8];
    bytes::put_unsigned::<8>(&mut eight, 0, n);
    out.write_all(&eight)
}

// Writes the image of a record's parts, in the version that is given, if one is.
fn write(raw: &[u8], buffer: &mut [u8]) -> Result<usize, Refusal>
    requires { 1334 ≤ length raw.now }
{
    let parts = record::parts(raw);
    match record::version(raw) {
        Some(version) => writing::write_version(version, parts, buffer),
        None => writing::write(parts, buffer),
    }
}

// Writes the image of a record's parts, and then the answer.
fn answer(out: &impl Print, raw: &[u8]) -> io::Result<()>
    requires { 1334 ≤ length raw.now }
{
    let n = record::room(raw);
    let mut buffer = unwritten();
    let (number, length) = match write(raw, &mut buffer[..n]) {
        Ok(length) => (0, length),
        Err(refusal) => (refusal.number(), 0),
    };
    write_number(out, number)?;
    write_number(out, length as u64)?;
    out.write_all(&buffer[..n])
}

// Record after record, up to one that is not whole.
fn answers(out: &impl Print, records: &mut impl Read) -> io::Result<()> {
    for _ in 0..ENOUGH {
        let mut raw = [0u8; record::SIZE];
        if outside::fill(records, &mut raw) < record::SIZE {
            break;
        }
        answer(out, &raw)?;
    }
    Ok(())
}

// The answers to the file of this name. One that can't be read counts as empty.
fn answer_file(rt: &(impl Files + Print), name: &[u8]) -> io::Result<()> {
    match outside::open(rt, name) {
        Some(mut file) => answers(rt, &mut file),
        None => Ok(()),
    }
}

fn main(rt: HostRuntime) -> io::Result<()> {
    outside::for_each_argument(&rt, |name| answer_file(&rt, name))
}
