// Netlists from the schematic tool: of each two arguments the first names a text, the second the file
// for its image; where a text may be named, a minus and a number ask for a version of the images from
// there on, which is 2 otherwise. Writes the parts that each text is, for a person to check, or
// `refused R` with the line that is at fault; and the image of a text that is not refused, unless its
// file is `-` or not named. No contract can say what is read or written, so this file and file.rt are
// there to be read: what the lines are is promised by the crate report and by `refusal::put`, which
// version is asked for by `asked::version`, and what the image is by the crate writing.
#![tactic(auto)]

mod asked;
mod file;
mod refusal;

ghost use Rattle.std.specs.Prelude.{◌≡◌, ◌≤◌, length, take, IfOk};
ghost use Rattle.units.specs.declared.number.Number.TheVariants.{Done};
ghost use Rattle.io.specs.Counts.{IsPrefixLen};
ghost use Rattle.image.specs.Format.{longest};
ghost use Rattle.image.specs.Judged.{judged};
ghost use Rattle.image.specs.Sound.{Sound};
ghost use Rattle.writing.specs.Image.{image_of};

use image::Parts;
use netlist::Refusal;
use std::io;
use std::io::Stderr;
use std::rt::{Env, Files};
use units::number::Number;

// A proved loop has to end. No program is given so many arguments.
const ENOUGH: usize = 4611686018427387904;

// The curves, two lines each.
fn write_curves(out: &impl Print, parts: Parts) -> io::Result<()>
    requires { Sound parts }
{
    let curves = parts.curves;
    for curve in &curves[..parts.curve_count as usize] {
        let mut text = outside::buffer();
        let end = report::put_curve(&mut text, *curve);
        out.write_all(&text[..end])?;
    }
    Ok(())
}

// All that the parts are: counts and elements, curves, and how far each free node's voltage can be
// trusted.
fn write_parts(out: &impl Print, parts: Parts) -> io::Result<()>
    requires { judged parts ≡ Done }
{
    let mut text = outside::buffer();
    let listed = report::put_parts(&mut text, parts);
    out.write_all(&text[..listed])?;
    write_curves(out, parts)?;
    let bounded = report::put_bounds(&mut text, parts);
    out.write_all(&text[..bounded])
}

// Why there are none.
fn write_refusal(out: &impl Print, refusal: Refusal) -> io::Result<()> {
    let mut text = outside::buffer();
    let end = refusal::put(&mut text, refusal);
    out.write_all(&text[..end])
}

// The image at the start of a buffer that has room for the longest, and how long it is.
fn put_image(buffer: &mut [u8], parts: Parts) -> usize
    requires { (judged parts ≡ Done) × (longest ≤ length buffer.old) }
    ensures { IsPrefixLen result buffer.new × (take result buffer.new ≡ image_of parts) }
{
    // parts that break no rule have an image, and none is longer than the longest
    writing::write_version(parts.version, parts, buffer).unwrap()
}

// The image into the file that argument i names, if one is wanted.
fn write_image(rt: &(impl Files + Env), err: Stderr, parts: Parts, i: usize)
    requires { judged parts ≡ Done }
{
    let mut name = outside::buffer();
    match outside::argument(rt, i, &mut name) {
        Some(named) => {
            if named == 0 {
                let _ = err.println("the name of an image is empty or too long");
                return;
            }
            if named == 1 && name[0] == b'-' {
                return;
            }
            let mut image = outside::buffer();
            let end = put_image(&mut image, parts);
            file::replace(rt, err, &name[..named], &image[..end]);
        }
        None => {}
    }
}

// The parts of a text in a version, which is judged with them: what the reader lets pass may be refused in
// that version.
fn parts_in(version: u8, text: &[u8]) -> Result<Parts, Refusal>
    ensures { IfOk result (λ parts. judged parts ≡ Done) }
{
    let parts = image::in_version(version, netlist::read(text)?);
    match image::judge(parts) {
        Number::Done => Ok(parts),
        number => Err(Refusal::Rules(number)),
    }
}

// The report on a text in a version, and its image into the file that argument i names.
fn report_text(
    rt: &(impl Files + Env + Print),
    err: Stderr,
    version: u8,
    bytes: &[u8],
    i: usize,
) -> io::Result<()> {
    match parts_in(version, bytes) {
        Ok(parts) => {
            // a report that can't be written takes no image away
            let told = write_parts(rt, parts);
            write_image(rt, err, parts, i);
            told
        }
        Err(refusal) => write_refusal(rt, refusal),
    }
}

// The report on the text of this name, whose image goes into the file that argument i names.
fn report_on(
    rt: &(impl Files + Env + Print),
    err: Stderr,
    version: u8,
    name: &[u8],
    i: usize,
) -> io::Result<()> {
    // longer than any text that is read
    let mut bytes = outside::large_buffer();
    let text = outside::read_into(rt, name, &mut bytes);
    report_text(rt, err, version, text, i)
}

fn main(rt: HostRuntime) -> io::Result<()> {
    let err = rt.stderr();
    // the first error, once all arguments have been gone through
    let mut outcome = Ok(());
    let mut version = image::VERSION_2;
    let mut i: usize = 1;
    while i < ENOUGH {
        let mut name = outside::buffer();
        let Some(named) = outside::argument(&rt, i, &mut name) else {
            break;
        };
        i += 1;
        match asked::version(&name[..named]) {
            Some(other) => version = other,
            None => {
                let told = report_on(&rt, err, version, &name[..named], i);
                outcome = outcome.and(told);
                // the image's argument, if there is one
                i += 1;
            }
        }
    }
    outcome
}
