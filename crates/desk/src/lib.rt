// A netlist's text to its image in one call, for a tool on a licensee's desk that is written in C, which
// calls it by the crate desk_c: include/krtovalin_image.h says how. Takes any text, any version and any
// buffer, and a refusal writes nothing.
#![tactic(auto)]

ghost use Rattle.std.specs.Prelude.{◌≡◌, ◌+◌, ◌*◌, ◌<◌};
ghost use Rattle.image.specs.Parts.{version2};
ghost use Rattle.desk.specs.Drawn.{number_unit, Drawn};

// One of an answer's number. Its count is below that.
const NUMBER: u64 = 4294967296;

// A number and a count in one answer.
fn packed(number: u64, count: u64) -> u64
    requires { (number < 256) × (count < number_unit) }
    ensures { result ≡ number * number_unit + count }
{
    number * NUMBER + count
}

// The image of a netlist in a version, written at the start of a buffer.
fn draw(version: u8, text: &[u8], image: &mut [u8]) -> u64
    ensures { Drawn version text.now image.old result image.new }
{
    match netlist::read(text) {
        Ok(parts) => match writing::write_version(version, parts, image) {
            Ok(length) => packed(0, length as u64),
            Err(refusal) => packed(refusal.number(), 0),
        },
        Err(refusal) => packed(refusal.number(), refusal.line() as u64),
    }
}

// Writes the image of a netlist in the version that is asked for, which may be any number.
pub fn krtovalin_image_version(version: u32, text: &[u8], image: &mut [u8]) -> u64
    ensures { Drawn version text.now image.old result image.new }
{
    draw(netlist::narrow(version), text, image)
}

// Writes the image of a netlist in version 2, for a tool that asks for none.
pub fn krtovalin_image(text: &[u8], image: &mut [u8]) -> u64
    ensures { Drawn version2 text.now image.old result image.new }
{
    draw(image::VERSION_2, text, image)
}
