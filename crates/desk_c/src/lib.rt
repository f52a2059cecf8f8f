// A netlist's text to its image, for a tool on a licensee's desk that is written in C: include/krtovalin_image.h says how to call it.
// The archive of this crate is what is shipped, and all that it does is desk's.
#![tactic(auto)]

ghost use Rattle.image.specs.Parts.{version2};
ghost use Rattle.desk.specs.Drawn.{Drawn};

// The image in the version that is asked for, which may be any number, by its name in C.
#[unsafe(no_mangle)]
pub extern "C" fn krtovalin_image_version(version: u32, text: &[u8], image: &mut [u8]) -> u64
    ensures { Drawn version text.now image.old result image.new }
{
    desk::krtovalin_image_version(version, text, image)
}

// The image in version 2, for a tool that asks for none, by its name in C.
#[unsafe(no_mangle)]
pub extern "C" fn krtovalin_image(text: &[u8], image: &mut [u8]) -> u64
    ensures { Drawn version2 text.now image.old result image.new }
{
    desk::krtovalin_image(text, image)
}
