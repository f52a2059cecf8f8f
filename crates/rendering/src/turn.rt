// One turn of rendering: as many drives as a block takes are played, and become lines.
ghost use Rattle.std.specs.Prelude.{◌≡◌, ◌*◌, ◌≤◌, leb, length};
ghost use Rattle.units.specs.Number.{number_of};
ghost use Rattle.image.specs.Format.{opening_of};
ghost use Rattle.rendering.specs.Rendering.{block_samples, driven_of, sets_in, Told};

use crate::lines;
use block::State;
use units::number::Number;

// What came of a block: document 01's number, how many samples were accepted, where their lines end,
// and the state after them.
#[derive(Clone, Copy)]
pub struct Turn {
    pub number: Number,
    pub count: u64,
    pub length: usize,
    pub state: State,
}

// How many nodes of an image are driven; none of an image that is not opened.
fn driven(image: &[u8]) -> usize
    ensures { (result ≡ driven_of (opening_of image.now)) × (result ≤ 15) }
{
    match image::read(image) {
        Ok(parts) => parts.driven as usize,
        Err(_) => 0,
    }
}

// How many full sets of drives so many bytes hold.
fn sets(length: usize, driven: usize) -> usize
    requires { driven ≤ 15 }
    ensures { result ≡ sets_in length driven }
{
    if driven == 0 {
        return 0;
    }
    length / (4 * driven)
}

// Whether a block of so many accepted samples is whole, so that another may follow it.
pub fn is_whole(count: u64) -> bool
    ensures { result ≡ leb block_samples count }
{
    1024 <= count
}

// How many bytes the drives of a block take: as many as `play` takes at a time.
pub fn drive_bytes(image: &[u8]) -> usize
    ensures { (result ≡ 4 * block_samples * driven_of (opening_of image.now)) × (result ≤ 61440) }
{
    4096 * driven(image)
}

// Plays the sets of drives that these bytes hold, from this state, and puts the lines of the accepted
// samples at the start of `text`. More sets than a block has, the block refuses.
pub fn play(image: &[u8], state: State, drives: &[u8], text: &mut [u8]) -> Turn
    requires { 22528 ≤ length text.old }
    ensures { Told image.now state drives.now text.old (number_of result.number) result.count result.state result.length text.new }
{
    let n = sets(drives.len(), driven(image)) as u64;
    let mut outputs = [0u8; 4096];
    let played = block::block(image, state, n, drives, &mut outputs);
    let length = lines::put_lines(text, &outputs, played.count as usize);
    Turn {
        number: played.number,
        count: played.count,
        length,
        state: played.state,
    }
}
