// Renders circuits: of each two arguments the first names an image, the second its drives. Writes a line
// for each sample, and then how it ended. No contract can say what is read or written, so this file is
// there to be read: what the lines are is promised by `rendering`.
#![tactic(auto)]

ghost use Rattle.std.specs.Prelude.{◌≤◌, IfOk};

use block::State;
use rendering::Turn;
use std::io;
use std::io::Read;
use std::rt::Files;
use units::number::Number;

// A proved loop has to end. No file has so many samples.
const ENOUGH: u64 = 4611686018427387904;

// Document 01's number, and how many samples were accepted, over all blocks.
#[derive(Clone, Copy)]
struct Finish {
    number: Number,
    count: u64,
}

// Reads a block's drives, plays them from this state, and writes the lines. An input that ends or fails
// gives fewer than a block's.
fn next(out: &impl Print, image: &[u8], state: State, drives: &mut impl Read) -> io::Result<Turn>
    ensures { IfOk result (λ turn. turn.count ≤ 1024) }
{
    let room = rendering::drive_bytes(image);
    let mut space = outside::large_buffer();
    let length = outside::fill(drives, &mut space[..room]);
    let mut text = outside::large_buffer();
    let turn = rendering::play(image, state, &space[..length], &mut text);
    let end = turn.length;
    out.write_all(&text[..end])?;
    Ok(turn)
}

// Block after block from a fresh state, up to one that is short or refused.
fn blocks(out: &impl Print, image: &[u8], drives: &mut impl Read) -> io::Result<Finish> {
    let mut state = State { currents: [0; 32] };
    let mut total: u64 = 0;
    while total < ENOUGH {
        let turn = next(out, image, state, drives)?;
        total += turn.count;
        if !rendering::is_whole(turn.count) {
            return Ok(Finish {
                number: turn.number,
                count: total,
            });
        }
        state = turn.state;
    }
    Ok(Finish {
        number: Number::Done,
        count: total,
    })
}

// Renders the image of this name with the drives of that one.
fn render(rt: &(impl Files + Print), image: &[u8], drives: &[u8]) -> io::Result<()> {
    // longer than any image that is accepted
    let mut bytes = outside::buffer();
    let image = outside::read_into(rt, image, &mut bytes);
    let finish = match outside::open(rt, drives) {
        Some(mut file) => blocks(rt, image, &mut file)?,
        None => blocks(rt, image, &mut io::empty())?,
    };
    let mut text = [0u8; 56];
    let end = rendering::put_ending(&mut text, u64::from(finish.number), finish.count);
    rt.write_all(&text[..end])
}

fn main(rt: HostRuntime) -> io::Result<()> {
    // the program's own name is argument 0
    for j in 0..usize::MAX / 2 {
        let mut image = outside::buffer();
        let Some(n) = outside::argument(&rt, 2 * j + 1, &mut image) else {
            break;
        };
        let mut drives = outside::buffer();
        // a second name that is missing counts as empty
        let m = outside::argument(&rt, 2 * j + 2, &mut drives).unwrap_or(0);
        render(&rt, &image[..n], &drives[..m])?;
    }
    Ok(())
}
