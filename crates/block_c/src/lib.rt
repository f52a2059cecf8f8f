// The block for a host written in C: include/krtovalin.h says how to call it. The archive of this crate is what is shipped, and all
// that it does is block's.
#![tactic(auto)]

ghost use Rattle.block.specs.Call.{Called};

// The block, by its name in C. The image comes first, so that how long a state has to be may depend on it.
#[unsafe(no_mangle)]
pub extern "C" fn krtovalin_block(
    image: &[u8],
    state: &mut [u8],
    n: u64,
    drives: &[u8],
    outputs: &mut [u8],
) -> u64
    ensures { Called image.now state.old n drives.now outputs.old result state.new outputs.new }
{
    block::krtovalin_block(image, state, n, drives, outputs)
}
