// Stored currents as a state's bytes, and whether they are legal.
ghost use Rattle.std.specs.Prelude.{◌≡◌, List, ℤ, length};
ghost use Rattle.circuit.specs.Board.{network_on};
ghost use Rattle.block.specs.Block.{StateLegal, LegalAt, Decides};
ghost use Rattle.block.specs.Playing.{state_of};
ghost use Rattle.block.specs.Call.{state_in, bytes_with};

use circuit::{Circuit, advance};
use network::kind;
use units::{bytes, signed};

// The stored currents in a state's bytes.
pub fn read(state: &[u8]) -> [i64; 32]
    requires { length state.now ≡ 256 }
    ensures { result ≡ (state_in state.now).currents }
{
    let mut x = [0i64; 32];
    for j in 0..32 {
        x[j] = bytes::signed_at::<8>(state, 8 * j);
    }
    x
}

// The stored currents into a state's bytes.
pub fn write(state: &mut [u8], x: &[i64; 32])
    requires { length state.old ≡ 256 }
    ensures { state.new ≡ bytes_with state.old x.now 32 }
{
    for j in 0..32 {
        bytes::put_signed::<8>(state, 8 * j, x[j]);
    }
}

// Stored currents as they are. That there are 32 of them is known of an array that is handed over.
pub fn known(x: [i64; 32]) -> [i64; 32]
    ensures { (result ≡ x) × (length x ≡ 32) }
{
    x
}

// Whether a stored current may stand at an element of this kind, 0 where there is none.
fn legal_at(kind: u64, x: i64) -> bool
    ensures { Decides result (LegalAt kind x) }
{
    if kind::stores(kind) {
        return advance::is_kept(x);
    }
    signed::size(x) == 0
}

// Whether all stored currents are legal.
pub fn legal(circuit: &Circuit, x: &[i64; 32]) -> bool
    requires { length x.now ≡ 32 }
    ensures { (stretches : List ℤ) → Decides result (StateLegal (network_on circuit.now.board stretches) (state_of x.now)) }
{
    for j in 0..32 {
        if !legal_at(circuit.kind(j), x[j]) {
            return false;
        }
    }
    true
}
