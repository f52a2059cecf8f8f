// Which nodes a netlist of a circuit's parts would name.
ghost use Rattle.std.specs.Prelude.{◌≡◌, ◌≤◌};
ghost use Rattle.network.specs.Network.{branch_limit};
ghost use Rattle.parts.specs.Named.{highest_named};

use image::Parts;

// The highest of them: a netlist has no other node count, and driven nodes are counted, not named.
pub fn highest_named(parts: Parts) -> u8
    requires { parts.element_count ≤ branch_limit }
    ensures { result ≡ highest_named parts }
{
    let elements = parts.elements;
    let mut highest = parts.output;
    for e in &elements[..parts.element_count as usize] {
        highest = highest.max(e.p.max(e.q));
    }
    highest
}
