// The pairs that lines have told.
ghost use Rattle.std.specs.Prelude.{◌≡◌, ◌≤◌, length};
ghost use Rattle.measured.specs.Measured.{most_pairs};

// No more of them than a curve is made from. Voltages and currents stand apart, as `measured::curve`
// asks for them.
#[derive(Clone, Copy)]
pub struct Kept {
    pub count: usize,
    pub voltages: [i64; 17],
    pub currents: [i64; 17],
    ghost few: { count ≤ most_pairs },
    ghost voltages_room: { length voltages ≡ most_pairs },
    ghost currents_room: { length currents ≡ most_pairs },
}
