// What there is no room for is only counted.
ghost use Rattle.std.specs.Prelude.{◌≡◌, set};

// The items with this one at a place, if there is the place.
pub fn set_at<T: Copy, const N: usize>(items: [T; N], j: usize, item: T) -> [T; N]
    ensures { result ≡ set items j item }
{
    let mut more = items;
    if j < N {
        more[j] = item;
    }
    more
}
