// Coordinates as integers.
ghost use Rattle.std.specs.Prelude.{◌≡◌, ℕ, ◌<◌, ◌≤◌, T, map, length, take, slice_index_or};
ghost use Rattle.std.specs.Float.{nan};
ghost use Rattle.lists.specs.Lists.{over};
ghost use Rattle.geometry.specs.Coordinate.{coordinate_bound, coordinate, value};

// The whole number that a coordinate is.
pub fn whole(x: f64) -> i64
    requires { T (coordinate coordinate_bound x) }
    ensures { result ≡ value x }
{
    std::num::truncating_f64_to_i64(x)
}

// Those of the first entries of a table, written over the front of another.
pub fn write_whole(floats: &[f64], count: usize, out: &mut [i64])
    requires { (count ≤ length floats.now) × (count ≤ length out.old) × ((n : ℕ) → n < count → T (coordinate coordinate_bound (slice_index_or floats.now n nan))) }
    ensures { out.new ≡ over (take count (map value floats.now)) out.old }
{
    for n in 0..count {
        out[n] = whole(floats[n]);
    }
}
