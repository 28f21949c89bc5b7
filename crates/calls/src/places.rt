// Places of a slice: written, filled, joined to, and closed up.
ghost use Rattle.std.specs.Prelude.{◌≡◌, ◌+◌, ◌-◌, ◌<◌, ◌≤◌, [], ◌∷◌, ◌++◌, length, take, replicate, slice_set};
ghost use Rattle.std.specs.List.{remove};

// Closes the gap that the one at a place leaves among the first `end`.
pub(crate) fn close_gap<T>(places: &mut [T], place: usize, end: usize)
    requires { (place < end) × (end ≤ length places.old) }
    ensures { take (end - 1) places.new ≡ remove (take end places.old) place }
{
    places[place..end].rotate_left(1);
}

// One more joins the first `end`.
pub(crate) fn append<T: Copy>(places: &mut [T], end: &mut usize, x: T)
    requires { end.old < length places.old }
    ensures { (end.new ≡ end.old + 1) × (take end.new places.new ≡ take end.old places.old ++ x ∷ []) }
{
    places[*end] = x;
    *end += 1;
}

// Something else lies at a place. Tried in its callers as `places[place] = x`: the proof of the bound on the offset did not close.
pub(crate) fn put<T: Copy>(places: &mut [T], place: usize, x: T)
    requires { place < length places.old }
    ensures { places.new ≡ slice_set places.old place x }
{
    places[place] = x;
}

// The same at every place. Tried as `places.fill(x)`: the proof that each clone is `x` did not close, since a clone of `T` may be another.
pub(crate) fn fill<T: Copy>(places: &mut [T], x: T)
    ensures { places.new ≡ replicate (length places.old) x }
{
    for place in places.iter_mut() {
        *place = x;
    }
}
