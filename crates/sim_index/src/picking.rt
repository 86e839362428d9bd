//! Values of which some stay, by a list that has `true` for each of those.
ghost use Rattle.std.specs.Prelude.{◌≡◌, ◌≤◌, filter, length, take};
ghost use Rattle.std.specs.List.{items_where_true};

/// The number of values that stay.
pub(crate) fn count(told: &[bool]) -> usize
    ensures { result ≡ length (filter (λ stays. stays) told.now) }
{
    told.iter().filter(|stays| **stays).count()
}

/// Moves the values for which `told` has `true` to the front, in their order. Returns their number.
pub(crate) fn gather<T>(values: &mut [T], told: &[bool]) -> usize
    requires { length told.now ≡ length values.old }
    ensures kept { take result values.new ≡ items_where_true told.now values.old }
    ensures within { result ≤ length values.new }
{
    let mut kept = 0;
    let mut place = 0;
    while place < told.len() {
        if told[place] {
            values.swap(kept, place);
            kept += 1;
        }
        place += 1;
    }
    kept
}
