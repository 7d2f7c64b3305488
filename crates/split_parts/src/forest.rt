// Classes of places (Galler and Fischer 1964): each place is linked to itself, or to a lower place of its class. The least place of a
// class is its root.

ghost use Rattle.std.specs.Prelude.{◌≡◌, ℕ, ◌<◌, ◌≤◌, length, slice_index};
ghost use Rattle.split_parts.specs.Forest.{Falls, IsColouring, merged};

/// The root of a place's class. On the way each second place is linked to the place two steps on.
fn root_of(links: &mut [usize], place: usize) -> usize
    requires falls { Falls links.old }
    requires within { place < length links.old }
    ensures falls { Falls links.new }
    ensures below { result ≤ place }
    ensures root { slice_index links.new result ≡ result }
    ensures colour { (colour : ℕ → ℕ) → IsColouring colour links.old → colour result ≡ colour place }
    ensures colouring { (colour : ℕ → ℕ) → IsColouring colour links.old → IsColouring colour links.new }
{
    let mut current = place;
    loop {
        let next = links[current];
        if next == current {
            return current;
        }
        let second = links[next];
        links[current] = second;
        current = second;
    }
}

/// Makes one class of those of two places.
pub(crate) fn join(links: &mut [usize], first: usize, second: usize)
    requires falls { Falls links.old }
    requires first { first < length links.old }
    requires second { second < length links.old }
    ensures falls { Falls links.new }
    ensures colouring { (colour : ℕ → ℕ) → IsColouring colour links.old
        → IsColouring (λ j. merged (colour first) (colour second) (colour j)) links.new }
{
    let one = root_of(links, first);
    let other = root_of(links, second);
    if one < other {
        links[other] = one;
    } else {
        links[one] = other;
    }
}
