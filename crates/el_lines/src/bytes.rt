// Parts of bytes.
ghost use Rattle.std.specs.Prelude.{◌≡◌, ◌<◌, ◌≤◌, ◌⊎◌, ◌+◌, [], length, drop, take, vec_capacity, MatchOption};
ghost use Rattle.el_lines.specs.LineStates.{LacksByte};
ghost use Rattle.el_lines.specs.within.Places.{IsSearched, StandsFirst};

use el_base::GhostCount;

// Where the byte stands first.
pub(crate) fn byte_at(bytes: &[u8], byte: u8) -> Option<usize>
    ensures { MatchOption result (LacksByte byte bytes.now) (λ place. StandsFirst byte bytes.now place) }
{
    byte_from(bytes, byte, 0, &mut GhostCount::new())
}

// Where the byte stands first, which is none of the first `seen` bytes. Each byte after these is looked at
// once, up to the one that is found.
pub(crate) fn byte_from(
    bytes: &[u8],
    byte: u8,
    seen: usize,
    looks: &mut GhostCount,
) -> Option<usize>
    requires { IsSearched byte bytes.now seen }
    ensures found { MatchOption result
        (LacksByte byte bytes.now) (λ place. StandsFirst byte bytes.now place) }
    ensures looks { MatchOption result
        (looks.new + seen ≡ looks.old + length bytes.now)
        (λ place. (seen ≤ place) × (looks.new + seen ≡ looks.old + (place + 1))) }
{
    for place in seen..bytes.len() {
        looks.tick();
        if bytes[place] == byte {
            return Some(place);
        }
    }
    None
}

// The bytes from the place on.
pub(crate) fn bytes_from(bytes: &[u8], place: usize) -> &[u8]
    requires { place ≤ length bytes.now }
    ensures { result.now ≡ drop place bytes.now }
{
    bytes.split_at(place).1
}

// The bytes before the place.
pub(crate) fn bytes_before(bytes: &[u8], place: usize) -> &[u8]
    requires { place ≤ length bytes.now }
    ensures { result.now ≡ take place bytes.now }
{
    bytes.split_at(place).0
}

// Leaves out the first `count` bytes.
pub(crate) fn leave_out(bytes: &mut Vec<u8>, count: usize)
    requires { count ≤ length bytes.old.items }
    ensures left { bytes.new.items ≡ drop count bytes.old.items }
    ensures room { vec_capacity bytes.new ≡ vec_capacity bytes.old }
{
    let _ = bytes.drain(..count);
}

// Gives the room back where nothing is kept, if it is above `most` bytes.
pub(crate) fn give_back(bytes: &mut Vec<u8>, most: usize)
    ensures same { bytes.new.items ≡ bytes.old.items }
    ensures room { vec_capacity bytes.new ≤ vec_capacity bytes.old }
    ensures empty { bytes.old.items ≡ [] → vec_capacity bytes.new ≤ most }
    ensures stays { (0 < length bytes.old.items) ⊎ (vec_capacity bytes.old ≤ most)
        → vec_capacity bytes.new ≡ vec_capacity bytes.old }
{
    if bytes.is_empty() && bytes.capacity() > most {
        bytes.shrink_to_fit();
    }
}
