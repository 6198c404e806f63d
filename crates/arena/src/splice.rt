ghost use Rattle.std.specs.Prelude.{◌≡◌, ◌+◌, ◌-◌, ◌≤◌, length, take};
ghost use Rattle.arena.specs.Splices.{opened, closed};

// Puts a block at a place into the first `live` elements; those behind it move up.
pub(crate) fn insert<T: Copy>(s: &mut [T], live: usize, place: usize, block: &[T])
    requires within { place ≤ live }
    requires room { live + length block.now ≤ length s.old }
    ensures { take (live + length block.now) s.new ≡ opened (take live s.old) place block.now }
{
    let end = place + block.len();
    s.copy_within(place..live, end);
    s[place..end].copy_from_slice(block);
}

// Takes a block of `len` elements at a place out of the first `live`; those behind it move down.
pub(crate) fn cut<T: Copy>(s: &mut [T], live: usize, place: usize, len: usize)
    requires within { place + len ≤ live }
    requires room { live ≤ length s.old }
    ensures { take (live - len) s.new ≡ closed (take live s.old) place len }
{
    s.copy_within(place + len..live, place);
}
