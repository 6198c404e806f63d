ghost use Rattle.std.specs.Prelude.{◌≡◌};
ghost use Rattle.words.specs.Blocks.{exchanged, overwritten};

// Nothing changes where a block does not fit, so that no caller has to show that it does.

// Exchanges two blocks that lie side by side; changes nothing where there are no such blocks.
pub fn exchange<T>(s: &mut [T], from: usize, mid: usize, end: usize)
    ensures { s.new ≡ exchanged s.old from mid end }
{
    if from <= mid && mid <= end && end <= s.len() {
        let by = mid - from;
        let part = &mut s[from..end];
        part.rotate_left(by);
    }
}

// Writes the elements of `src` over those of `s` from a place on; changes nothing where they do not fit.
pub fn overwrite<T: Copy>(s: &mut [T], from: usize, src: &[T])
    ensures { s.new ≡ overwritten s.old from src.now }
{
    let len = src.len();
    if from <= s.len() && len <= s.len() - from {
        let part = &mut s[from..from + len];
        part.copy_from_slice(src);
    }
}
