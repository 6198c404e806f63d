// Bytes written one behind the other into a lent buffer. Those beyond its end are counted and not written, so that the same
// code measures a text and writes it.

#![tactic(auto)]

ghost use Rattle.std.specs.Prelude.{◌≡◌, ◌∷◌, []};
ghost use Rattle.output.specs.Puts.{Puts};

#[cfg(test)]
mod tests;

// A lent buffer, and how many bytes were put so far.
#[derive(Drop)]
pub struct Output<'a> {
    bytes: &'a mut [u8],
    len: usize,
}

impl<'a> Output<'a> {
    // Nothing is put yet into this buffer.
    pub fn over(bytes: &'a mut [u8]) -> Output<'a>
        ensures bytes { result.bytes ≡ bytes.entry }
        ensures len { result.len ≡ 0 }
    {
        Output { bytes, len: 0 }
    }

    // How many bytes were put. A count that is too large for its type stays at the largest.
    pub fn len(&self) -> usize
        ensures { result ≡ self.now.len }
    {
        self.len
    }

    // Puts one byte.
    pub fn push(&mut self, byte: u8)
        ensures { Puts (byte ∷ []) self.old self.new }
    {
        let Output { bytes, len } = self;
        // A bound beside the index: of `get_mut` the library doesn't say what the slice ends as.
        if *len < bytes.len() {
            bytes[*len] = byte;
        }
        *len = len.saturating_add(1);
    }

    // Puts several bytes.
    pub fn extend_from_slice(&mut self, text: &[u8])
        ensures { Puts text.now self.old self.new }
    {
        for byte in text {
            self.push(*byte);
        }
    }
}
