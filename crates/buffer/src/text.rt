// Bytes held by value: the first `len` of `bytes`, with zeros behind them.
ghost use Rattle.std.specs.Prelude.{◌≡◌};
ghost use Rattle.buffer.specs.Text.{text_of, letters};

#[derive(Clone, Copy)]
pub struct Text<const N: usize> {
    pub bytes: [u8; N],
    pub len: usize,
}

impl<const N: usize> Text<N> {
    // As many of the bytes as there is room for; the length is that of all of them.
    pub fn of(s: &[u8]) -> Text<N>
        ensures { result ≡ text_of N s.now }
    {
        let mut bytes = [0; N];
        crate::copy(&mut bytes, s);
        Text {
            bytes,
            len: s.len(),
        }
    }

    pub fn letters(&self) -> &[u8]
        ensures { result.now ≡ letters self.now }
    {
        crate::front(&self.bytes, self.len)
    }
}
