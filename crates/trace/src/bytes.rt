// Bytes up to a count, kept where they stand.
ghost use Rattle.std.specs.Prelude.{◌≡◌, ◌↔◌, ◌+◌, ◌-◌, ◌≤◌, ◌++◌, IsTrue, length, take, min};

// The first `count` of the array's bytes.
#[derive(Drop)]
pub struct Bytes<const N: usize> {
    bytes: [u8; N],
    count: usize,
    ghost within: { count ≤ N },
}

impl<const N: usize> Bytes<N> {
    pub fn new() -> Bytes<N>
        ensures { result.count ≡ 0 }
    {
        Bytes {
            bytes: [0u8; N],
            count: 0,
        }
    }

    pub fn as_slice(&self) -> &[u8]
        ensures kept { result.now ≡ take self.now.count self.now.bytes }
        ensures len { length result.now ≡ self.now.count }
    {
        &self.bytes[..self.count]
    }

    pub fn is_empty(&self) -> bool
        ensures { IsTrue result ↔ (self.now.count ≡ 0) }
    {
        self.count == 0
    }

    // How many more bytes there is room for.
    pub fn room(&self) -> usize
        ensures { result ≡ N - self.now.count }
    {
        N - self.count
    }

    pub fn clear(&mut self)
        ensures { self.new.count ≡ 0 }
    {
        self.count = 0;
    }

    // As many bytes as there is room for, after those that are kept; the rest is left out.
    pub fn keep(&mut self, text: &[u8])
        ensures count { self.new.count ≡ min (self.old.count + length text.now) N }
        ensures kept { take self.new.count self.new.bytes ≡ take self.old.count self.old.bytes ++ take (N - self.old.count) text.now }
    {
        let from = self.count;
        let n = text.len().min(self.room());
        let bytes = &mut self.bytes[..];
        bytes[from..from + n].copy_from_slice(&text[..n]);
        self.count = from + n;
    }
}
