// Where a line ends.
ghost use Rattle.std.specs.Prelude.{◌≡◌, ◌≢◌, ℕ, ◌<◌, ◌≤◌, ◌==◌, length, position, slice_index, IfSome};
ghost use Rattle.std.specs.List.{list_any};

// Is there a line end? With no way out before the last byte, so that a block's bytes are tested many at a time.
fn has_end(block: &[u8]) -> bool
    ensures { result ≡ list_any (λ x. x == 10) block.now }
{
    let mut found = false;
    for byte in block {
        found |= *byte == b'\n';
    }
    found
}

// From a place on, past as many blocks of a size as have no line end. In its caller's code, where the size is a number that the compiler knows.
#[inline(always)]
fn skip(bytes: &[u8], from: usize, size: usize) -> usize
    requires size { 0 < size }
    requires inside { from ≤ length bytes.now }
    requires before { (k : ℕ) → k < from → slice_index bytes.now k ≢ 10 }
    ensures inside { result ≤ length bytes.now }
    ensures before { (k : ℕ) → k < result → slice_index bytes.now k ≢ 10 }
{
    let mut i = from;
    while bytes.len() - i >= size {
        if has_end(&bytes[i..i + size]) {
            return i;
        }
        i += size;
    }
    i
}

// The first line end's place. Long lines are passed by large blocks, and what is left by small ones.
pub fn line_end(bytes: &[u8]) -> Option<usize>
    ensures inside { IfSome result (λ k. k < length bytes.now) }
    ensures first { result ≡ position (λ x. x == 10) bytes.now }
{
    let large = skip(bytes, 0, 32);
    let small = skip(bytes, large, 4);
    for i in small..bytes.len() {
        if bytes[i] == b'\n' {
            return Some(i);
        }
    }
    None
}
