// A write at the front of lent memory.
ghost use Rattle.std.specs.Prelude.{◌≡◌, length, nat_le};
ghost use Rattle.element.specs.Bytes.{placed};

// Writes `bytes` over the front of `out`; false, and nothing written, where `out` is too short. A bool: there is one
// reason, and callers that hand over enough room leave it unused.
pub fn place(bytes: &[u8], out: &mut [u8]) -> bool
    ensures fits { result ≡ nat_le (length bytes.now) (length out.old) }
    ensures after { out.new ≡ placed bytes.now out.old }
{
    let n = bytes.len();
    if out.len() < n {
        return false;
    }
    out[..n].copy_from_slice(bytes);
    true
}
