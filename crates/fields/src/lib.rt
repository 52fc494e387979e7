// Numbers in bytes, and what a slice holds after a write. Document 01's numbers are big-endian: the standard library's
// `to_be_bytes` and `from_be_bytes` write and read them, and proofs/BigEndian.antt says that their bytes are specs/Bytes.antt's.
#![tactic(auto)]

ghost use Rattle.std.specs.Prelude.{◌≡◌, ◌+◌, ◌≤◌, length};
ghost use Rattle.fields.specs.Writes.{write_at};

// Writes s into t, from a place on.
pub fn put(t: &mut [u8], at: usize, s: &[u8])
    requires { at + length s.now ≤ length t.old }
    ensures { t.new ≡ write_at t.old at s.now }
{
    t[at..at + s.len()].copy_from_slice(s);
}
