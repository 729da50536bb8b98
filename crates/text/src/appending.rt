// Bytes behind those that are held.
ghost use Rattle.std.specs.Prelude.{◌≡◌, ◌≤◌, ◌++◌, take};
ghost use Rattle.arrayvec.specs.ArrayVec.{array_vec_len};

use arrayvec::ArrayVec;

// As many bytes of the front as there is room for; the others are left off.
pub(crate) fn append<const CAP: usize>(held: &mut ArrayVec<u8, CAP>, bytes: &[u8])
    ensures front { held.new.items ≡ take CAP (held.old.items ++ bytes.now) }
    ensures fits { array_vec_len held.new ≤ CAP }
{
    let n = held.remaining_capacity().min(bytes.len());
    let _ = held.try_extend_from_slice(&bytes[..n]);
}
