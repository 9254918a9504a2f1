//! Bytes that are added where there is room for them already, so that no memory is taken.
ghost use Rattle.std.specs.Prelude.{◌≡◌, ◌≤◌, ◌+◌, ◌++◌, length, vec_capacity};

/// Adds bytes for which there is room.
pub fn append(bytes: &mut Vec<u8>, part: &[u8])
    requires { length bytes.old.items + length part.now ≤ vec_capacity bytes.old }
    ensures bytes { bytes.new.items ≡ bytes.old.items ++ part.now }
    ensures room { vec_capacity bytes.old ≤ vec_capacity bytes.new }
{
    match bytes.extend_from_slice(part) {
        Ok(()) => {}
        Err(_) => unreachable!(),
    }
}
