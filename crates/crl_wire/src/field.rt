//! Numbers by their places in a frame, and bytes at its end.
ghost use Rattle.std.specs.Prelude.{◌≡◌, ◌+◌, ◌≤◌, ◌++◌, length, vec_len, vec_capacity};
ghost use Rattle.std.specs.Int.{w16, w32, w64};
ghost use Rattle.crl_wire.specs.Decoding.{number_at};

pub(crate) fn u16_at(frame: &[u8], at: usize) -> u16
    requires { at + 2 ≤ length frame.now }
    ensures { result ≡ number_at w16 at frame.now }
{
    let field = &frame[at..at + 2];
    u16::from_be_bytes([field[0], field[1]])
}

pub(crate) fn u32_at(frame: &[u8], at: usize) -> u32
    requires { at + 4 ≤ length frame.now }
    ensures { result ≡ number_at w32 at frame.now }
{
    let field = &frame[at..at + 4];
    u32::from_be_bytes([field[0], field[1], field[2], field[3]])
}

pub(crate) fn u64_at(frame: &[u8], at: usize) -> u64
    requires { at + 8 ≤ length frame.now }
    ensures { result ≡ number_at w64 at frame.now }
{
    let field = &frame[at..at + 8];
    u64::from_be_bytes([
        field[0], field[1], field[2], field[3], field[4], field[5], field[6], field[7],
    ])
}

/// Puts the bytes at the end of `out`, which has spare capacity for them.
pub(crate) fn put(bytes: &[u8], out: &mut Vec<u8>)
    requires { vec_len out.old + length bytes.now ≤ vec_capacity out.old }
    ensures items { out.new.items ≡ out.old.items ++ bytes.now }
    ensures len { vec_len out.new ≡ vec_len out.old + length bytes.now }
    ensures capacity { vec_capacity out.old ≤ vec_capacity out.new }
{
    if out.extend_from_slice(bytes).is_err() {
        unreachable!()
    }
}
