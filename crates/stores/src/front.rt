ghost use Rattle.std.specs.Prelude.{◌≡◌, ◌≤◌, ◌++◌, length, drop};

// Writes the bytes over the front of the buffer. There is room, which is proved: `put_front` of `codes` has another contract, and one function for both would be no plainer.
pub(crate) fn put_front(buf: &mut [u8], bytes: &[u8])
    requires { length bytes.now ≤ length buf.old }
    ensures { buf.new ≡ bytes.now ++ drop (length bytes.now) buf.old }
{
    buf[0..bytes.len()].copy_from_slice(bytes);
}
