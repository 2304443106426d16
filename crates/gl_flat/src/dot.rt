ghost use Rattle.std.specs.Prelude.{◌≡◌};
ghost use Rattle.gl_flat.specs.SeenNames as seen;

/// The name holds a dot.
pub fn holds_dot(name: &[u8]) -> bool
    ensures dot { result ≡ seen.has_dot name.now }
{
    name.iter().any(|byte| *byte == b'.')
}
