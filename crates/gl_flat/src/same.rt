ghost use Rattle.std.specs.Prelude.{◌≡◌, map};
ghost use Rattle.gl_text.specs.Flattening as flat;
ghost use Rattle.gl_flat.specs.SeenNames as seen;

use crate::Name;
use crate::net::Net;

/// Two paths are the same.
fn same_path(xs: &[&Name], ys: &[&Name]) -> bool
    ensures same { result ≡ flat.same_path (map (λ n. n.now) xs.now) (map (λ n. n.now) ys.now) }
{
    let [x, behind_x @ ..] = xs else {
        return ys.is_empty();
    };
    let [y, behind_y @ ..] = ys else {
        return false;
    };
    x.as_bytes() == y.as_bytes() && same_path(behind_x, behind_y)
}

/// Two nets are the same.
pub fn is_same_net(m: &Net<'_>, n: &Net<'_>) -> bool
    ensures same { result ≡ seen.same_net m.now n.now }
{
    same_path(&m.path, &n.path) && m.name.as_bytes() == n.name.as_bytes()
}
