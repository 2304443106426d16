//! How many original devices are left.
ghost use Rattle.std.specs.Prelude.{◌≡◌, ◌≤◌, ◌∷◌, [], map};
ghost use Rattle.gl_history.specs.Plain.{origin_value};
ghost use Rattle.gl_report.specs.Shown.{left_of};

use gl_history::Origin;

/// 1 for an original device, else 0.
fn original(origin: &Origin) -> usize
    ensures original { result ≡ left_of (origin_value origin.now ∷ []) }
    ensures most { result ≤ 1 }
{
    match origin {
        Origin::Base(_) => 1,
        Origin::Made(_) => 0,
    }
}

/// How many devices of a circuit are original ones, by where they come from.
pub fn left(origins: &[Origin]) -> usize
    ensures left { result ≡ left_of (map origin_value origins.now) }
{
    let mut count: usize = 0;
    for origin in origins {
        count += original(origin);
    }
    count
}
