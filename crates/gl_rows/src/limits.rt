//! Limits of what is written, with small numbers: each one below and one above.
ghost use Rattle.std.specs.Prelude.{◌≡◌, true, Err, None, Some, is_ok};
ghost use Rattle.gl_lifting.specs.OutLimits.{of_name, of_cards, of_lifted_text, of_lifted_flat, of_map_text, of_report_text, of_restored_text};
ghost use Rattle.gl_lifting.specs.LiftJobs.{of_limit};
ghost use Rattle.gl_rows.specs.LimitRows.{lifted_under, restored_under, small};

/// A deck with flat names of 8 bytes, 9 expanded cards, a lifted deck of 80 bytes, a flat text of it of 109, a map of 207 and
/// a report of 243.
pub fn each_limit_of_lifting()
    ensures none { is_ok (lifted_under (small 8 9 243)) ≡ true }
    ensures name { lifted_under (small 7 8 79) ≡ Err (of_limit of_name) }
    ensures cards { lifted_under (small 8 8 79) ≡ Err (of_limit of_cards) }
    ensures lifted_text { lifted_under (small 8 9 79) ≡ Err (of_limit of_lifted_text) }
    ensures lifted_flat { lifted_under (small 8 9 80) ≡ Err (of_limit of_lifted_flat) }
    ensures flat_above { lifted_under (small 8 9 108) ≡ Err (of_limit of_lifted_flat) }
    ensures map_text { lifted_under (small 8 9 109) ≡ Err (of_limit of_map_text) }
    ensures map_above { lifted_under (small 8 9 206) ≡ Err (of_limit of_map_text) }
    ensures report_text { lifted_under (small 8 9 207) ≡ Err (of_limit of_report_text) }
    ensures report_above { lifted_under (small 8 9 242) ≡ Err (of_limit of_report_text) }
{}

/// A deck whose flat text has 55 bytes.
pub fn the_limit_of_restoring()
    ensures below { restored_under (small 8 9 55) ≡ None }
    ensures above { restored_under (small 8 9 54) ≡ Some of_restored_text }
{}
