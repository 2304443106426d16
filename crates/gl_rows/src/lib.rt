//! Worked rows: texts, decks, circuits, rounds, reports and what is lifted, on which the definitions are computed and compared with values worked out by hand.
#![tactic(auto)]

mod circuits;
mod keeping;
mod lifting;
mod limits;
mod linked;
mod matching;
mod printed;
mod reports;
mod rounds;
mod texts;

pub use circuits::{classes_of_places, inverter_rows, mixed_rows, pass_gate_rows, rail_rows};
pub use keeping::{kept_net_rows, unknown_keep_rows};
pub use lifting::{
    kept_nets_are_not_inner, maps_are_refused, names_have_a_limit, one_cell_is_lifted,
    one_of_overlapping_is_chosen, skipped_cells_are_told, stem_is_free, top_is_lifted,
    turns_are_undone, two_levels_are_lifted,
};
pub use limits::{each_limit_of_lifting, the_limit_of_restoring};
pub use linked::{
    links_hold_on_rows, origins_are_told_on_rows, tried_lists_are_complete, variants_are_shared,
};
pub use matching::{orders, picks_compute, places_and_devices, turned_nets, turns_compute};
pub use printed::{a_deck_without_a_title, a_nested_deck, flat_decks, worked_texts};
pub use reports::{
    circuit_and_pattern_values, computed_reports_are_reports, library_refusals_in_order,
    one_cell_reports, rail_and_port_reports, several_cells_reports, stem_reports, type_reports,
};
pub use rounds::round_reports_compute;
pub use texts::{
    card_rows, deck_rows, device_rows, flat_rail_rows, flat_rows, limit_rows, name_rows, tail_rows,
    top_rows,
};
