//! The definitions of lifting over all levels: histories of rounds, variants, the lifted deck, the map of names, and the way back.
#![tactic(auto)]

mod laws;
mod lifted_laws;
mod limit_laws;
mod reading_laws;

pub use laws::{
    composites_are_in_order, composites_are_matched, composites_stand, flattened_names_differ,
    four_links_lift_back, histories_are_lawful, histories_are_one, level_zero_stays,
    links_lift_back, maps_are_read, maps_have_each_once, matched_cards_meet,
    matched_nodes_lead_back, names_are_printed, new_names_lead_back, no_others_stand,
    origins_stand_once, paired_decks_are_restored, places_lead_back, shapes_are_types,
    three_links_hold, tried_histories_are_histories, turns_lead_back, variants_are_found,
};
pub use lifted_laws::{
    composites_are_named, lawful_parts_suit, lifted_decks_are_flat, lifted_decks_are_renamed,
    what_is_lifted_can_be_restored,
};
pub use limit_laws::{lifted_decks_are_counted, lifted_decks_are_paired, lifted_devices_stand};
pub use reading_laws::{
    fewer_links_lift_back, lawful_histories_are_read, lawful_histories_suit, legal_parts_suit,
    lifted_decks_are_read, maps_have_names, variant_names_differ,
};
