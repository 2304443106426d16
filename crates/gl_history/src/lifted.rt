use crate::{Origin, Round};
use gl_graph::Circuit;
use std::marker::Model;

/// All rounds of a run, and what they leave.
#[derive(Drop)]
pub struct Lifted {
    /// The rounds, one for each level from 0.
    pub rounds: Vec<Round>,
    /// The circuit behind the last round.
    pub last: Circuit,
    /// Where each of its devices comes from.
    pub last_origins: Vec<Origin>,
    /// How many instances are chosen in all rounds.
    pub chosen: u32,
}

impl Model for Lifted {
    ghost use Rattle.std.specs.Prelude.{map};
    ghost use Rattle.gl_history.specs.Plain.{Lifted as LiftedValue, origin_value};

    ghost Value = { LiftedValue };

    ghost view = { λ l. record {
      rounds = l.rounds.items;
      last = l.last;
      last_origins = map origin_value l.last_origins.items;
      chosen = l.chosen;
    } };
}
