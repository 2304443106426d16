ghost use Rattle.std.specs.Prelude.{◌≡◌, map};
ghost use Rattle.gl_history.specs.Plain.{origin_value};
ghost use Rattle.gl_report.specs.Naming.{names_by};

use gl_flat::Flat;
use gl_history::Origin;
use std::marker::Model;

/// The names that a report prints, borrowed. Contracts see the stem, and the names of nets and original devices by their
/// numbers.
#[derive(Debug, Drop)]
pub struct Names<'a> {
    /// The stem of the names of chosen instances.
    pub stem: &'a [u8],
    /// The flat deck, whose nets and devices are those of the first circuit.
    pub flat: &'a Flat,
}

impl<'a> Model for Names<'a> {
    ghost use Rattle.std.specs.Prelude.{map};
    ghost use Rattle.gl_text.specs.Flattening.{device_name};
    ghost use Rattle.gl_base.specs.BaseCircuit.{nets_of};
    ghost use Rattle.gl_base.specs.Rounds.{cards_of};
    ghost use Rattle.gl_report.specs.Naming.{RoundNames};

    ghost Value = { RoundNames };

    ghost view = { λ n. record {
      run = record { stem = n.stem.now; nets = nets_of (cards_of n.flat.now) };
      devices = map device_name n.flat.now.devices;
    } };
}

/// The names of a round, borrowed. Contracts see the stem, and the names of nets and of the circuit's devices.
#[derive(Debug, Drop)]
pub struct RoundNames<'a> {
    /// The stem of the names of chosen instances.
    pub stem: &'a [u8],
    /// The flat deck.
    pub flat: &'a Flat,
    /// Where each device of the round's circuit comes from.
    pub origins: &'a [Origin],
}

impl<'a> Model for RoundNames<'a> {
    ghost use Rattle.std.specs.Prelude.{map};
    ghost use Rattle.gl_text.specs.Flattening.{device_name};
    ghost use Rattle.gl_base.specs.BaseCircuit.{nets_of};
    ghost use Rattle.gl_base.specs.Rounds.{cards_of};
    ghost use Rattle.gl_lifting.specs.HistoryReports.{origin_name};
    ghost use Rattle.gl_history.specs.Plain.{origin_value};
    ghost use Rattle.gl_report.specs.Naming.{RoundNames as NamesValue};

    ghost Value = { NamesValue };

    ghost view = { λ n. record {
      run = record { stem = n.stem.now; nets = nets_of (cards_of n.flat.now) };
      devices = map (origin_name n.stem.now (map device_name n.flat.now.devices))
          (map origin_value n.origins.now);
    } };
}

impl<'a> Names<'a> {
    /// The names of a round, by where each device of its circuit comes from.
    pub fn of_round(&self, origins: &'a [Origin]) -> RoundNames<'a>
        ensures run { result.run ≡ self.now.run }
        ensures devices { result.devices ≡ names_by self.now (map origin_value origins.now) }
    {
        RoundNames {
            stem: self.stem,
            flat: self.flat,
            origins,
        }
    }
}
