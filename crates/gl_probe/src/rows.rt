//! Lines, worked out by hand: each is the contract of a function that does nothing.
ghost use Rattle.std.specs.Prelude.{◌≡◌, [], None, Some, codes};
ghost use Rattle.gl_match.specs.declared.role.Vertex.TheVariants.{Dev as Device_of};
ghost use Rattle.gl_course.specs.Rows.{four_inverters, buffer, one_gate, gate_cell};
ghost use Rattle.gl_probe.specs.Keys.{key_in};
ghost use Rattle.gl_probe.specs.Probes.{key_line};
ghost use Rattle.gl_probe.specs.Rows.{buffer_sub, gate_sub, note};

/// A cell of two inverters in a chain of four, by its inner net; a gate, by the net that only one depth more tells from the
/// others; a key that is a device; and no key.
pub fn key_lines()
    ensures inner_net { key_line 0 buffer_sub (key_in four_inverters buffer)
        ≡ codes "round 0 cell buf key net:n depth 0 candidates 3\n" }
    ensures deeper { key_line 0 gate_sub (key_in one_gate gate_cell)
        ≡ codes "round 0 cell nand2 key net:x depth 1 candidates 1\n" }
    ensures device { key_line 12 buffer_sub (Some (note (Device_of 1) 16 10000))
        ≡ codes "round 12 cell buf key device:mn1 depth 16 candidates 10000\n" }
    ensures none { key_line 0 buffer_sub None ≡ [] }
{}
