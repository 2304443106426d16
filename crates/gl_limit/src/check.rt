ghost use Rattle.std.specs.Prelude.{◌≡◌, ◌≤◌, OnOk, IfErr, length};
ghost use Rattle.gl_text.specs.LogicalLines.{FILE};
ghost use Rattle.gl_limit.specs.Bounds.{Tells};
ghost use Rattle.gl_limit.specs.declared.fault.WriteFault.TheVariants.{TooLong};

use crate::fault::WriteFault;

/// The most bytes of a text that is written, as of one that is read.
pub const FILE_LENGTH: usize = 67_108_864;

/// Whether a text is no longer than a file may be; else that it is too long.
pub fn check_length(text: &[u8]) -> Result<(), WriteFault>
    ensures short { OnOk result (length text.now ≤ FILE) }
    ensures long { IfErr result (λ fault. Tells fault text.now) }
    ensures told { IfErr result (λ fault. fault ≡ TooLong) }
{
    if text.len() > FILE_LENGTH {
        return Err(WriteFault::TooLong);
    }
    Ok(())
}
