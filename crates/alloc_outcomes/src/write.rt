// The end of a step: the text that was put together is written by one write.
ghost use Rattle.alloc_outcomes.specs.Answers.{IsText};
ghost use Rattle.alloc_outcomes.specs.Steps.{Steps};

use crate::Cause;
use device_core::Sink;

/// Writes the text of a command. After a refusal a front of it was written.
pub fn write_text<K: Sink>(text: &[u8], out: &mut K) -> Result<(), Cause>
    ensures { Steps K.Sink (IsText text.now) out.old out.new result }
{
    out.write(text)?;
    Ok(())
}
