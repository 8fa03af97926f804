//! Theorems about the blocks: each function does nothing, and its contract is the theorem.

ghost use Rattle.framing.specs.Headings.{IsHeading};
ghost use Rattle.framing.specs.SbfForm.{sbf};

/// SBF has a heading, so the theorems about any format hold for its blocks.
pub fn sbf_is_a_format()
    ensures { IsHeading sbf }
{}
