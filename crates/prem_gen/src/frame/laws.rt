// Laws of frames.
ghost use Rattle.prem_gen.specs.Frame.Bounded.{FramesAreByText};

/// The frame of a resolved function is that which its text tells.
pub fn frames_are_by_text()
    ensures { FramesAreByText }
{}
