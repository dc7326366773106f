// What holds of all dumps.
ghost use Rattle.prem_wave.specs.Laws.{WavesAreDumps};
ghost use Rattle.prem_wave.specs.ReadBack.{ValuesAreReadBack, WavesAreReadBack};

/// The dump of the waves of any run is a value change dump by the grammar of IEEE 1364-2005: declarations, and then value changes at times
/// that grow, each of a declared variable and of no more bits than it has.
#[tactic(auto, using(crate::proofs::Simulated::waves_are_dumps))]
pub fn waves_are_dumps()
    ensures { WavesAreDumps }
{}

/// A reader of the dump's bytes finds the signals among its variables, in their order, and in each cycle that it shows, by the last change at
/// or before it, the values that the machine's states give them.
#[tactic(auto, using(crate::proofs::Reading::waves_are_read_back))]
pub fn waves_are_read_back()
    ensures { WavesAreReadBack }
{}

/// A value of 64 bits, or none, is read from the digits in which a dump tells it.
#[tactic(auto, using(crate::proofs::Reading::values_are_read_back))]
pub fn values_are_read_back()
    ensures { ValuesAreReadBack }
{}
