// A law over the definitions; it is the contract of a function that does nothing.
ghost use Rattle.prem_running.specs.Mail.Again.{DeliveriesAreReadBack};

/// The lists that are delivered within some cycles of a set that breaks no rule, with the requests of the run file, are given by the run file that is
/// written of them, and by the lines of these lists before the lines of the first run file that give no input words.
pub fn deliveries_are_read_back()
    ensures { DeliveriesAreReadBack }
{}
