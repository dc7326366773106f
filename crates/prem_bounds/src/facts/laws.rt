// Laws over the definitions; each is the contract of a function that does nothing.
ghost use Rattle.prem_bounds.specs.Facts.Laws.{ClashIsFirst, LargeIsFirst, ShortIsFirst};

/// The rule on conflicts is broken by the first marked function whose lines don't fit.
pub fn clash_is_first()
    ensures { ClashIsFirst }
{}

/// The rule on bounds is broken by the first function, by its number, whose bound is too large.
pub fn large_is_first()
    ensures { LargeIsFirst }
{}

/// The rule on lengths is broken by the first marked function that states less than its bound.
pub fn short_is_first()
    ensures { ShortIsFirst }
{}
