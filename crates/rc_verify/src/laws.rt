//! What holds of labellings, and of what is accepted and refused.

ghost use Rattle.rc_verify.specs.Laws.{NeverBoth, OneIsStrongest, OneRefusal, RefusalsAreReadOff};

/// Among the labels that are good before a line, one list says the most at each place.
pub fn one_is_strongest()
    ensures { OneIsStrongest }
{}

/// A line is refused exactly for the least premise that fails at the strongest labels before it.
pub fn refusals_are_read_off()
    ensures { RefusalsAreReadOff }
{}

/// No program is both accepted and refused.
pub fn never_both()
    ensures { NeverBoth }
{}

/// A program is refused at one line at most, and for one premise.
pub fn one_refusal()
    ensures { OneRefusal }
{}
