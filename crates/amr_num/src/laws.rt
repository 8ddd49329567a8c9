//! Laws of the numbers: each is the contract of a function that does nothing.

ghost use Rattle.amr_num.specs.Laws.{PartsAddUp, SpreadAddsUp};

/// The parts of a number add up to it, for any number of parts and negative numbers too.
pub fn parts_add_up()
    ensures { PartsAddUp }
{}

/// What a total is spread into adds up to it, whatever the guides are.
pub fn spread_adds_up()
    ensures { SpreadAddsUp }
{}
