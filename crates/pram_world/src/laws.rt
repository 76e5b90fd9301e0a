//! Laws of worlds: each function here does nothing, and its contract is the law.
ghost use Rattle.pram_world.specs.Laws.{EveryBodyIsBounded, EveryInterleaving, EveryReadIsLawful};
ghost use Rattle.pram_world.specs.Laws.{SomeGoAhead};

/// *Every interleaving*: whatever happens, in any order, with any twins and with memories of any
/// size, at every moment the words are lawful and show the machine, and there is one record of all
/// atomic steps that they bear out and that knows every body.
pub fn every_interleaving()
    ensures { EveryInterleaving }
{}

/// Whoever reads a cell beside all this, by loads at any moments, has a lawful read.
pub fn every_read_is_lawful()
    ensures { EveryReadIsLawful }
{}

/// A body that nobody stops or brings back makes at most 300 L T + 8 atomic steps, whatever the
/// others do. T is the number of the job's steps, and L the least power of two that is at least the
/// number of its processors.
pub fn every_body_is_bounded()
    ensures { EveryBodyIsBounded }
{}

/// In some runs a body lets a processor go on alone, ahead of the finished steps, and marks its
/// leaf beyond the root: the laws above speak of such bodies, too.
pub fn some_go_ahead()
    ensures { SomeGoAhead }
{}
