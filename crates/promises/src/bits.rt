// Numbers that lose bits (02 j).
ghost use Rattle.paper.specs.BitsKept.{OnlyLostBits, BitsStand};

// A text passes exactly when it passed before there was number 23, and no number that it spells out loses bits where it meets a width. It then
// has the types that it had, and judges every entry as it did. One that passed and loses some is refused with 23, and with nothing else.
pub fn only_lost_bits_are_refused()
    ensures { OnlyLostBits }
{}

// What the range is for: a number in it stands in W bits as itself; one below zero as the W bits that say it, the first of them 1.
pub fn numbers_stand_in_their_bits()
    ensures { BitsStand }
{}
