// What is claimed of the code. Each function does nothing; its contract is the claim.
ghost use Rattle.ecc.specs.Claims.{IgnoredBitsZero, OneFlipFound, OneFlipUnique, TwoFlipsUnreadable};

// The code bits that are ignored on reading are written as zero.
pub fn ignored_bits_zero()
    ensures { IgnoredBitsZero }
{}

// One flipped bit of a rightly coded chunk is found and put right.
pub fn one_flip_found()
    ensures { OneFlipFound }
{}

// At most one of all single flips makes a code match.
pub fn one_flip_unique()
    ensures { OneFlipUnique }
{}

// Two flipped bits of a rightly coded chunk make it unreadable.
pub fn two_flips_unreadable()
    ensures { TwoFlipsUnreadable }
{}
