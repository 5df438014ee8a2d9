// The types of entries. Numbers and no enum: an entry may have any type of ten bits, and one that is not known sets the block aside with its number.

pub(crate) const WEIGHTS: u16 = 1;

pub(crate) const BANDWIDTHS: u16 = 2;
