// A word of which every measure is taken that strips need: bytes and words of 16 bits.
use importance::BlockMean;
use sad::RowSad;

pub trait Measured: RowSad + BlockMean {}

impl Measured for u8 {}

impl Measured for u16 {}
