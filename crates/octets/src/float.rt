// Floats and their bits. Any two NaNs are equal; other floats are equal where their bits are.
ghost use Rattle.std.specs.Prelude.{◌≡◌};
ghost use Rattle.std.specs.Float.{binary64};
ghost use Rattle.std.specs.Float.Ieee.{nan_bits, to_bits, of_bits};
ghost use Rattle.octets.specs.Octets.{has_bits};

// The sign's bit; the lowest bit of the exponent; an exponent of ones, as infinity and the NaNs have it.
const SIGN: u64 = 0x8000000000000000;

const FRACTION: u64 = 0x0010000000000000;

const ONES: u64 = 0x7ff;

// The pattern that every NaN is written as.
const NAN: u64 = 0x7ff8000000000000;

// Whether bits are a NaN's. (Told from the bits: `f64::from_bits` may not be asked of a NaN's.)
pub fn is_nan(bits: u64) -> bool
    ensures { result ≡ nan_bits binary64 bits }
{
    (bits % SIGN / FRACTION == ONES) & (bits % FRACTION != 0)
}

// The float that has these bits; for the bits of a NaN, a NaN.
pub fn of_bits(bits: u64) -> f64
    ensures { result ≡ of_bits binary64 bits }
{
    if is_nan(bits) {
        f64::NAN
    } else {
        f64::from_bits(bits)
    }
}

// The bits of a float; of every NaN, the one pattern.
pub fn bits_of(x: f64) -> u64
    ensures { result ≡ to_bits binary64 x }
{
    if x.is_nan() { NAN } else { x.to_bits() }
}

// Whether a float is the one that has these bits.
pub fn same(x: f64, bits: u64) -> bool
    ensures { result ≡ has_bits x bits }
{
    if x.is_nan() {
        is_nan(bits)
    } else {
        x.to_bits() == bits
    }
}
