// The float helpers on bit patterns, under the names of the C interface. Each is the pattern form of `floats`, with its contract.
// Stays here: a function for each format, since these are the names and types of the C interface.
ghost use Rattle.std.specs.Float.{binary32, binary64};
ghost use Rattle.std.specs.Float.Ieee.{of_bits, to_bits, to_signed, to_unsigned};
ghost use Rattle.std.specs.Prelude.{◌≡◌};
ghost use Rattle.ieee.specs.Integral.{ceiling, floor, half_away};
ghost use Rattle.ieee.specs.Magnitude.{SignCleared};
ghost use Rattle.ieee.specs.Order.{greatest, least};
ghost use Rattle.ieee.specs.Root.{root};
ghost use Rattle.ieee.specs.Rounded.{rounded};

#[unsafe(no_mangle)]
pub extern "C" fn mf_root64(x: u64) -> u64
    ensures { result ≡ to_bits binary64 (root binary64 (of_bits binary64 x)) }
{
    floats::root64_bits(x)
}

#[unsafe(no_mangle)]
pub extern "C" fn mf_magnitude64(x: u64) -> u64
    ensures { SignCleared binary64 x result }
{
    floats::magnitude_bits::<f64>(x)
}

#[unsafe(no_mangle)]
pub extern "C" fn mf_magnitude32(x: u32) -> u32
    ensures { SignCleared binary32 x result }
{
    floats::magnitude_bits::<f32>(x)
}

#[unsafe(no_mangle)]
pub extern "C" fn mf_floor64(x: u64) -> u64
    ensures { result ≡ to_bits binary64 (floor binary64 (of_bits binary64 x)) }
{
    floats::floor_bits::<f64>(x)
}

#[unsafe(no_mangle)]
pub extern "C" fn mf_floor32(x: u32) -> u32
    ensures { result ≡ to_bits binary32 (floor binary32 (of_bits binary32 x)) }
{
    floats::floor_bits::<f32>(x)
}

#[unsafe(no_mangle)]
pub extern "C" fn mf_ceiling64(x: u64) -> u64
    ensures { result ≡ to_bits binary64 (ceiling binary64 (of_bits binary64 x)) }
{
    floats::ceiling_bits::<f64>(x)
}

#[unsafe(no_mangle)]
pub extern "C" fn mf_ceiling32(x: u32) -> u32
    ensures { result ≡ to_bits binary32 (ceiling binary32 (of_bits binary32 x)) }
{
    floats::ceiling_bits::<f32>(x)
}

#[unsafe(no_mangle)]
pub extern "C" fn mf_round64(x: u64) -> u64
    ensures { result ≡ to_bits binary64 (half_away binary64 (of_bits binary64 x)) }
{
    floats::round_bits::<f64>(x)
}

#[unsafe(no_mangle)]
pub extern "C" fn mf_round32(x: u32) -> u32
    ensures { result ≡ to_bits binary32 (half_away binary32 (of_bits binary32 x)) }
{
    floats::round_bits::<f32>(x)
}

#[unsafe(no_mangle)]
pub extern "C" fn mf_least64(x: u64, y: u64) -> u64
    ensures { result ≡ to_bits binary64 (least (of_bits binary64 x) (of_bits binary64 y)) }
{
    floats::least_bits::<f64>(x, y)
}

#[unsafe(no_mangle)]
pub extern "C" fn mf_least32(x: u32, y: u32) -> u32
    ensures { result ≡ to_bits binary32 (least (of_bits binary32 x) (of_bits binary32 y)) }
{
    floats::least_bits::<f32>(x, y)
}

#[unsafe(no_mangle)]
pub extern "C" fn mf_greatest64(x: u64, y: u64) -> u64
    ensures { result ≡ to_bits binary64 (greatest (of_bits binary64 x) (of_bits binary64 y)) }
{
    floats::greatest_bits::<f64>(x, y)
}

#[unsafe(no_mangle)]
pub extern "C" fn mf_greatest32(x: u32, y: u32) -> u32
    ensures { result ≡ to_bits binary32 (greatest (of_bits binary32 x) (of_bits binary32 y)) }
{
    floats::greatest_bits::<f32>(x, y)
}

#[unsafe(no_mangle)]
pub extern "C" fn mf_narrow(x: u64) -> u32
    ensures { result ≡ to_bits binary32 (rounded binary32 (of_bits binary64 x)) }
{
    floats::narrow_bits(x)
}

#[unsafe(no_mangle)]
pub extern "C" fn mf_to_i32(x: u32) -> i32
    ensures { result ≡ to_signed 31 (of_bits binary32 x) }
{
    floats::to_integer_bits::<f32, i32>(x)
}

#[unsafe(no_mangle)]
pub extern "C" fn mf_to_i64(x: u64) -> i64
    ensures { result ≡ to_signed 63 (of_bits binary64 x) }
{
    floats::to_integer_bits::<f64, i64>(x)
}

#[unsafe(no_mangle)]
pub extern "C" fn mf_to_u64(x: u32) -> u64
    ensures { result ≡ to_unsigned 64 (of_bits binary32 x) }
{
    floats::to_u64_bits(x)
}
