// The bitmap: block 0 is the top bit of the first byte.
ghost use Rattle.std.specs.Prelude.{◌≡◌, ◌^◌, ◌<◌};
ghost use Rattle.transfer.specs.Bitmap.{bit, raised, held, marked};

// What bit j of a byte counts, from the low end.
fn weight(j: u64) -> u8
    requires { j < 8 }
    ensures { result ≡ 2 ^ j }
{
    match j {
        0 => 1,
        1 => 2,
        2 => 4,
        3 => 8,
        4 => 16,
        5 => 32,
        6 => 64,
        _ => 128,
    }
}

// Bit j of a byte, counted from the low end.
fn bit_at(b: u8, j: u64) -> bool
    requires { j < 8 }
    ensures { result ≡ bit j b }
{
    b / weight(j) % 2 == 1
}

// The byte with bit j set.
fn raise(b: u8, j: u64) -> u8
    requires { j < 8 }
    ensures { result ≡ raised j b }
{
    if bit_at(b, j) {
        return b;
    }
    b + weight(j)
}

// Whether block n is held.
pub fn is_held(map: &[u8; 128], n: u64) -> bool
    ensures { result ≡ held map.now n }
{
    if n < 1024 {
        let i = (n / 8) as usize;
        return bit_at(map[i], 7 - n % 8);
    }
    false
}

// The bitmap with block n held.
pub fn hold(map: &mut [u8; 128], n: u64)
    ensures { map.new ≡ marked map.old n }
{
    if n < 1024 {
        let i = (n / 8) as usize;
        map[i] = raise(map[i], 7 - n % 8);
    }
}
