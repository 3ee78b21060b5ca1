// A number as 32 marks: bit i is 1 where mark i is made; and as two halves, each a number below 65,536.
ghost use Rattle.std.specs.Prelude.{◌≡◌, ◌<◌};
ghost use Rattle.tables.specs.Bits.{bit_of, with_bit, places, half_of, with_half};

// The places of the bits of a number that are 1, lowest first; the number has those that are left.
#[derive(Drop)]
pub struct Places(pub u32);

impl Iterator for Places {
    ghost use Rattle.std.specs.Iterator.{YieldsFirst, item_count};

    type Item = usize;

    ghost next_gives = { YieldsFirst (λ s. places s.0) };

    ghost remaining = { item_count (λ s. places s.0) };

    fn next(&mut self) -> Option<usize> {
        let left = self.0;
        if left == 0 {
            return None;
        }
        self.0 = left & (left - 1);
        Some(left.trailing_zeros() as usize)
    }
}

// Whether bit i of a number is 1.
pub(crate) fn is_set(x: u32, i: u32) -> bool
    requires { i < 32 }
    ensures { result ≡ bit_of x i }
{
    (x >> i) % 2 == 1
}

// The number with bit i made 1.
pub(crate) fn with_bit(x: u32, i: u32) -> u32
    requires { i < 32 }
    ensures { result ≡ with_bit x i }
{
    x | (1 << i)
}

// The half of a number for place i: the low one if i is even.
pub(crate) fn half_of(x: u32, i: usize) -> u32
    ensures { result ≡ half_of x i }
{
    if i % 2 == 0 {
        return x % 65536;
    }
    x / 65536
}

// The number with the half for place i made h; only what h has below 65,536 is kept.
pub(crate) fn with_half(x: u32, i: usize, h: u32) -> u32
    ensures { result ≡ with_half x i h }
{
    if i % 2 == 0 {
        return x / 65536 * 65536 + h % 65536;
    }
    x % 65536 + h % 65536 * 65536
}
