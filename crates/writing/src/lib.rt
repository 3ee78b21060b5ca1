// Writing to a buffer from one place to the next: each function answers the place after what it wrote. Buffer and place go separately: the
// clauses speak of the buffer before and after, and a struct that lends it would hide that.
#![tactic(auto)]

ghost use Rattle.std.specs.Prelude.{[], ◌∷◌, ◌+◌, ◌*◌, ◌≤◌, ◌<◌, length, replicate};
ghost use Rattle.model.specs.Output.{bytes4};
ghost use Rattle.writing.specs.Writing.{numbers_bytes, Writes};

// Writes one value.
pub fn put_one<T: Copy>(buffer: &mut [T], at: usize, value: T) -> usize
    requires { at < length buffer.old }
    ensures { Writes (value ∷ []) buffer.old at buffer.new result }
{
    buffer[at] = value;
    at + 1
}

// Writes values one after the other.
pub fn put_all<T: Copy>(buffer: &mut [T], at: usize, values: &[T]) -> usize
    requires { at + length values.now ≤ length buffer.old }
    ensures { Writes values.now buffer.old at buffer.new result }
{
    let end = at + values.len();
    buffer[at..end].copy_from_slice(values);
    end
}

// Writes a number as 4 bytes, lowest byte first.
pub fn put_word(buffer: &mut [u8], at: usize, value: u32) -> usize
    requires { at + 4 ≤ length buffer.old }
    ensures { Writes (bytes4 value) buffer.old at buffer.new result }
{
    put_all(buffer, at, &value.to_le_bytes())
}

// Writes values as 4 bytes each.
pub fn put_words(buffer: &mut [u8], at: usize, values: &[u32]) -> usize
    requires { at + 4 * length values.now ≤ length buffer.old }
    ensures { Writes (numbers_bytes values.now) buffer.old at buffer.new result }
{
    let mut next = at;
    for &value in values {
        next = put_word(buffer, next, value);
    }
    next
}

// Writes zeros to the front.
pub fn put_zeros(buffer: &mut [u8], count: usize) -> usize
    requires { count ≤ length buffer.old }
    ensures { Writes (replicate count 0) buffer.old 0 buffer.new result }
{
    buffer[..count].fill(0);
    count
}
