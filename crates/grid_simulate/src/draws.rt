//! The generator.
ghost use Rattle.std.specs.Prelude.{◌≡◌, ◌<◌, length, vec_len};
ghost use Rattle.grid_simulate.specs.Draws.{next_number, drawn_by};

const FACTOR: u64 = 6_364_136_223_846_793_005;

const STEP: u64 = 1_442_695_040_888_963_407;

/// The lower bits of the generator are not used.
const UPPER: u64 = 1 << 33;

/// The number after this one, modulo 2^64.
fn next_number(number: u64) -> u64
    ensures { result ≡ next_number number }
{
    number.wrapping_mul(FACTOR).wrapping_add(STEP)
}

/// Draws a number from 0 to below n.
pub(crate) fn draw(number: &mut u64, n: u64) -> u64
    requires { 0 < n }
    ensures next { number.new ≡ next_number number.old }
    ensures value { result ≡ drawn_by (next_number number.old) n }
    ensures below { result < n }
{
    *number = next_number(*number);
    *number / UPPER % n
}

/// How many elements there are.
pub(crate) fn count_of<T>(items: &Vec<T>) -> usize
    ensures items { result ≡ length items.now.items }
    ensures len { result ≡ vec_len items.now }
{
    items.len()
}

/// Draws a place of a list of so many elements.
pub(crate) fn draw_place(number: &mut u64, count: usize) -> usize
    requires { 0 < count }
    ensures next { number.new ≡ next_number number.old }
    ensures value { result ≡ drawn_by (next_number number.old) count }
    ensures below { result < count }
{
    draw(number, count as u64) as usize
}
