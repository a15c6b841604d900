// Data copied to the front of a lent tail: each byte is loaded once and stored once. A piece is loaded whole before its first byte is
// stored. So LLVM holds it in registers and stores it at once, and need not know whether the two memories overlap.

#![tactic(auto)]

ghost use Rattle.std.specs.Prelude.{◌≡◌, ◌++◌, ◌+◌, ◌-◌, ◌*◌, ◌%◌, ◌<◌, ◌≤◌, length, take, drop};
ghost use Rattle.tail.specs.Tail.{filled_with};
ghost use Rattle.tail.specs.Pieces.{with_part};

// Copies data to the front of a tail. A tail that is too short for it stays as it is.
pub fn fill(out: &mut [u8], data: &[u8])
    ensures { out.new ≡ filled_with «data».now out.old }
{
    let n = data.len();
    if out.len() < n {
        return;
    }
    if 0 < n {
        pieces(out, data);
    }
}

// The same, for parts that are mostly empty or one byte, which are no call.
pub fn few(out: &mut [u8], data: &[u8])
    ensures { out.new ≡ filled_with «data».now out.old }
{
    let n = data.len();
    if out.len() < n {
        return;
    }
    match n {
        0 => (),
        1 => out[0] = data[0],
        _ => pieces(out, data),
    }
}

// Pieces of 128 bytes, then one of 64, 32, 16, 8, 4, 2 and 1 bytes for each bit that the length has. It is out of line, so that the checks
// and the head of a message stay within the calls for C, and LLVM stores each byte of the head once.
#[inline(never)]
fn pieces(out: &mut [u8], data: &[u8])
    requires { length «data».now ≤ length out.old }
    ensures { out.new ≡ «data».now ++ drop (length «data».now) out.old }
{
    let n = data.len();
    for k in 0..n / 128 {
        piece::<128>(out, data, 128 * k);
    }
    if n % 128 == 0 {
        return;
    }
    bit::<64>(out, data);
    bit::<32>(out, data);
    bit::<16>(out, data);
    bit::<8>(out, data);
    bit::<4>(out, data);
    bit::<2>(out, data);
    bit::<1>(out, data);
}

// The piece of N bytes behind those of all higher bits, where the length has the bit N. `length data ≤ length out` stands in three contracts,
// and a struct of both with that as its invariant is no plainer: it would have to lend the tail to each piece and take it back.
fn bit<const N: usize>(out: &mut [u8], data: &[u8])
    requires positive { 0 < N }
    requires room { length «data».now ≤ length out.old }
    ensures { out.new ≡ with_part (length «data».now - length «data».now % (N * 2)) (length «data».now - length «data».now % N) «data».now out.old }
{
    let n = data.len();
    if n / N % 2 == 1 {
        piece::<N>(out, data, n - n % N - N);
    }
}

// The N bytes from a place on, loaded whole.
fn piece<const N: usize>(out: &mut [u8], data: &[u8], at: usize)
    requires within { at + N ≤ length «data».now }
    requires room { length «data».now ≤ length out.old }
    ensures { out.new ≡ with_part at (at + N) «data».now out.old }
{
    let end = at + N;
    let bytes = *data[at..end].as_array::<N>().unwrap();
    out[at..end].copy_from_slice(&bytes);
}
