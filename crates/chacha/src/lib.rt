// The ChaCha20 block function of RFC 8439: 64 bytes from a key, a block counter and a nonce.
// Words are little-endian, and their sums wrap. A state is four rows of words, so that one run of the quarter round's lines does all four columns.
#![tactic(auto)]

ghost use Rattle.std.specs.Simd.Lanes.{zip2};
ghost use Rattle.std.specs.Prelude.{◌≡◌, ℕ, ◌+◌, ◌*◌, ◌<◌, ◌≤◌, length, slice_index, bit_xor};
ghost use Rattle.chacha.specs.Examples.{QuarterRoundExample, BlockExample};
ghost use Rattle.chacha.specs.Rfc8439.{plus, rolled, quarter_round, column_round, diagonal_round, double_rounds, word_at, initial_state, bytes_of, block_from, chacha20_block};
ghost use Rattle.chacha.specs.Rows.{column, words};
ghost use Rattle.std.specs.List.{flat_map};

use std::simd::u32x4;

pub mod ffi;

/// Four rows of four words.
#[derive(Clone, Copy)]
struct State {
    a: u32x4,
    b: u32x4,
    c: u32x4,
    d: u32x4,
}

const DOUBLE_ROUNDS: u32 = 10;

pub fn block(key: [u8; 32], counter: u32, nonce: [u8; 12]) -> [u8; 64]
    ensures { result ≡ chacha20_block key counter nonce }
{
    block_from(initial_state(key, counter, nonce))
}

/// That the definition is the RFC's: the examples that the RFC prints follow from it.
pub fn rfc_examples()
    ensures quarter_round { QuarterRoundExample }
    ensures block { BlockExample }
{}

fn initial_state(key: [u8; 32], counter: u32, nonce: [u8; 12]) -> State
    ensures { words result ≡ initial_state key counter nonce }
{
    State {
        a: u32x4::from_array([0x61707865, 0x3320646e, 0x79622d32, 0x6b206574]),
        b: u32x4::from_array([word(&key, 0), word(&key, 1), word(&key, 2), word(&key, 3)]),
        c: u32x4::from_array([word(&key, 4), word(&key, 5), word(&key, 6), word(&key, 7)]),
        d: u32x4::from_array([counter, word(&nonce, 0), word(&nonce, 1), word(&nonce, 2)]),
    }
}

/// The `k`-th of the words that `bytes` hold, the low byte of each first. Formats of files have the high one first, and are none of this crate's.
fn word(bytes: &[u8], k: usize) -> u32
    requires { 4 * k + 4 ≤ length bytes.now }
    ensures { result ≡ word_at bytes.now k }
{
    u32::from_le_bytes(*bytes[4 * k..].first_chunk().unwrap())
}

fn block_from(start: State) -> [u8; 64]
    ensures { result ≡ block_from (words start) }
{
    serialized(added(twenty_rounds(start), start))
}

fn twenty_rounds(mut s: State) -> State
    ensures { words result ≡ double_rounds 10 (words s) }
{
    for _ in 0..DOUBLE_ROUNDS {
        s = diagonal_round(column_round(s));
    }
    s
}

fn column_round(s: State) -> State
    ensures { words result ≡ column_round (words s) }
{
    quarter_rounds(s)
}

/// Turned, the rows have each diagonal in a column.
fn diagonal_round(s: State) -> State
    ensures { words result ≡ diagonal_round (words s) }
{
    let s = quarter_rounds(State {
        a: s.a,
        b: s.b.rotate_elements_left::<1>(),
        c: s.c.rotate_elements_left::<2>(),
        d: s.d.rotate_elements_left::<3>(),
    });
    State {
        a: s.a,
        b: s.b.rotate_elements_right::<1>(),
        c: s.c.rotate_elements_right::<2>(),
        d: s.d.rotate_elements_right::<3>(),
    }
}

/// The quarter round of each column.
fn quarter_rounds(s: State) -> State
    ensures { (k : ℕ) → k < 4 → column result k ≡ quarter_round (column s k) }
{
    let State { a, b, c, d } = s;
    let a = sum(a, b);
    let d = mixed(d, a, 16);
    let c = sum(c, d);
    let b = mixed(b, c, 12);
    let a = sum(a, b);
    let d = mixed(d, a, 8);
    let c = sum(c, d);
    let b = mixed(b, c, 7);
    State { a, b, c, d }
}

fn sum(x: u32x4, y: u32x4) -> u32x4
    ensures { (k : ℕ) → k < 4 → slice_index result k ≡ plus (slice_index x k) (slice_index y k) }
{
    x + y
}

/// The words of `x`, to which those of `y` are added bit by bit, rolled by `n` bits to the left.
fn mixed(x: u32x4, y: u32x4, n: u32) -> u32x4
    requires { (0 < n) × (n < 32) }
    ensures { (k : ℕ) → k < 4 → slice_index result k ≡ rolled n (bit_xor (slice_index x k) (slice_index y k)) }
{
    let mixed = x ^ y;
    (mixed << u32x4::splat(n)) | (mixed >> u32x4::splat(32 - n))
}

/// The two states added, word by word.
fn added(s: State, t: State) -> State
    ensures { words result ≡ zip2 plus (words s) (words t) }
{
    State {
        a: sum(s.a, t.a),
        b: sum(s.b, t.b),
        c: sum(s.c, t.c),
        d: sum(s.d, t.d),
    }
}

/// The bytes of the words, one word's after the other's.
fn serialized(s: State) -> [u8; 64]
    ensures { result ≡ flat_map bytes_of (words s) }
{
    let words = words(s).map(u32::to_le_bytes);
    words.as_flattened().try_into().unwrap()
}

fn words(s: State) -> [u32; 16]
    ensures { result ≡ words s }
{
    let [a0, a1, a2, a3] = s.a.to_array();
    let [b0, b1, b2, b3] = s.b.to_array();
    let [c0, c1, c2, c3] = s.c.to_array();
    let [d0, d1, d2, d3] = s.d.to_array();
    [
        a0, a1, a2, a3, b0, b1, b2, b3, c0, c1, c2, c3, d0, d1, d2, d3,
    ]
}
