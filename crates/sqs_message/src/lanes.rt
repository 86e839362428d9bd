//! MD5 of four short bodies at once (RFC 1321).
ghost use Rattle.std.specs.Prelude.{◌≡◌, ◌+◌, ◌<◌, ◌≤◌, OnOk, [], get_or, length, List, ℕ};
ghost use Rattle.md5.specs.Md5.{block_words, digest_bytes, f_fn as the_f, g_fn as the_g, h_fn as the_h, i_fn as the_i, md5, padded_message, round as the_round, rounds, word_at};
ghost use Rattle.sqs_message.specs.Beside.{hash_of_words, lane};

use std::alloc::AllocError;

/// How many bodies have their MD5 computed at once.
pub(crate) const LANES: usize = 4;

/// The greatest length of a body that is one block with its padding, in bytes.
pub(crate) const SHORT: usize = 55;

// A body and its padding.
type Block = [u8; 64];

// The words of four blocks, those with one index side by side.
type Words = [[u32; LANES]; 16];

// The hash value before the first block (3.3).
const INITIAL: [u32; 4] = [0x6745_2301, 0xefcd_ab89, 0x98ba_dcfe, 0x1032_5476];

// The constants of the steps (3.4).
const CONSTANTS: [u32; 64] = [
    0xd76a_a478,
    0xe8c7_b756,
    0x2420_70db,
    0xc1bd_ceee,
    0xf57c_0faf,
    0x4787_c62a,
    0xa830_4613,
    0xfd46_9501,
    0x6980_98d8,
    0x8b44_f7af,
    0xffff_5bb1,
    0x895c_d7be,
    0x6b90_1122,
    0xfd98_7193,
    0xa679_438e,
    0x49b4_0821,
    0xf61e_2562,
    0xc040_b340,
    0x265e_5a51,
    0xe9b6_c7aa,
    0xd62f_105d,
    0x0244_1453,
    0xd8a1_e681,
    0xe7d3_fbc8,
    0x21e1_cde6,
    0xc337_07d6,
    0xf4d5_0d87,
    0x455a_14ed,
    0xa9e3_e905,
    0xfcef_a3f8,
    0x676f_02d9,
    0x8d2a_4c8a,
    0xfffa_3942,
    0x8771_f681,
    0x6d9d_6122,
    0xfde5_380c,
    0xa4be_ea44,
    0x4bde_cfa9,
    0xf6bb_4b60,
    0xbebf_bc70,
    0x289b_7ec6,
    0xeaa1_27fa,
    0xd4ef_3085,
    0x0488_1d05,
    0xd9d4_d039,
    0xe6db_99e5,
    0x1fa2_7cf8,
    0xc4ac_5665,
    0xf429_2244,
    0x432a_ff97,
    0xab94_23a7,
    0xfc93_a039,
    0x655b_59c3,
    0x8f0c_cc92,
    0xffef_f47d,
    0x8584_5dd1,
    0x6fa8_7e4f,
    0xfe2c_e6e0,
    0xa301_4314,
    0x4e08_11a1,
    0xf753_7e82,
    0xbd3a_f235,
    0x2ad7_d2bb,
    0xeb86_d391,
];

// The shifts of the steps (3.4).
const SHIFTS: [u32; 64] = [
    7, 12, 17, 22, 7, 12, 17, 22, 7, 12, 17, 22, 7, 12, 17, 22, 5, 9, 14, 20, 5, 9, 14, 20, 5, 9,
    14, 20, 5, 9, 14, 20, 4, 11, 16, 23, 4, 11, 16, 23, 4, 11, 16, 23, 4, 11, 16, 23, 6, 10, 15,
    21, 6, 10, 15, 21, 6, 10, 15, 21, 6, 10, 15, 21,
];

#[inline(always)]
fn f(x: u32, y: u32, z: u32) -> u32
    ensures { result ≡ the_f x y z }
{
    (x & y) | (!x & z)
}

#[inline(always)]
fn g(x: u32, y: u32, z: u32) -> u32
    ensures { result ≡ the_g x y z }
{
    (x & z) | (y & !z)
}

#[inline(always)]
fn h(x: u32, y: u32, z: u32) -> u32
    ensures { result ≡ the_h x y z }
{
    x ^ y ^ z
}

#[inline(always)]
fn i(x: u32, y: u32, z: u32) -> u32
    ensures { result ≡ the_i x y z }
{
    y ^ (x | !z)
}

// A step on the four variables. What the step before gave is added last.
#[inline(always)]
fn round(v: [u32; 4], f: u32, constant: u32, word: u32, shift: u32) -> [u32; 4]
    ensures { result ≡ the_round v f constant word shift }
{
    let [a, b, c, d] = v;
    let sum = a.wrapping_add(word).wrapping_add(constant).wrapping_add(f);
    [d, b.wrapping_add(sum.rotate_left(shift)), b, c]
}

// Step t of one block.
#[inline(always)]
fn step(words: &Words, l: usize, v: [u32; 4], t: usize) -> [u32; 4]
    requires block { l < 4 }
    requires step { t < 64 }
    ensures { (h : List ℕ) → v ≡ rounds h (lane l words.now) t
        → result ≡ rounds h (lane l words.now) (t + 1) }
{
    let (constant, shift) = (CONSTANTS[t], SHIFTS[t]);
    if t < 16 {
        round(v, f(v[1], v[2], v[3]), constant, words[t][l], shift)
    } else if t < 32 {
        round(
            v,
            g(v[1], v[2], v[3]),
            constant,
            words[(5 * t + 1) % 16][l],
            shift,
        )
    } else if t < 48 {
        round(
            v,
            h(v[1], v[2], v[3]),
            constant,
            words[(3 * t + 5) % 16][l],
            shift,
        )
    } else {
        round(
            v,
            i(v[1], v[2], v[3]),
            constant,
            words[7 * t % 16][l],
            shift,
        )
    }
}

// Four steps of one block.
#[inline(always)]
fn four_steps(words: &Words, l: usize, v: [u32; 4], t: usize) -> [u32; 4]
    requires block { l < 4 }
    requires steps { t + 4 ≤ 64 }
    ensures { (h : List ℕ) → v ≡ rounds h (lane l words.now) t
        → result ≡ rounds h (lane l words.now) (t + 4) }
{
    let v = step(words, l, v, t);
    let v = step(words, l, v, t + 1);
    let v = step(words, l, v, t + 2);
    step(words, l, v, t + 3)
}

// The hash values of four messages of one block each.
fn hashes(words: &Words) -> [[u32; 4]; LANES]
    ensures { (l : ℕ) → l < 4 → get_or result l [] ≡ hash_of_words (lane l words.now) }
{
    let mut hashes = [[0; 4]; LANES];
    'each: for l in 0..LANES {
        let mut v = four_steps(words, l, INITIAL, 0);
        v = four_steps(words, l, v, 4);
        v = four_steps(words, l, v, 8);
        v = four_steps(words, l, v, 12);
        v = four_steps(words, l, v, 16);
        v = four_steps(words, l, v, 20);
        v = four_steps(words, l, v, 24);
        v = four_steps(words, l, v, 28);
        v = four_steps(words, l, v, 32);
        v = four_steps(words, l, v, 36);
        v = four_steps(words, l, v, 40);
        v = four_steps(words, l, v, 44);
        v = four_steps(words, l, v, 48);
        v = four_steps(words, l, v, 52);
        v = four_steps(words, l, v, 56);
        v = four_steps(words, l, v, 60);
        hashes[l] = [
            INITIAL[0].wrapping_add(v[0]),
            INITIAL[1].wrapping_add(v[1]),
            INITIAL[2].wrapping_add(v[2]),
            INITIAL[3].wrapping_add(v[3]),
        ];
    }
    hashes
}

// The word that begins at a byte of a block.
#[inline(always)]
fn word(block: &Block, start: usize) -> u32
    requires { start + 4 ≤ 64 }
    ensures { result ≡ word_at block.now start }
{
    u32::from_le_bytes([
        block[start],
        block[start + 1],
        block[start + 2],
        block[start + 3],
    ])
}

// The words of four blocks.
fn words_of(blocks: &[Block; LANES]) -> Words
    ensures { (l : ℕ) → l < 4
        → lane l result ≡ block_words (get_or blocks.now l []) 16 }
{
    let mut words = [[0; LANES]; 16];
    'each: for i in 0..16 {
        words[i] = [
            word(&blocks[0], 4 * i),
            word(&blocks[1], 4 * i),
            word(&blocks[2], 4 * i),
            word(&blocks[3], 4 * i),
        ];
    }
    words
}

// The bytes of a hash value.
fn digest(hash: [u32; 4]) -> [u8; 16]
    ensures { result ≡ digest_bytes hash 4 }
{
    let mut digest = [0; 16];
    'words: for i in 0..4 {
        digest[4 * i..4 * i + 4].copy_from_slice(&hash[i].to_le_bytes());
    }
    digest
}

/// Pads a body of one block (3.1, 3.2).
///
/// # Errors
///
/// `AllocError` if memory runs out.
pub(crate) fn pad(body: &mut Vec<u8>) -> Result<(), AllocError>
    requires { length body.old.items ≤ 55 }
    ensures { OnOk result (body.new.items ≡ padded_message body.old.items) }
{
    let bits = 8 * body.len() as u64;
    body.push(0x80)?;
    body.resize(56, 0)?;
    body.extend_from_slice(&bits.to_le_bytes())?;
    Ok(())
}

/// The MD5s of four bodies of one block each, with their padding.
pub(crate) fn md5_of_four(blocks: &[Block; LANES]) -> [[u8; 16]; LANES]
    ensures { (l : ℕ) (body : List ℕ) → l < 4 → length body ≤ 55
        → get_or blocks.now l [] ≡ padded_message body → get_or result l [] ≡ md5 body }
{
    let [a, b, c, d] = hashes(&words_of(blocks));
    [digest(a), digest(b), digest(c), digest(d)]
}
