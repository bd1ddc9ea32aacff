// Modular arithmetic on u64 at a width in bits, after arith.rs. Every function answers for every argument.
#![tactic(auto)]

ghost use Rattle.std.specs.Prelude.{◌≡◌};
ghost use Rattle.arith.specs.Arith.{bitmask_of, sign_bit_mask_of, mod_add, mod_sub, mod_mul, mod_neg, mod_not, mod_shr, low_bits, sign_extended};

// The low `bitwidth` bits set: 0 at width 0, all ones from 64 up.
pub fn bitmask(bitwidth: u32) -> u64
    ensures { result ≡ bitmask_of bitwidth }
{
    if bitwidth >= 64 {
        u64::MAX
    } else if bitwidth == 0 {
        0
    } else {
        (1u64 << bitwidth) - 1
    }
}

// Only the sign bit of `bitwidth` bits set: 0 at width 0, the word's highest bit from 64 up.
#[tactic(auto, using(crate::proofs::MaskLaws::sign_low))]
pub fn sign_bit_mask(bitwidth: u32) -> u64
    ensures { result ≡ sign_bit_mask_of bitwidth }
{
    if bitwidth == 0 {
        0
    } else if bitwidth >= 64 {
        1u64 << 63
    } else {
        1u64 << (bitwidth - 1)
    }
}

#[tactic(auto, using(crate::proofs::MaskLaws::wrapped))]
pub fn mod_add(a: u64, b: u64, bitwidth: u32) -> u64
    ensures { result ≡ mod_add a b bitwidth }
{
    a.wrapping_add(b) & bitmask(bitwidth)
}

#[tactic(auto, using(crate::proofs::MaskLaws::wrapped))]
pub fn mod_sub(a: u64, b: u64, bitwidth: u32) -> u64
    ensures { result ≡ mod_sub a b bitwidth }
{
    a.wrapping_sub(b) & bitmask(bitwidth)
}

#[tactic(auto, using(crate::proofs::MaskLaws::wrapped))]
pub fn mod_mul(a: u64, b: u64, bitwidth: u32) -> u64
    ensures { result ≡ mod_mul a b bitwidth }
{
    a.wrapping_mul(b) & bitmask(bitwidth)
}

pub fn mod_neg(a: u64, bitwidth: u32) -> u64
    ensures { result ≡ mod_neg a bitwidth }
{
    mod_sub(0, a, bitwidth)
}

#[tactic(auto, using(crate::proofs::MaskLaws::masked))]
pub fn mod_not(a: u64, bitwidth: u32) -> u64
    ensures { result ≡ mod_not a bitwidth }
{
    !a & bitmask(bitwidth)
}

// Shifts the whole word before it masks, so bits above the width come down into it.
#[tactic(auto, using(crate::proofs::MaskLaws::masked, crate::proofs::MaskLaws::shifted_out))]
pub fn mod_shr(a: u64, k: u64, bitwidth: u32) -> u64
    ensures { result ≡ mod_shr a k bitwidth }
{
    if k >= 64 {
        return 0;
    }
    let mask = bitmask(bitwidth);
    (a >> k) & mask
}

// Zero extension to `to` bits. That it is `trunc` is its meaning on words: the Rust has both, and each is asked for by its name.
#[tactic(auto, using(crate::proofs::MaskLaws::masked))]
pub fn zext(v: u64, to: u32) -> u64
    ensures { result ≡ low_bits v to }
{
    let mask = bitmask(to);
    v & mask
}

// Sign extension from `from` to `to` bits; where `to` is no wider it truncates, and from width 0 it is 0.
#[tactic(auto, using(crate::proofs::SignLaws::sext_zero, crate::proofs::SignLaws::sext_narrow, crate::proofs::SignLaws::sext_clear, crate::proofs::SignLaws::sext_set))]
pub fn sext(v: u64, from: u32, to: u32) -> u64
    ensures { result ≡ sign_extended v from to }
{
    let from_mask = bitmask(from);
    let low = v & from_mask;
    if from == 0 || to <= from {
        return low & bitmask(to);
    }
    let sign = sign_bit_mask(from);
    if low & sign != 0 {
        let ext = bitmask(to) & !from_mask;
        (low | ext) & bitmask(to)
    } else {
        low & bitmask(to)
    }
}

// Truncation to the low `to` bits.
#[tactic(auto, using(crate::proofs::MaskLaws::masked))]
pub fn trunc(v: u64, to: u32) -> u64
    ensures { result ≡ low_bits v to }
{
    v & bitmask(to)
}
