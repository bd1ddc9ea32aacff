// Requests to `arith`.

// By the name and the arguments, of which the last is a width.
pub(crate) fn answer(name: &str, args: &[u64]) -> Option<u64> {
    let (width, args) = args.split_last()?;
    let width = u32::try_from(*width).ok()?;
    let value = match (name, args) {
        ("bitmask", []) => arith::bitmask(width),
        ("sign_bit_mask", []) => arith::sign_bit_mask(width),
        ("mod_neg", [a]) => arith::mod_neg(*a, width),
        ("mod_not", [a]) => arith::mod_not(*a, width),
        ("zext", [a]) => arith::zext(*a, width),
        ("trunc", [a]) => arith::trunc(*a, width),
        ("mod_add", [a, b]) => arith::mod_add(*a, *b, width),
        ("mod_sub", [a, b]) => arith::mod_sub(*a, *b, width),
        ("mod_mul", [a, b]) => arith::mod_mul(*a, *b, width),
        ("mod_shr", [a, k]) => arith::mod_shr(*a, *k, width),
        ("sext", [a, from]) => arith::sext(*a, u32::try_from(*from).ok()?, width),
        _ => return None,
    };
    Some(value)
}
