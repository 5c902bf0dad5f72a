// Compares a new capture with the one before it. When a generator falls silent, the buffer still holds the bytes of the chip before, and the bench
// takes them for new ones. So compare each capture with the earlier one before testing it.
// `stale` says whether nothing new came. `leading` returns the bytes that were there already.
//
// Document 01, "The ways", the last point. specs/Capture.antt quotes it and defines both answers.
#![tactic(auto)]

ghost use Rattle.std.specs.Prelude.{◌≡◌, ◌+◌, ◌≤◌, ◌<◌, min, length};
ghost use Rattle.capture.specs.Capture.{agreeing, LeadingPart, is_stale, same_bytes, same_blocks, same_places};
ghost use Rattle.std.specs.List.{zip};

// The part of `new`, from byte 0, that was in `earlier` already. It borrows from `new` alone: a caller may give up `earlier` and keep it.
#[inline(always)]
pub fn leading<'n, 'e>(new: &'n [u8], earlier: &'e [u8]) -> &'n [u8]
    ensures { LeadingPart new.now earlier.now result.now }
{
    let n = count_agreeing(new, earlier);
    &new[0..n]
}

// Whether `new` has a byte, and each of its bytes is at the same place in `earlier`.
// Its proof: the part that `leading` returns is the one in the definition of `is_stale` (`no_other`).
#[tactic(auto, using(crate::proofs::Laws::no_other), unfolding(crate::specs::Capture::is_stale))]
pub fn stale(new: &[u8], earlier: &[u8]) -> bool
    ensures { result ≡ is_stale new.now earlier.now }
{
    0 < new.len() && leading(new, earlier).len() == new.len()
}

// Document 01 asks for two slices with separate lifetimes, so both are parameters here and below.
// How many bytes agree before the first that differs, or before the end of the shorter capture. Both are cut to its length first, so that the
// steps below test one end and not two. The hints on inlining keep this known in each of them.
#[inline(always)]
#[tactic(auto, using(crate::proofs::InParts::agreeing_cut))]
fn count_agreeing(new: &[u8], earlier: &[u8]) -> usize
    ensures { result ≡ agreeing new.now earlier.now }
{
    let most = new.len().min(earlier.len());
    agreeing_in_blocks(&new[..most], &earlier[..most])
}

// Blocks of 64 bytes come first, at 22 instructions a block. What is left begins with the block that differs, or has fewer than 64 bytes.
#[inline(always)]
#[tactic(auto, using(crate::proofs::InParts::agreeing_in_rest, crate::proofs::InParts::agreeing_all))]
fn agreeing_in_blocks(new: &[u8], earlier: &[u8]) -> usize
    requires { length new.now ≡ length earlier.now }
    ensures { result ≡ agreeing new.now earlier.now }
{
    if new.len() < 64 {
        return agreeing_in_words(new, earlier);
    }
    let long = agreeing_blocks::<64>(new, earlier);
    if new.len() - long < 8 {
        if long == new.len() {
            return long;
        }
        return agreeing_with_end(new, earlier);
    }
    long + agreeing_in_words(&new[long..], &earlier[long..])
}

// Fewer than 8 bytes are compared one by one. Of more bytes the first 8 come first, so that a difference there ends it at once, and then blocks of 8.
#[inline(always)]
#[tactic(auto, using(crate::proofs::InParts::agreeing_in_rest, crate::proofs::InParts::agreeing_by_place))]
fn agreeing_in_words(new: &[u8], earlier: &[u8]) -> usize
    requires { length new.now ≡ length earlier.now }
    ensures { result ≡ agreeing new.now earlier.now }
{
    if new.len() < 8 {
        return agreeing_bytes(new, earlier);
    }
    let first = agreeing_at_front(new, earlier);
    if first < 8 {
        return first;
    }
    let short = agreeing_blocks::<8>(new, earlier);
    if new.len() - short < 8 {
        return agreeing_with_end(new, earlier);
    }
    short + agreeing_at_front(&new[short..], &earlier[short..])
}

// How many of the first 8 bytes agree.
#[inline(always)]
#[tactic(auto, using(crate::proofs::InParts::in_first_word, crate::proofs::InParts::agreeing_by_place, crate::proofs::Agreeing::within_both))]
fn agreeing_at_front(new: &[u8], earlier: &[u8]) -> usize
    ensures { result ≡ min 8 (agreeing new.now earlier.now) }
{
    match (new.first_chunk::<8>(), earlier.first_chunk::<8>()) {
        (Some(n), Some(e)) => agreeing_in_word(n, e),
        _ => agreeing_bytes(new, earlier),
    }
}

// For captures whose bytes agree but for the last 8 or fewer. The last 8 are compared as one word, also those that were compared before. So the bytes
// that are left after the last block take one step, and not one each.
#[inline(always)]
#[tactic(auto, using(crate::proofs::InParts::with_last_word, crate::proofs::InParts::agreeing_by_place, crate::proofs::Agreeing::within_both))]
fn agreeing_with_end(new: &[u8], earlier: &[u8]) -> usize
    requires one_length { length new.now ≡ length earlier.now }
    requires but_the_end { length new.now ≤ agreeing new.now earlier.now + 8 }
    ensures { result ≡ agreeing new.now earlier.now }
{
    match (new.last_chunk::<8>(), earlier.last_chunk::<8>()) {
        (Some(n), Some(e)) => new.len() - 8 + agreeing_in_word(n, e),
        _ => agreeing_bytes(new, earlier),
    }
}

// The same for 8 bytes as one number, the first byte the lowest: the lowest bit that differs lies in the first byte that differs.
fn agreeing_in_word(new: &[u8; 8], earlier: &[u8; 8]) -> usize
    ensures { result ≡ agreeing new.now earlier.now }
{
    let differ = u64::from_le_bytes(*new) ^ u64::from_le_bytes(*earlier);
    (differ.trailing_zeros() / 8) as usize
}

// Compares block by block, up to the first that differs. The result is the number of bytes in the blocks that agree; fewer than N more bytes
// agree after them.
#[tactic(auto, using(crate::proofs::InParts::whole_blocks, crate::proofs::Agreeing::within_both))]
fn agreeing_blocks<const N: usize>(new: &[u8], earlier: &[u8]) -> usize
    requires { (0 < N) × (N ≤ 4096) }
    ensures within { (result ≤ length new.now) × (result ≤ length earlier.now) }
    ensures agree { result ≤ agreeing new.now earlier.now }
    ensures rest_below_a_block { agreeing new.now earlier.now < result + N }
{
    let (new_blocks, _) = new.as_chunks::<N>();
    let (earlier_blocks, _) = earlier.as_chunks::<N>();
    N * count_blocks(new_blocks, earlier_blocks)
}

// How many blocks agree before the first that differs.
fn count_blocks<const N: usize>(new: &[[u8; N]], earlier: &[[u8; N]]) -> usize
    requires { (0 < N) × (N ≤ 4096) }
    ensures { result ≡ same_blocks (zip new.now earlier.now) }
{
    new.iter()
        .zip(earlier)
        .take_while(
            |blocks| -> bool
                ensures { result ≡ same_bytes blocks.now.0.now blocks.now.1.now }
            { block_agrees(blocks.0, blocks.1) },
        )
        .count()
}

// Whether two blocks have the same bytes. The fold does not stop at a difference, so the compiler can compare sixteen bytes at once.
fn block_agrees<const N: usize>(new: &[u8; N], earlier: &[u8; N]) -> bool
    ensures { result ≡ same_bytes new.now earlier.now }
{
    let pairs = new.iter().zip(earlier);
    pairs.fold(true, |same, (n, e)| same & (n == e))
}

// How many bytes agree before the first that differs, byte by byte.
fn agreeing_bytes(new: &[u8], earlier: &[u8]) -> usize
    ensures within { result ≤ length new.now }
    ensures places { result ≡ same_places (zip new.now earlier.now) }
{
    new.iter().zip(earlier).take_while(|(n, e)| n == e).count()
}
