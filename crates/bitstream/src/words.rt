// Bytes by words of 64 bits, least significant first.
ghost use Rattle.std.specs.Prelude.{◌≡◌, ◌*◌, ◌^◌, ◌<◌, ◌≤◌, IsTrue, MatchOption, length, ◌%◌};
ghost use Rattle.bitstream.specs.Bits.{bits_of_bytes, ones_of, HasNoOne, IsFirstOne};
ghost use Rattle.implicit_tiling.specs.Bits.{bit_of_bytes, digit_of_bytes};
ghost use Rattle.bitstream.specs.Words.{IsWordOf, HasDigits};

pub(crate) fn word_of(bytes: [u8; 8]) -> u64
    ensures { IsWordOf bytes result }
{
    u64::from_le_bytes(bytes)
}

// The word of the first 8 bytes.
pub(crate) fn first_word(bytes: &[u8]) -> u64
    ensures { IsWordOf bytes.now result }
{
    if let Some(word) = bytes.first_chunk::<8>() {
        return word_of(*word);
    }
    let mut word = [0; 8];
    word[..bytes.len()].copy_from_slice(bytes);
    word_of(word)
}

/// The first `count` bits of a word, least significant first; all of them where it has no more.
pub fn low_bits(word: u64, count: u64) -> u64
    ensures { result ≡ word % 2 ^ count }
{
    if count >= 64 {
        return word;
    }
    word & ((1 << count) - 1)
}

// The 64 bits from a place on, which stand in nine bytes.
pub(crate) fn word_at(bytes: &[u8], from: u64) -> u64
    ensures { HasDigits (digit_of_bytes bytes.now) from result }
{
    let start = (from / 8) as usize;
    let low = first_word(&bytes[start.min(bytes.len())..]);
    let high = first_word(&bytes[(start + 8).min(bytes.len())..]);
    let both = u128::from(high) << 64 | u128::from(low);
    (both >> (from % 8) & u128::from(u64::MAX)) as u64
}

// How many of the first n bits are 1.
pub(crate) fn ones_in(bytes: &[u8], n: u64) -> u64
    requires { n ≤ 8 * length bytes.now }
    ensures { result ≡ ones_of (bits_of_bytes bytes.now n) }
{
    let whole = (n / 64) as usize;
    let words = &bytes.as_chunks::<8>().0[..whole];
    let mut ones = 0;
    for word in words {
        ones += u64::from(word_of(*word).count_ones());
    }
    let last = first_word(&bytes[8 * whole..]) & ((1 << (n % 64)) - 1);
    ones + u64::from(last.count_ones())
}

// The least place of a 1 from `from` up to `to`.
pub(crate) fn first_one_in(bytes: &[u8], from: u64, to: u64) -> Option<u64>
    requires order { from ≤ to }
    requires within { to ≤ 8 * length bytes.now }
    ensures { MatchOption result (HasNoOne (bit_of_bytes bytes.now) from to)
        (IsFirstOne (bit_of_bytes bytes.now) from to) }
{
    match first_one_from(&bytes[..to.div_ceil(8) as usize], from) {
        Some(place) if place < to => Some(place),
        _ => None,
    }
}

// The least place of a 1 from `from` on. The first word is read apart, since ones are mostly near.
fn first_one_from(bytes: &[u8], from: u64) -> Option<u64>
    requires within { from ≤ 8 * length bytes.now }
    requires few { 8 * length bytes.now ≤ 2 ^ 64 }
    ensures { MatchOption result (HasNoOne (bit_of_bytes bytes.now) from (8 * length bytes.now))
        (IsFirstOne (bit_of_bytes bytes.now) from (8 * length bytes.now)) }
{
    let start = (from / 8) as usize;
    let word = first_word(&bytes[start..]) >> (from % 8);
    if word != 0 {
        return Some(from + u64::from(word.trailing_zeros()));
    }
    let next = start + 8;
    if bytes.len() <= next {
        return None;
    }
    let place = first_one(&bytes[next..])?;
    Some(8 * next as u64 + place)
}

// The least place of a 1.
fn first_one(bytes: &[u8]) -> Option<u64>
    requires { 8 * length bytes.now ≤ 2 ^ 64 }
    ensures { MatchOption result (HasNoOne (bit_of_bytes bytes.now) 0 (8 * length bytes.now))
        (IsFirstOne (bit_of_bytes bytes.now) 0 (8 * length bytes.now)) }
{
    let skipped = zeros_in_front(bytes);
    let place = first_one_by_words(&bytes[skipped..])?;
    Some(8 * skipped as u64 + place)
}

// Bytes in front that are 0, in whole blocks of 32, so that four words share one branch.
fn zeros_in_front(bytes: &[u8]) -> usize
    ensures within { result ≤ length bytes.now }
    ensures zeros { HasNoOne (bit_of_bytes bytes.now) 0 (8 * result) }
{
    let (blocks, _) = bytes.as_chunks::<32>();
    for (index, block) in blocks.iter().enumerate() {
        if !is_zero(*block) {
            return 32 * index;
        }
    }
    32 * blocks.len()
}

fn is_zero(block: [u8; 32]) -> bool
    ensures { IsTrue result → HasNoOne (bit_of_bytes block) 0 256 }
{
    let (words, _) = block.as_chunks::<8>();
    word_of(words[0]) | word_of(words[1]) | word_of(words[2]) | word_of(words[3]) == 0
}

// The least place of a 1, where it is near.
fn first_one_by_words(bytes: &[u8]) -> Option<u64>
    requires { 8 * length bytes.now ≤ 2 ^ 64 }
    ensures { MatchOption result (HasNoOne (bit_of_bytes bytes.now) 0 (8 * length bytes.now))
        (IsFirstOne (bit_of_bytes bytes.now) 0 (8 * length bytes.now)) }
{
    let (words, rest) = bytes.as_chunks::<8>();
    for (index, word) in words.iter().enumerate() {
        let word = word_of(*word);
        if word != 0 {
            return Some(64 * index as u64 + u64::from(word.trailing_zeros()));
        }
    }
    let word = first_word(rest);
    if word == 0 {
        return None;
    }
    Some(64 * words.len() as u64 + u64::from(word.trailing_zeros()))
}
