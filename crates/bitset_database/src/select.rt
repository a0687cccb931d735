//! The set bits of words.
ghost use Rattle.std.specs.Prelude.{◌≡◌, ◌+◌, ◌%◌, ◌^◌, ◌<◌, ◌≤◌, count_ones, map, sum};
ghost use Rattle.bitset_rows.specs.Rows.{digit};

/// The place of the set bit that has `nth` set bits below it.
pub(crate) fn select(word: u64, nth: u32) -> u32
    requires { nth < count_ones word }
    ensures place { result < 64 }
    ensures set { digit word result ≡ 1 }
    ensures before { count_ones (word % 2 ^ result) ≡ nth }
{
    let mut rest = word;
    let mut passed = 0u32;
    for _ in 0..nth {
        let zeros = rest.trailing_zeros();
        rest = rest >> zeros >> 1u32;
        passed += zeros + 1;
    }
    passed + rest.trailing_zeros()
}

/// How many bits of the words are set.
pub(crate) fn count_set(words: &[u64]) -> u32
    requires { sum (map count_ones words.now) < 2 ^ 32 }
    ensures { result ≡ sum (map count_ones words.now) }
{
    words.iter().map(|word| word.count_ones()).sum()
}
