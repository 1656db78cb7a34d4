// Patterns a word at a time: bit j of a word is for pattern j of a block.
ghost use Rattle.std.specs.Prelude.{◌≡◌, ◌<◌};
ghost use Rattle.basics.specs.Limits.{word_size};
ghost use Rattle.obligations.specs.Words.{obligation_lanes, owed_lanes};

use basics::WORD_BITS;
use formula::{Op, Truth, owed_by};

// How many obligations a word has all values of, and the patterns in which each is true.
const LOW: u8 = WORD_BITS as u8;

const LOW_WORDS: [u64; WORD_BITS] = [
    0xAAAA_AAAA_AAAA_AAAA,
    0xCCCC_CCCC_CCCC_CCCC,
    0xF0F0_F0F0_F0F0_F0F0,
    0xFF00_FF00_FF00_FF00,
    0xFFFF_0000_FFFF_0000,
    0xFFFF_FFFF_0000_0000,
];

// Obligation k in the patterns of block w: a low one is the same in every block, another has one answer for a whole block.
pub(crate) fn obligation_lanes(k: u8, w: usize) -> u64
    requires { k < word_size }
    ensures { result ≡ obligation_lanes k w }
{
    if k < LOW {
        LOW_WORDS[k as usize]
    } else {
        u64::all((w >> (k - LOW)) & 1 == 1)
    }
}

// What a part's obligation about a step is worth there, from its left operand's value and its own.
pub fn owed_lanes(op: Op, x: u64, v: u64) -> u64
    ensures { result ≡ owed_lanes op x v }
{
    owed_by(op, x, v)
}
