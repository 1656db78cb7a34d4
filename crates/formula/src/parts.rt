// The parts of a formula, one number for each, read by value.
ghost use Rattle.std.specs.Prelude.{◌≡◌, ◌<◌, length};
ghost use Rattle.formula.specs.Parts.{part_at, is_temporal, byte_of};
ghost use Rattle.formula.specs.Codes.{code_of, part_of, parts_in};

use crate::formula::{Op, is_temporal};

// A part of a formula: an operator, and the indices of its operands; a signal's number is its left one.
#[derive(Clone, Copy, PartialEq, Eq, Debug)]
pub struct Part {
    pub kind: Op,
    pub left: u8,
    pub right: u8,
}

// The number that holds a part.
pub fn code_of(p: Part) -> u32
    ensures { result ≡ code_of p }
{
    u8::from(p.kind) as u32 + 256 * (p.left as u32) + 65536 * (p.right as u32)
}

// The part that a number holds.
#[tactic(auto, unfolding(crate::specs::Codes::part_of))]
pub fn part_of(code: u32) -> Part
    ensures { result ≡ part_of code }
{
    Part {
        kind: Op::from((code % 256) as u8),
        left: (code / 256 % 256) as u8,
        right: (code / 65536 % 256) as u8,
    }
}

// Part i.
#[tactic(auto, using(crate::proofs::CodesLaws::part_in))]
pub fn part_at(parts: &[u32], i: usize) -> Part
    requires { i < length parts.now }
    ensures { result ≡ part_at (parts_in parts.now) i }
{
    part_of(parts[i])
}

// Whether part i is a temporal operator.
#[tactic(auto, using(crate::proofs::CodesLaws::temporal_in))]
pub fn is_temporal_at(parts: &[u32], i: usize) -> bool
    requires { i < length parts.now }
    ensures { result ≡ is_temporal (byte_of (part_at (parts_in parts.now) i).kind) }
{
    is_temporal((parts[i] % 256) as u8)
}
