// Cells: one number for a part of a formula, which does not tell its place; and the numbers of parts, which do.
ghost use Rattle.std.specs.Prelude.{◌≡◌, ◌+◌, ◌-◌, ◌%◌, ◌≤◌, ◌<◌, length, set};
ghost use Rattle.basics.specs.Limits.{index_limit};
ghost use Rattle.std.proofs.lemmas.List.Edits.{sets};
ghost use Rattle.syntax.specs.Cells.{cell, two_sided, code_at, codes_from};

// What stands beside the kind of an operator with one operand, and of one with two.
pub const ONE_SIDED: u32 = 256;

const TWO_SIDED: u32 = 512;

// Past the end nothing is written.
pub(crate) fn put_cell(cells: &mut [u32], n: usize, v: u32)
    ensures { cells.new ≡ set cells.old n v }
{
    if n < cells.len() {
        cells[n] = v;
    }
}

// Cell n: a part's kind and what stands beside it.
pub fn put(cells: &mut [u32], n: usize, k: u8, x: u32)
    requires { x < 65536 }
    ensures { cells.new ≡ set cells.old n (cell k x) }
{
    put_cell(cells, n, k as u32 + 256 * x);
}

pub fn put_leaf(cells: &mut [u32], n: usize, k: u8, v: usize)
    ensures { cells.new ≡ set cells.old n (cell k (v % 256)) }
{
    put(cells, n, k, (v % 256) as u32);
}

// An operator with two operands, the right one in the cells from c on.
pub fn put_two(cells: &mut [u32], n: usize, k: u8, c: usize)
    requires { c ≤ n }
    ensures { cells.new ≡ set cells.old n (cell k (two_sided (n - c))) }
{
    put(cells, n, k, TWO_SIDED + ((n - c) % 256) as u32);
}

// The index that is s places before the last of n, 0 where there is none.
fn index_before(n: usize, s: u32) -> u32
    requires { n ≤ index_limit }
    ensures { result ≡ n - 1 - s }
{
    (n as u32).saturating_sub(1).saturating_sub(s)
}

// The number of part n from its cell.
fn code_at(n: usize, cell: u32) -> u32
    requires { n ≤ index_limit }
    ensures { result ≡ code_at n cell }
{
    let kind = cell % 256;
    let x = cell / 256;
    if x < ONE_SIDED {
        return cell;
    }
    let last = index_before(n, 0);
    if x < TWO_SIDED {
        return kind + 256 * last;
    }
    kind + 256 * index_before(n, x - TWO_SIDED) + 65536 * last
}

// Writes the numbers of the parts from n on.
#[tactic(auto, unfolding(crate::specs::Cells::codes_from))]
pub fn put_codes(cells: &[u32], n: usize, parts: &mut [u32])
    requires { (n + length cells.now ≤ length parts.old) × (length parts.old ≤ index_limit) }
    ensures { parts.new ≡ sets parts.old n (codes_from n cells.now) }
{
    for i in 0..cells.len() {
        parts[n + i] = code_at(n + i, cells[i]);
    }
}
