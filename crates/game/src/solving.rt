// The whole call.
ghost use Rattle.std.specs.Prelude.{◌≡◌, ◌+◌, ◌*◌, ◌^◌, ◌≤◌, length};
ghost use Rattle.formula.specs.Codes.{parts_in};
ghost use Rattle.rules.specs.Problem.{read_problem};
ghost use Rattle.rules.specs.Trace.{counts_of};
ghost use Rattle.search.specs.Limits.{state_limit, set_size};
ghost use Rattle.search.specs.Memory.{sets_of};
ghost use Rattle.obligations.specs.Letters.{letters_of};
ghost use Rattle.obligations.specs.Values.{Stored};
ghost use Rattle.states.specs.Planes.{Sized};
ghost use Rattle.states.specs.States.{states_of};
ghost use Rattle.basics.specs.Limits.{kind_limit};
ghost use Rattle.play.specs.Cells.{table_size};
ghost use Rattle.basics.specs.Lists.{padded, written};
ghost use Rattle.game.specs.Solution.{parts_solution};
ghost use Rattle.game.specs.SolvedAs.{solved_with, solved_of, solved_from, solved_by, told_solved, cells_of, cells_from, table_after};
ghost use Rattle.game.specs.SolvedAs.{work_after, used_rows, SolvedAs};
ghost use Rattle.game.specs.StateMemory.{sets_from, memory_solution};
ghost use Rattle.lines.specs.Memory.{order_in};

use basics::Order;
use beliefs::{Automaton, explore_beliefs};
use lines::{PART_LIMIT, Refusal, Sizes, order_of};
use rules::{WORK_SIZE, read};
use search::{LETTER_LIMIT, SET, STATE_LIMIT};
use states::explore;
use tables::{Arena, BELIEF_LIMIT, Outcome, PAIR_LIMIT, Shape, TABLE_SIZE, Table, answer};

// Bytes of work memory that hold the states' sets, with room for one more than the most.
const SETS_SIZE: usize = (STATE_LIMIT + 1) * SET;

// What is answered for a problem of an order, with so many observed signals.
fn solved_with(order: Order, observed: usize, outcome: Option<Outcome>) -> Result<Table, Refusal>
    ensures { result ≡ solved_with order observed outcome }
{
    let Outcome { rows, worst_case } = outcome.ok_or(Refusal::Unrealizable)?;
    let shape = Shape {
        rows,
        observed,
        order,
    };
    Ok(Table { shape, worst_case })
}

// The answer from a problem's states, its signals counted by `sizes`.
fn solve_states(sizes: Sizes, automaton: &Automaton, table: &mut [u16]) -> Result<Table, Refusal>
    requires outputs_few { sizes.outputs ≤ kind_limit }
    requires observed_few { sizes.observed ≤ kind_limit }
    requires pairs { automaton.now.pairs ≡ 2 ^ (sizes.outputs + sizes.observed) }
    requires table_size_in_bounds { table_size ≤ length table.old }
    ensures value { result ≡ solved_of (order_in sizes) sizes.observed (memory_solution (order_in sizes) automaton.now.sets.now
        automaton.now.successors.now automaton.now.states (2 ^ sizes.outputs) (2 ^ sizes.observed) automaton.now.hiddens) }
    ensures table_after { table.new ≡ written (cells_of (memory_solution (order_in sizes) automaton.now.sets.now
        automaton.now.successors.now automaton.now.states (2 ^ sizes.outputs) (2 ^ sizes.observed) automaton.now.hiddens)) table.old }
{
    let mut moves = [0u8; BELIEF_LIMIT * PAIR_LIMIT];
    let mut finals = [0u8; BELIEF_LIMIT];
    let found = explore_beliefs(automaton, &mut moves, &mut finals);
    let count = found.ok_or(Refusal::TooManyBeliefs)?;
    let arena = Arena {
        moves: &moves,
        finals: &finals,
        count,
        choices: 1 << sizes.outputs,
        observations: 1 << sizes.observed,
    };
    let order = order_of(sizes);
    let outcome = answer(order, &arena, table);
    solved_with(order, sizes.observed, outcome)
}

// The answer for a formula's parts and its signals. The states' sets are made and kept in the memory that is lent for them.
fn solve_parts(
    parts: &[u32],
    sizes: Sizes,
    sets: &mut [u8],
    table: &mut [u16],
) -> Result<Table, Refusal>
    requires stored { Stored parts.now }
    requires sized { Sized parts.now sizes }
    requires sets_len { length sets.old ≡ (state_limit + 1) * set_size }
    requires table_size_in_bounds { table_size ≤ length table.old }
    ensures value { result ≡ solved_of (order_in sizes) sizes.observed (parts_solution (order_in sizes) (parts_in parts.now) (counts_of sizes)) }
    ensures table_after { table.new
        ≡ written (cells_of (parts_solution (order_in sizes) (parts_in parts.now) (counts_of sizes))) table.old }
    ensures sets_after { sets.new ≡ padded (length sets.old)
        (sets_of (states_of (parts_in parts.now) (letters_of (counts_of sizes)) state_limit)) }
{
    let mut successors = [0u8; STATE_LIMIT * LETTER_LIMIT];
    let found = explore(parts, sizes, sets, &mut successors);
    let states = found.ok_or(Refusal::TooManyStates)?;
    let automaton = Automaton {
        sets,
        successors: &successors,
        states,
        // A product: from one shift LLVM makes a shift for each hidden value in `beliefs`, from a product an addition.
        pairs: (1 << sizes.outputs) * (1 << sizes.observed),
        hiddens: 1 << sizes.hidden,
    };
    solve_states(sizes, &automaton, table)
}

// The answer for a problem's text. The states' sets are made and kept in the memory that is lent for them.
fn solve_source(source: &[u8], sets: &mut [u8], table: &mut [u16]) -> Result<Table, Refusal>
    requires sets_len { length sets.old ≡ (state_limit + 1) * set_size }
    requires table_size_in_bounds { table_size ≤ length table.old }
    ensures value { result ≡ solved_from (read_problem source.now) }
    ensures table_after { table.new ≡ written (cells_from (read_problem source.now)) table.old }
    ensures sets_after { sets.new ≡ sets_from (read_problem source.now) sets.old }
{
    let mut parts = [0u32; PART_LIMIT];
    let s = read(source, &mut parts)?;
    solve_parts(&parts[..s.parts], s, sets, table)
}

// Solves a problem: the table of a strategy that wins against every behaviour with the smallest worst case, or one refusal.
// Refusals: 12, then 1 to 8, 9, 10, 11. Only the table's used rows change; work memory is all zero afterwards, but untouched
// where either is too short. The states' sets are made and kept in its front (`put_set` in `search` says how) until it is cleared.
pub fn solve(source: &[u8], work: &mut [u8], table: &mut [u16]) -> Result<Table, Refusal>
    ensures answer { result ≡ solved_by (length work.old) (length table.old) source.now }
    ensures rows { table.new ≡ table_after (length work.old) source.now table.old }
    ensures cleared { work.new ≡ work_after (length table.old) work.old }
    ensures due { SolvedAs (length work.old) (length table.old) source.now (told_solved result)
        (used_rows result table.new) }
{
    if (work.len() < WORK_SIZE) | (table.len() < TABLE_SIZE) {
        return Err(Refusal::ShortMemory);
    }
    let r = solve_source(source, &mut work[..SETS_SIZE], table);
    work.fill(0);
    r
}
