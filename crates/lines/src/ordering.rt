// A line that says the order of a step, and the order where no line says it.
ghost use Rattle.std.specs.Prelude.{◌≡◌};
ghost use Rattle.lines.specs.Lines.{order_named};
ghost use Rattle.lines.specs.Effect.{order_effect};
ghost use Rattle.lines.specs.Memory.{order_in, fix_order, reading_after};

use crate::problem::Sizes;
use crate::refusal::Refusal;
use basics::{Order, same};

// The order that a second field names, if it names one.
fn order_named(field: &[u8]) -> Option<Order>
    ensures { result ≡ order_named field.now }
{
    if same(field, b"set") {
        return Some(Order::Set);
    }
    if same(field, b"read") {
        return Some(Order::Read);
    }
    None
}

fn fix_order(o: Order, s: Sizes) -> Sizes
    ensures { result ≡ fix_order o s }
{
    Sizes {
        order: Some(o),
        ..s
    }
}

// Line `line` says the order of a step, which no line before it may have said.
pub fn add_order(field: &[u8], line: usize, s: Sizes) -> Result<Sizes, Refusal>
    ensures { result ≡ reading_after (order_effect line s.order (order_named field.now)) s }
{
    match (s.order, order_named(field)) {
        (None, Some(order)) => Ok(fix_order(order, s)),
        _ => Err(Refusal::BadLine(line)),
    }
}

// The order of a step: what a line says, and where none says it, the default, which stands here alone.
pub fn order_of(s: Sizes) -> Order
    ensures { result ≡ order_in s }
{
    s.order.unwrap_or(Order::Set)
}

// The sizes at the end of a text, where the order is fixed.
pub fn ordered(s: Sizes) -> Sizes
    ensures { result ≡ fix_order (order_in s) s }
{
    fix_order(order_of(s), s)
}
