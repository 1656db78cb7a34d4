// The text of a table, and that of a refusal, put into lent bytes.
ghost use Rattle.std.specs.Prelude.{◌≡◌, ◌+◌, ◌*◌, ◌^◌, ◌≤◌, ◌<◌, length};
ghost use mathlib.Core.List.{[], ◌∷◌, ◌++◌, flat_map};
ghost use Rattle.basics.specs.Limits.{kind_limit};
ghost use Rattle.play.specs.Limits.{side_limit};
ghost use Rattle.play.specs.Cells.{row_size};
ghost use Rattle.basics.specs.Lists.{written};
ghost use Rattle.printer.specs.Limits.{text_size};
ghost use Rattle.printer.specs.Text.{shown_from, shown_count, shown_fields, row_fields, row_text, rows_text, table_word, table_text, refusal_text};
ghost use Rattle.basics.specs.Text.{decimal, field, line};
ghost use Rattle.basics.specs.Writer.{Puts};

use basics::{LINE_END, Order, Writer};
use lines::{Refusal, number, place};
use tables::{STOP, Shape};
use wellformed::SizedTable;

// Where the printed cells of a row begin.
pub fn shown_from(order: Order) -> usize
    ensures { result ≡ shown_from order }
{
    match order {
        Order::Set => 0,
        Order::Read => 1,
    }
}

// How many they are for n observations.
pub fn shown_count(order: Order, n: usize) -> usize
    requires { n ≤ side_limit }
    ensures { result ≡ shown_count order n }
{
    match order {
        Order::Set => 1 + n,
        Order::Read => 2 * n,
    }
}

// A field for each of those of a row.
fn put_shown(out: &mut Writer<'_>, table: &SizedTable, row: usize)
    requires row_lt_rows { row < table.now.shape.rows }
    requires row_in_bounds { out.old.at + length (flat_map field (shown_fields table.now.shape.order table.now.cells.now row
        (2 ^ table.now.shape.observed))) ≤ length out.old.text.now }
    ensures { Puts out.old out.new (flat_map field (shown_fields table.now.shape.order table.now.cells.now row (2 ^ table.now.shape.observed))) }
{
    let from = shown_from(table.shape.order);
    for i in 0..shown_count(table.shape.order, table.observations()) {
        out.field(table.cell(row, from + i) as usize);
    }
}

// What a row does: `stop`, or its printed cells.
fn put_moves(out: &mut Writer<'_>, table: &SizedTable, row: usize)
    requires row_lt_rows { row < table.now.shape.rows }
    requires row_in_bounds { out.old.at + length (flat_map field (row_fields table.now.cells.now table.now.shape row)) ≤ length out.old.text.now }
    ensures { Puts out.old out.new (flat_map field (row_fields table.now.cells.now table.now.shape row)) }
{
    if table.first(row) == STOP {
        out.bytes(b"\tstop");
        return;
    }
    put_shown(out, table, row);
}

// A row's line.
fn put_row(out: &mut Writer<'_>, table: &SizedTable, row: usize)
    requires row_lt_rows { row < table.now.shape.rows }
    requires row_in_bounds { out.old.at + length (row_text table.now.cells.now table.now.shape row) ≤ length out.old.text.now }
    ensures { Puts out.old out.new (row_text table.now.cells.now table.now.shape row) }
{
    let rank = table.rank(row) as usize;
    out.bytes(b"row");
    out.field(row);
    out.field(rank);
    put_moves(out, table, row);
    out.byte(LINE_END);
}

// The lines of all rows.
fn put_rows(out: &mut Writer<'_>, table: &SizedTable)
    requires { out.old.at + length (rows_text table.now.cells.now table.now.shape table.now.shape.rows) ≤ length out.old.text.now }
    ensures { Puts out.old out.new (rows_text table.now.cells.now table.now.shape table.now.shape.rows) }
{
    for row in 0..table.shape.rows {
        put_row(out, table, row);
    }
}

// A table's first line.
fn put_head(out: &mut Writer<'_>, shape: Shape, worst: usize)
    requires { out.old.at + length (line (table_word shape.order) (decimal shape.rows ∷ decimal worst ∷ [])) ≤ length out.old.text.now }
    ensures { Puts out.old out.new (line (table_word shape.order) (decimal shape.rows ∷ decimal worst ∷ [])) }
{
    match shape.order {
        Order::Set => out.line(b"table", shape.rows, worst),
        Order::Read => out.line(b"rtable", shape.rows, worst),
    }
}

// Puts a table, and answers its length.
pub fn put_table(text: &mut [u8], table: &SizedTable, worst: usize) -> usize
    requires { length (table_text table.now.cells.now table.now.shape worst) ≤ length text.old }
    ensures value { result ≡ length (table_text table.now.cells.now table.now.shape worst) }
    ensures text_after { text.new ≡ written (table_text table.now.cells.now table.now.shape worst) text.old }
{
    let mut out = Writer { text, at: 0 };
    put_head(&mut out, table.shape, worst);
    put_rows(&mut out, table);
    out.at
}

// Puts a refusal, and answers its length.
pub fn put_refusal(text: &mut [u8], r: Refusal) -> usize
    requires { text_size ≤ length text.old }
    ensures value { result ≡ length (refusal_text r) }
    ensures text_after { text.new ≡ written (refusal_text r) text.old }
{
    let mut out = Writer { text, at: 0 };
    out.line(b"refused", number(r), place(r));
    out.at
}
