// What `synth --help` writes: one screen.
pub(crate) const TEXT: &[u8] =
    b"synth finds a controller for a problem of LTLf synthesis under partial
observability, with the smallest worst-case number of steps, or says that none
wins, or refuses the problem with a number.

  synth            reads the problem on standard input, to its end
  synth FILE       reads it in a file
  synth --help     writes this text

A problem is lines of two fields parted by ONE TAB, each ended by a line feed:
  out   NAME       a signal that the controller sets
  see   NAME       a signal that it reads
  hid   NAME       a signal that it never sees
  rule  FORMULA    what the run must satisfy; rules are joined by \"and\"
  order set        in each step the controller sets its signals, and then reads;
                   it does so, too, where no line says the order
  order read       in each step it reads, and then sets
A name is a lowercase letter and up to 11 more, digits or _; not true, false or
a plan word. A formula uses names declared above it. Operators, loosest first:
  p -> q           implies; groups to the right
  p | q            or; to the left
  p & q            and; to the left
  p U q, p R q     p until q, and q must come; p releases q; to the right
  !p               not; the prefixes bind tightest: !p U q is (!p) U q
  X p, N p         at the next step; at the last step X p is false, N p true
  F p, G p         at some step from here; at all of them
  true, false, NAME, (p), and the plan words, whose a and b have none of XNFGUR:
  once(a)          a is true in one stretch of steps at most
  before(a,b)      where a is, b was at an earlier step
  after(a,b)       where a is, b is then or later
  within(n,a,b)    where a is, b is then or up to n steps later; n is 0 to 5
  during(m,n,a)    a at steps m to n from here on, if there; 1 <= m <= n <= 7

The answer is a table, its fields parted by tabs: here for out a, see s, and
rule s -> X a.
  table  3  2         3 rows; every run stops after 2 steps at the latest
  row  0  2  0  1  2  row 0, the start, at most 2 steps to go: choice 0; then
                      row 1 if s is false, else 2
  row  1  0  stop     row 1, 0 steps to go: the run ends
  row  2  1  1  1  1  row 2, 1 step to go: choice 1 sets a; then row 1
A choice is the sum of the out signals that are set: 1 for the first declared,
2, 4 and 8 for those after it. An observation is such a sum of the see signals;
behind the choice stands the next row for observation 0, 1, 2 and so on.
With order read the first word is rtable, and a row has a choice and a next row
for observation 0, then for 1, and so on: row  0  2  0  1  0  2 is 2 steps to go,
choice 0, then row 1, if s is false, and choice 0, then row 2, if s is true.

Or the answer is one line: refused, a number, and the line it is about, or 0:
   1  over 4,096 bytes
   2  the line is not a word, one tab, a name, 1 to 240 bytes of formula or an
      order, and a line feed; or it is a second order. Often a space for the
      tab, or a carriage return (CRLF)
   3  the name is declared already
   4  the fifth signal of its kind, or the tenth
   5  the formula breaks the grammar. Often && for &, || for |, or CRLF, or
      one of XNFGUR or a plan word inside a plan word
   6  the formula has a name that is not declared above
   7  the 97th name, constant, operator or joining \"and\", or the 8th of XNFGUR;
      once has 3 of these, before 1, after 2, within n + 1, during n - 1
   8  no rule
   9  over 128 states
  10  over 256 beliefs
  11  no controller wins. Often X where N is meant: s at the last step breaks
      G(s -> X a), and does not break G(s -> N a)

What cannot be read or written is told on standard error. A problem that was not
read to its end gets no answer, but for number 1. The exit status tells nothing:
it is 0 after a refusal or a failure too.
";
