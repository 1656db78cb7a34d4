// What `control --help` writes: one screen.
pub(crate) const TEXT: &[u8] =
    b"control runs a controller table by hand, as it is tried at the bench: it writes
the first choice, then reads an observation and writes the next choice, and so
on until the table says stop. On a card that begins with rtable the first
observation comes first: each is answered by the choice for its own step.

  control CARD     runs the table whose text stands in the file CARD
  control --help   writes this text

synth FILE >CARD writes the table for the problem in FILE to CARD.

Type the observation of each step on a line of its own: the sum of the see
signals that are true, 1 for the first declared, 2, 4 and 8 for those after it,
and 0 where none is true. Nothing else stands on the line: no space, sign or
leading zero, no carriage return. The end of the input ends the run.

The start is answered by one line, and so is each line that is typed, before the
next is read; on an rtable stop is a second line behind the last choice. Fields
are parted by tabs:
  choice  C  N     what to set now: such a sum of the out signals to be set
  ready  N         the start of an rtable: nothing is set yet
  stop  0          the run has ended; no more is read
  refused  15  0   the line is no observation of this table. Nothing has moved,
                   and the next line is read
  refused  17  L   CARD is no table as synth writes it; line L is the first one
                   at fault, from 1. Often it is a problem, or was edited. No
                   line is read

N is how many steps are left at most. On a table that counts the step whose
choice was just written, and on an rtable the steps behind it.

An example: a flap is pulled (out pull) and seen to be open or not (see open).
  $ synth examples/flap.sheet >flap.card      (as in examples/flap.out)
  $ control flap.card
  choice  1  3     pull; at most 3 steps are left
  0                typed: it is not open
  choice  1  2     pull again
  yes              typed: no observation
  refused  15  0
  1                typed: it is open
  stop  0

What cannot be read or written is told on standard error, and ends the run; a
line that was not read to its end is not answered. The exit status tells
nothing: it is 0 after a refusal or a failure too.
";
