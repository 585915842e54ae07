//! The help texts: the whole text of `moc --help`, and the text of a subcommand from below its usage line. Lines have
//! at most 80 columns, and `tests/pages.py` runs the command after each `Example:`.

/// The text of `moc --help`. The line of each subcommand is the first line of its help.
pub const OVERVIEW: &str = "\
Multi-Order Coverage maps (IVOA MOC 2.0) and HEALPix cell numbers

Usage: moc <COMMAND>

Coverages, from standard input:
  convert     Converts a coverage from one text format to another
  check       Validates a coverage, or reports the first error and its position
  describe    Prints statistics of a coverage
  combine     Prints a union, an intersection or a difference of coverages
  degrade     Degrades a coverage to an order
  complement  Prints the complement of a coverage
  draw        Draws one or two coverages as an SVG picture

Maps, which keep one coverage and reply to lines of standard input:
  run         Runs a script of commands
  play        Plays a schedule of lock steps of several clients
  crew        Runs a script of commands on N threads

Cells:
  ring        Prints the ring number of a nested cell
  nest        Prints the nested number of a ring number
  uniq        Prints the NUNIQ number of a nested cell
  near        Prints the nested cells that share a corner point with a cell
  cell        Prints the order and the nested number of a NUNIQ number
  renumber    Converts cell numbers from one numbering to another

Help:
  faults      Lists the exit statuses and the errors
  help        Prints this text, or the help of a subcommand: moc help run

Options:
  -h, --help     Print help
  -V, --version  Print version

Pixels are cells of order 29. A coverage is written in the ASCII format of
MOC 2.0, for example 3/10 12-15 4/2.

Example:
  echo '0/0;1/3' | moc combine difference ascii
prints
  1/0-2";

/// The help of a subcommand, below its usage line.
#[derive(Clone, Copy)]
pub enum Topic {
    Script,
    Schedule,
    Lanes,
    Ring,
    Nest,
    Uniq,
    Near,
    Cell,
    Check,
    Statistics,
    Picture,
    Conversion,
    Combination,
    Degrading,
    Complement,
    Renumbering,
    Faults,
}

impl Topic {
    /// Returns the lines of the help.
    pub fn text(self) -> &'static str {
        match self {
            Topic::Script => SCRIPT,
            Topic::Schedule => SCHEDULE,
            Topic::Lanes => LANES,
            Topic::Ring => RING,
            Topic::Nest => NEST,
            Topic::Uniq => UNIQ,
            Topic::Near => NEAR,
            Topic::Cell => CELL,
            Topic::Check => CHECK,
            Topic::Statistics => STATISTICS,
            Topic::Picture => PICTURE,
            Topic::Conversion => CONVERSION,
            Topic::Combination => COMBINATION,
            Topic::Degrading => DEGRADING,
            Topic::Complement => COMPLEMENT,
            Topic::Renumbering => RENUMBERING,
            Topic::Faults => FAULTS,
        }
    }
}

/// The text of `moc run --help` below the usage line.
const SCRIPT: &str = "\
Reads a script from standard input, one command per line, and runs it on one
map, a coverage that starts empty:
  add MOC     adds the coverage; replies how many pixels are new
  remove MOC  removes the coverage; replies how many pixels are removed
  keep MOC    removes all but the coverage; replies how many pixels are removed
  claim MOC   adds the coverage if the map has no pixel of it; otherwise changes
              nothing and replies how many pixels of it the map has
  invert      complements the map; replies how many pixels change: all
  degrade K   degrades the map to order K; replies how many pixels are new
  count MOC   replies how many pixels of the coverage are in the map
  read MOC    replies the intersection of the coverage and the map
  near K I    replies whether the map has a pixel of cell I of order K or of a
              cell that touches it
`@K` before a coverage degrades the coverage to order K first. Up to 16 commands
separated by `;` run as one and have one line of replies. An invalid line
changes nothing and has the reply `fault NAME`; `moc faults` explains the
names, and `moc check ascii` reports the position of an error in a coverage.

Example:
  printf 'add 3/10 12-15 4/2 ; count 0/0\\n' | moc run
prints
  changed 23643898043695104 ; total 23643898043695104";

/// The text of `moc play --help` below the usage line.
const SCHEDULE: &str = "\
Reads a schedule from standard input, one step per line, and plays it on one
map, a coverage that starts empty. The map has 12 parts, one for each base
pixel, and a lock for each part:
  begin C BATCH  client C begins a batch of commands, written as in `moc run`
  take C         client C locks the next part that its batch reads or changes;
                 parts are 0 to 11 and are locked in ascending order
  edit C B       client C changes part B, after it has locked all its parts; its
                 first edit commits the batch
  give C B       client C unlocks part B
  quit C         client C abandons its batch, before it has changed a part
  end C          client C ends its batch and gets the replies
A step that is not permitted has the reply `refused NAME`, an invalid line
`fault NAME`; neither changes anything. After the last line, `order` lists the
lines that began the committed batches, in the order of the batches, and the
last line is the map, or `midway N` if N clients have not ended.

Names after `refused`:
  NotIdle        the client has a batch already
  Idle           the client has no batch
  PartHeld       another client holds the lock of the next part
  AllTaken       the client has locked all parts of its batch
  NotAllTaken    the client has not locked all parts of its batch
  NotHeld        the client does not hold the lock of the part
  AlreadyEdited  the client has changed the part
  NotEdited      the client has not changed the part, and does not quit
  BegunEditing   the client has changed a part, so it cannot quit
  Quitting       the client has quit: it can only give and end
  StillHolding   the client still holds the lock of a part
  NothingDone    the client has locked no part, and has not quit
  TooMany        2^64 - 1 batches have begun

Example:
  printf 'begin 1 add 0/3\\ntake 1\\nedit 1 3\\ngive 1 3\\nend 1\\n' | moc play
prints
  ok
  ok
  ok
  ok
  changed 288230376151711744
  order 1
  cover 0/3";

/// The text of `moc crew --help` below the usage line.
const LANES: &str = "\
Reads a whole script as that of `moc run` and deals its lines that are not
blank to N threads in turn, 1 to 64, which work on one map at the same time.
Each thread keeps the order of its own lines; the order of lines of different
threads is not determined. The replies are in the order of the lines, followed
by the map.

Example:
  printf 'add 0/0\\nadd 0/1\\n' | moc crew 2
prints
  changed 288230376151711744
  changed 288230376151711744
  cover 0/0-1";

/// The text of `moc ring --help` below the usage line.
const RING: &str = "\
Ring numbers count the cells of an order along rings of equal latitude, from the
north pole. Cells of order k are numbered from 0 to 12 times 4^k - 1; another
number is an error, `fault CellTooLarge`. `moc renumber` converts many numbers.

Example:
  moc ring 1 18
prints
  27";

/// The text of `moc nest --help` below the usage line.
const NEST: &str = "\
The inverse of `moc ring`. Order k has ring numbers from 0 to 12 times 4^k - 1;
another number is an error, `fault RingTooLarge`.

Example:
  moc nest 1 27
prints
  18";

/// The text of `moc uniq --help` below the usage line.
const UNIQ: &str = "\
The NUNIQ number of a cell is 4^(ORDER+1) + CELL. Cells of order k are numbered
from 0 to 12 times 4^k - 1; another number is an error, `fault CellTooLarge`.

Example:
  moc uniq 3 10
prints
  266";

/// The text of `moc near --help` below the usage line.
const NEAR: &str = "\
Prints six to eight cells in ascending order, without the cell itself. Cells of
order k are numbered from 0 to 12 times 4^k - 1; another number is an error,
`fault CellTooLarge`.

Example:
  moc near 2 3
prints
  0 1 2 4 6 8 9 12";

/// The text of `moc cell --help` below the usage line.
const CELL: &str = "\
The inverse of `moc uniq`. NUNIQ numbers go from 4 to 2^62 - 1: another number
is an error, `fault NotUniq`.

Example:
  moc cell 266
prints
  3/10";

/// The text of `moc check --help` below the usage line.
const CHECK: &str = "\
Prints `ok` if the text is a coverage. Otherwise standard error has the name of
the first error and a line with its position and a quotation: the byte, its line
and the byte in that line (ascii), the line (uniq), or the order and, for an
item, its index in the array (json). `BadOrder` has the index of the name,
`NotJson` only a line and a column, if any; `NotObject` and `TooLong` have no
position. Lines are counted from 1, bytes and indices from 0. A line states what
the text must have there. If the text looks like another format or another kind
of file, a line states which. `moc faults` explains the names. `auto` reads a
text that begins with `{` as json, any other text as ascii.

Example:
  printf '1/0-3\\n2/7-5' | moc check ascii
writes to standard error
  fault Backwards
  byte 8, line 2, byte 2 of it: `2/7-5`
  a range goes from its first cell to its last";

/// The text of `moc describe --help` below the usage line.
const STATISTICS: &str = "\
Prints one line each for the deepest order that the text names, the number of
pixels (cells of order 29), their share of the sky, their area in square
degrees, the number of ranges of pixels, the number of cells, and the number of
cells of each order. Share and area have twelve digits after the point, or 24 if
all digits would be 0. `auto` reads a text that begins with `{` as json, any
other text as ascii.

Example:
  echo '1/0-3 2/20' | moc describe ascii
prints
  deepest 2
  pixels 306244774661193728
  share 0.088541666666
  area 3652.605943958997
  ranges 2
  cells 2
  order 0 1
  order 2 1";

/// The text of `moc convert --help` below the usage line.
const CONVERSION: &str = "\
The output also states the deepest order that the input names; a NUNIQ list
names none. An error in the input is reported by its name alone; use `moc check`
for its position.

Example:
  echo '2/0-3' | moc convert ascii json
prints
  {\"1\":[0],\"2\":[]}";

/// The text of `moc combine --help` below the usage line.
const COMBINATION: &str = "\
Reads one or more texts separated by `;`, each of at most 1 GiB, and combines
them from left to right; blanks after the last `;` are ignored. Prints the
result in the format of the first text, with the deepest order that a text
names.
  union         the pixels in any text
  intersection  the pixels in all texts
  difference    the pixels in the first text and in no other text
  symmetric     the pixels in an odd number of texts
For an error in a text, standard error has its name, the number of the text,
from 1, and the position, as `moc check` reports it. `auto` reads each text that
begins with `{` as json, any other text as ascii.

Example:
  echo '0/0 1/4-5 ; 1/3-4 2/20 32' | moc combine intersection ascii
prints
  1/3-4 2/20

Many files:
  for f in *.moc; do cat \"$f\"; printf ';'; done | moc combine union ascii
A union on all processors, 25 files at a time:
  union() {
    for f in \"$@\"; do cat \"$f\"; printf ';'; done | moc combine union ascii
  }
  export -f union
  printf '%s\\0' *.moc | xargs -0 -n 25 -P $(nproc) \\
    bash -c 'union \"$@\" > $(mktemp part.XXXXXX)' _ &&
  union part.*";

/// The text of `moc degrade --help` below the usage line.
const DEGRADING: &str = "\
Prints each cell of order ORDER that has a pixel of the coverage, in the format
of the text. The output also states ORDER, or the deepest order that the text
names if that is coarser; it states none if the text names none. Errors are
reported as by `moc check`. `auto` reads a text that begins with `{` as json,
any other text as ascii.

Example:
  echo '0/0 3/300 5/' | moc degrade 1 ascii
prints
  0/0 1/18";

/// The text of `moc complement --help` below the usage line.
const COMPLEMENT: &str = "\
Prints the sky without the coverage, in the format of the text. The output also
states the deepest order that the text names, if any. Errors are reported as by
`moc check`. `auto` reads a text that begins with `{` as json, any other text as
ascii.

Example:
  echo '0/0-10 1/44 2/' | moc complement ascii
prints
  1/45-47 2/";

/// The text of `moc draw --help` below the usage line.
const PICTURE: &str = "\
Prints an SVG picture in the HEALPix projection: north is up and east is left,
as on sky charts; longitude 0 is at both edges, 180 in the middle. The sky is
grey, with outlines and numbers of the base pixels. Cells of order 7 and coarser
are drawn whole; deeper cells are drawn as their cell of order 7, in one of four
shades, by how much of it is covered. Two coverages are separated by `;`: blue
is in the first only, orange in the second only, black in both; a cell that has
several of them has the colour of the most pixels. FIRST and SECOND are names of
the coverages in the legend. `auto` reads a text that begins with `{` as json,
any other text as ascii.

Example:
  echo '1/0-3 2/20' | moc draw ascii > sky.svg

Two coverages:
  { cat a.moc; echo ';'; cat b.moc; } | moc draw ascii A B > both.svg";

/// The text of `moc renumber --help` below the usage line.
const RENUMBERING: &str = "\
Each line of standard input has the number of a cell of order ORDER in the
numbering FROM; the reply is its number in the numbering TO. An invalid line has
the reply `fault NAME`; a blank line has no reply.
  nest  the number in the nested scheme, below 12 times 4^ORDER
  ring  the number in the ring scheme, from the north, below 12 times 4^ORDER
  uniq  the NUNIQ number: 4^(ORDER+1) plus the number in the nested scheme

Example:
  printf '0\\n3\\n48\\n' | moc renumber nest ring 1
prints
  13
  0
  fault CellTooLarge";

/// The text of `moc faults`, and of `moc faults --help` below the usage line.
pub const FAULTS: &str = "\
Statuses:
  0  success, also if lines had the reply `fault`, and after help
  1  invalid number or text, or a line too long; standard error has `fault NAME`
  2  invalid command line
  3  input or output failed, out of memory, or no thread: `fault NAME`

Numbers of cells:
  CellTooLarge     the order has no such cell; order k has 12 times 4^k, from 0
  RingTooLarge     the order has no such ring number; it has 12 times 4^k
  NotUniq          not a NUNIQ number, 4 to 2^62 - 1
  OtherOrder       a NUNIQ number of another order (renumber)
  BadNumber        not a number in decimal digits
  WrongCount       too few or too many fields on a line

Coverages in ASCII:
  BadByte          an unexpected byte
  Unfinished       a word that ends too early
  NoOrder          a cell before the first order
  OrderTooLarge    an order above 29
  CellTooLarge     the order has no such cell
  Backwards        a range a-b with b below a

Coverages in JSON:
  NotJson          invalid JSON
  NotObject        a JSON text that is not an object
  BadOrder         a name that is not an order, 0 to 29
  NotArray         the value of a name is not an array
  NotWhole         an item that is not a whole number
  CellTooLarge     the order has no such cell

NUNIQ lists:
  BadByte          a byte that is not a digit
  NotUniq          not a NUNIQ number

Lengths:
  TooLong          a text of more than 1 GiB; for `convert`, 16 MiB
  LineTooLong      a line of more than 1,048,576 bytes

Lines of scripts and schedules:
  UnknownWord      unknown command
  EmptyCommand     nothing before, between or after `;`
  TooManyCommands  more than 16 commands on a line
  ClientTooLarge   a client above 4294967295
  PartTooLarge     a part above 11

Devices:
  Read, Write      standard input or output failed
  Memory           out of memory
  Spawn            a thread could not be started

Example:
  moc cell 3
writes to standard error
  fault NotUniq
";
