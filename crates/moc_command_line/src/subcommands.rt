//! The subcommands of the program and their arguments.
ghost use Rattle.moc_command_line.specs.Private.Words.{HasSubcommands};

use crate::help::Topic;
use clap::builder::ValueParser;

/// A subcommand of the program.
pub struct Subcommand {
    pub name: &'static str,
    pub about: &'static str,
    /// The help below the usage line.
    pub topic: Topic,
    pub arguments: &'static [Argument],
}

/// A positional argument of a subcommand.
pub struct Argument {
    pub name: &'static str,
    pub help: &'static str,
    pub values: ValueParser<'static>,
    pub required: bool,
}

/// Returns the subcommands of the program, in the order of the help.
pub fn subcommands() -> &'static [Subcommand]
    ensures { HasSubcommands result.now }
{
    &SUBCOMMANDS
}

static SUBCOMMANDS: [Subcommand; 17] = [
    Subcommand {
        name: "convert",
        about: "Converts a coverage from one text format to another",
        topic: Topic::Conversion,
        arguments: &[FROM_FORMAT, TO_FORMAT],
    },
    Subcommand {
        name: "check",
        about: "Validates a coverage, or reports the first error and its position",
        topic: Topic::Check,
        arguments: &[FORMAT],
    },
    Subcommand {
        name: "describe",
        about: "Prints statistics of a coverage",
        topic: Topic::Statistics,
        arguments: &[FORMAT],
    },
    Subcommand {
        name: "combine",
        about: "Prints a union, an intersection or a difference of coverages",
        topic: Topic::Combination,
        arguments: &[OPERATION, FORMAT],
    },
    Subcommand {
        name: "degrade",
        about: "Degrades a coverage to an order",
        topic: Topic::Degrading,
        arguments: &[COARSE, FORMAT],
    },
    Subcommand {
        name: "complement",
        about: "Prints the complement of a coverage",
        topic: Topic::Complement,
        arguments: &[FORMAT],
    },
    Subcommand {
        name: "draw",
        about: "Draws one or two coverages as an SVG picture",
        topic: Topic::Picture,
        arguments: &[FORMAT, FIRST_NAME, SECOND_NAME],
    },
    Subcommand {
        name: "run",
        about: "Runs a script of commands",
        topic: Topic::Script,
        arguments: &[],
    },
    Subcommand {
        name: "play",
        about: "Plays a schedule of lock steps of several clients",
        topic: Topic::Schedule,
        arguments: &[],
    },
    Subcommand {
        name: "crew",
        about: "Runs a script of commands on N threads",
        topic: Topic::Lanes,
        arguments: &[LANES],
    },
    Subcommand {
        name: "ring",
        about: "Prints the ring number of a nested cell",
        topic: Topic::Ring,
        arguments: &[ORDER, CELL],
    },
    Subcommand {
        name: "nest",
        about: "Prints the nested number of a ring number",
        topic: Topic::Nest,
        arguments: &[ORDER, RING],
    },
    Subcommand {
        name: "uniq",
        about: "Prints the NUNIQ number of a nested cell",
        topic: Topic::Uniq,
        arguments: &[ORDER, CELL],
    },
    Subcommand {
        name: "near",
        about: "Prints the nested cells that share a corner point with a cell",
        topic: Topic::Near,
        arguments: &[ORDER, CELL],
    },
    Subcommand {
        name: "cell",
        about: "Prints the order and the nested number of a NUNIQ number",
        topic: Topic::Cell,
        arguments: &[UNIQ],
    },
    Subcommand {
        name: "renumber",
        about: "Converts cell numbers from one numbering to another",
        topic: Topic::Renumbering,
        arguments: &[FROM_NUMBERING, TO_NUMBERING, ORDER],
    },
    Subcommand {
        name: "faults",
        about: "Lists the exit statuses and the errors",
        topic: Topic::Faults,
        arguments: &[],
    },
];

/// A number of threads.
const LANES: Argument = Argument {
    name: "N",
    help: "Number of threads, 1 to 64",
    values: ValueParser::Signed(1, 64),
    required: true,
};

/// An order.
const ORDER: Argument = Argument {
    name: "ORDER",
    help: "Order of the cell, 0 to 29; order k has 12 times 4^k cells",
    values: ValueParser::Signed(0, 29),
    required: true,
};

/// The order that a coverage is degraded to.
const COARSE: Argument = Argument {
    name: "ORDER",
    help: "Order to degrade to, 0 to 29",
    ..ORDER
};

/// A nested number.
const CELL: Argument = Argument {
    name: "CELL",
    help: "Number of the cell in the nested scheme, below 12 times 4^ORDER",
    values: NUMBERS,
    required: true,
};

/// A ring number.
const RING: Argument = Argument {
    name: "RING",
    help: "Ring number of the cell, from the north, below 12 times 4^ORDER",
    values: NUMBERS,
    required: true,
};

/// A NUNIQ number.
const UNIQ: Argument = Argument {
    name: "UNIQ",
    help: "NUNIQ number of the cell, which is 4^(ORDER+1) + CELL",
    values: NUMBERS,
    required: true,
};

/// An operation on sets.
const OPERATION: Argument = Argument {
    name: "OP",
    help: "Operator",
    values: ValueParser::Names(&["union", "intersection", "difference", "symmetric"]),
    required: true,
};

/// The text format of an input, or `auto`.
const FORMAT: Argument = Argument {
    name: "FORM",
    help: "Format of a text",
    values: ValueParser::Names(&["ascii", "json", "uniq", "auto"]),
    required: true,
};

/// The name of the first coverage of a picture.
const FIRST_NAME: Argument = Argument {
    name: "FIRST",
    help: "Name of the first coverage in the legend, 1 to 40 bytes of ASCII",
    values: ValueParser::String,
    required: false,
};

/// The name of the second coverage of a picture.
const SECOND_NAME: Argument = Argument {
    name: "SECOND",
    help: "Name of the second coverage",
    ..FIRST_NAME
};

/// The text format of the input.
const FROM_FORMAT: Argument = Argument {
    name: "FROM",
    help: "Format of the input",
    values: ValueParser::Names(&["ascii", "json", "uniq"]),
    required: true,
};

/// The text format of the output.
const TO_FORMAT: Argument = Argument {
    name: "TO",
    help: "Format of the output",
    ..FROM_FORMAT
};

/// The numbering of the input.
const FROM_NUMBERING: Argument = Argument {
    name: "FROM",
    help: "Numbering of the input",
    values: ValueParser::Names(&["nest", "ring", "uniq"]),
    required: true,
};

/// The numbering of the output.
const TO_NUMBERING: Argument = Argument {
    name: "TO",
    help: "Numbering of the output",
    ..FROM_NUMBERING
};

/// Any number of 64 bits.
const NUMBERS: ValueParser<'static> = ValueParser::Unsigned(0, u64::MAX);
