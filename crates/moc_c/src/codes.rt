//! The codes of results, named as in `ploverchaise.h`. Made by `tools/codes.py` from `include/codes.tsv`.

/// The code of success.
pub(crate) const OK: u32 = 0;

/// The code if an allocation failed.
pub(crate) const MEMORY: u32 = 1;

/// The code if the buffer is too short.
pub(crate) const BUFFER_TOO_SHORT: u32 = 2;

/// The code if no set has the id, or the set was freed.
pub(crate) const NO_SUCH_SET: u32 = 3;

/// The code if the order is above 29.
pub(crate) const NO_SUCH_ORDER: u32 = 4;

/// The code if two arrays that belong together differ in length.
pub(crate) const LENGTHS_DIFFER: u32 = 5;

/// The code if a number is not the number of a cell of the order.
pub(crate) const NO_SUCH_CELL: u32 = 6;

/// The code if a number is not a NUNIQ number.
pub(crate) const NOT_UNIQ: u32 = 7;

/// The code if a cell of the set is deeper than the stated order.
pub(crate) const TOO_COARSE: u32 = 8;

/// The code if a byte is not allowed there.
pub(crate) const ASCII_BAD_BYTE: u32 = 10;

/// The code if a cell has no order before it.
pub(crate) const ASCII_NO_ORDER: u32 = 11;

/// The code if an order is above 29.
pub(crate) const ASCII_ORDER_TOO_LARGE: u32 = 12;

/// The code if a number is not the number of a cell of its order.
pub(crate) const ASCII_CELL_TOO_LARGE: u32 = 13;

/// The code if the last cell of a range is before its first cell.
pub(crate) const ASCII_BACKWARDS: u32 = 14;

/// The code if a word is incomplete.
pub(crate) const ASCII_UNFINISHED: u32 = 15;

/// The code if the text is not valid JSON.
pub(crate) const JSON_NOT_JSON: u32 = 20;

/// The code if the value is not an object.
pub(crate) const JSON_NOT_OBJECT: u32 = 21;

/// The code if a name is not an order from 0 to 29.
pub(crate) const JSON_BAD_ORDER: u32 = 22;

/// The code if the value of a name is not an array.
pub(crate) const JSON_NOT_ARRAY: u32 = 23;

/// The code if an item is not an unsigned integer of 64 bits.
pub(crate) const JSON_NOT_WHOLE: u32 = 24;

/// The code if an item is not the number of a cell of its order.
pub(crate) const JSON_CELL_TOO_LARGE: u32 = 25;

/// The code if a byte is not a digit.
pub(crate) const UNIQ_BAD_BYTE: u32 = 30;

/// The code if a number is not a NUNIQ number.
pub(crate) const UNIQ_NOT_UNIQ: u32 = 31;

/// The code if the end of a range is before its start.
pub(crate) const RANGE_BACKWARDS: u32 = 40;

/// The code if the end of a range is above 12 * 4^29.
pub(crate) const RANGE_PIXEL_TOO_LARGE: u32 = 41;

/// The code if the first word is not a command.
pub(crate) const LINE_UNKNOWN_WORD: u32 = 50;

/// The code if a command is blank.
pub(crate) const LINE_EMPTY_COMMAND: u32 = 51;

/// The code if the line has more than 16 commands.
pub(crate) const LINE_TOO_MANY_COMMANDS: u32 = 52;

/// The code if a command has too many or too few fields.
pub(crate) const LINE_WRONG_COUNT: u32 = 53;

/// The code if a field is not a number.
pub(crate) const LINE_BAD_NUMBER: u32 = 54;

/// The code if an order is above 29.
pub(crate) const LINE_ORDER_TOO_LARGE: u32 = 55;

/// The code if a number is not the number of a cell of its order.
pub(crate) const LINE_CELL_TOO_LARGE: u32 = 56;

/// The code if a byte of a coverage is not allowed there.
pub(crate) const LINE_BAD_BYTE: u32 = 57;

/// The code if a cell has no order before it.
pub(crate) const LINE_NO_ORDER: u32 = 58;

/// The code if the last cell of a range is before its first cell.
pub(crate) const LINE_BACKWARDS: u32 = 59;

/// The code if a word of a coverage is incomplete.
pub(crate) const LINE_UNFINISHED: u32 = 60;

/// The code if a client number of a schedule is above 4294967295.
pub(crate) const LINE_CLIENT_TOO_LARGE: u32 = 61;

/// The code if a part number of a schedule is above 11.
pub(crate) const LINE_PART_TOO_LARGE: u32 = 62;

/// The code if the client has no map.
pub(crate) const NO_MAP: u32 = 70;

/// The code if the client has a map already.
pub(crate) const CLIENT_IN_USE: u32 = 71;

/// The code if the number of clients is not 1 to 64.
pub(crate) const BAD_COUNT: u32 = 72;

/// The code if no further client can join the map.
pub(crate) const NO_CLIENT: u32 = 73;

/// The code if another client holds a part of the map.
pub(crate) const BUSY: u32 = 74;
