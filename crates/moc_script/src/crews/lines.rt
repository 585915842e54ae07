//! The lines of a lane.
ghost use Rattle.std.specs.Prelude.{◌≡◌, ◌<◌, ◌+◌, ◌^◌, ◌∷◌, [], None, IfSome, false, length};
ghost use Rattle.moc_text.specs.Lines.{lines_of};
ghost use Rattle.moc_lines.specs.Language.{is_blank_text};
ghost use Rattle.moc_script.specs.Private.Input.{Passes, lane_lines, remaining_lines};

use moc_lines::{is_blank_text, split_line};

/// The remaining lines of a lane. The lines that are not blank are dealt to the lanes in turn.
#[derive(Drop)]
pub(crate) struct LaneLines<'a> {
    /// The lines of all lanes that were not passed yet.
    bytes: &'a [u8],
    /// The number of lines that were passed.
    passed: u64,
    /// The number of lanes that have a line before this lane has its next.
    turn: u8,
    /// The number of other lanes.
    others: u8,
}

impl<'a> LaneLines<'a> {
    /// Returns the lines of one of `lanes` lanes.
    pub(crate) fn new(input: &'a [u8], lanes: u8, lane: u8) -> LaneLines<'a>
        requires { lane < lanes }
        ensures left { remaining_lines result ≡ lane_lines lanes input.now lane }
        ensures none { (result.bytes.now ≡ input.now) × (result.passed ≡ 0) }
    {
        LaneLines {
            bytes: input,
            passed: 0,
            turn: lane,
            others: lanes - 1,
        }
    }

    /// Returns the next line of the lane, with its number.
    pub(crate) fn next_line(&mut self) -> Option<(u64, &'a [u8])>
        requires bounded { self.old.passed + length (lines_of self.old.bytes.now) < 2 ^ 64 }
        ensures some { IfSome result (λ next. remaining_lines self.old ≡ next.1.now ∷ remaining_lines self.new) }
        ensures number { IfSome result (λ next. Passes self.old next.0 next.1.now self.new) }
        ensures nonblank { IfSome result (λ next. is_blank_text next.1.now ≡ false) }
        ensures none { result ≡ None → remaining_lines self.old ≡ [] }
    {
        while !self.bytes.is_empty() {
            let (line, rest) = split_line(self.bytes);
            self.bytes = rest;
            self.passed += 1;
            if is_blank_text(line) {
                continue;
            }
            if self.turn == 0 {
                self.turn = self.others;
                return Some((self.passed, line));
            }
            self.turn -= 1;
        }
        None
    }
}
