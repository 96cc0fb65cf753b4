//! Cuts an input at the first line that is exactly a word.
ghost use Rattle.std.specs.Prelude.{◌≡◌, ◌≤◌, ◌+◌, IfSome, MatchOption, length};
ghost use Rattle.document_reader.specs.Lines.{lines};
ghost use Rattle.document_reader.specs.Cut.{IsCutAt, IsNoLine, first_number};

use crate::next_line;

/// The two parts of an input that is cut at a line.
#[derive(Clone, Copy, Debug, PartialEq, Eq)]
pub struct Cut<'a> {
    /// The bytes before the line.
    pub before: &'a [u8],
    /// The number of the line behind it; lines are numbered from 1 through the whole input.
    pub number: u32,
    /// The bytes behind it and its end.
    pub after: &'a [u8],
}

/// The parts of an input of at most 268,435,456 bytes that is cut at its first line that is exactly the word, without the
/// line's end; `None` where there is no such line.
pub fn cut_at<'a>(bytes: &'a [u8], word: &[u8]) -> Option<Cut<'a>>
    requires { length bytes.now ≤ 268435456 }
    ensures cut { MatchOption result (IsNoLine word.now (lines bytes.now)) (λ c. IsCutAt word.now bytes.now c.before.now c.after.now) }
    ensures number { IfSome result (λ c. c.number ≡ first_number c.before.now) }
    ensures bound { IfSome result (λ c. c.number + length c.after.now ≤ length bytes.now + 2) }
{
    let mut number: u32 = 2;
    let mut rest = bytes;
    'lines: while let Some((line, after)) = next_line(rest) {
        if line == word {
            let (before, _) = bytes.split_at(bytes.len() - rest.len());
            return Some(Cut {
                before,
                number,
                after,
            });
        }
        number += 1;
        rest = after;
    }
    None
}
