// Why a text is no sheet.
ghost use Rattle.std.specs.Prelude.{◌≡◌, Some};
ghost use Rattle.profile.specs.SheetRefusals.{sheet_report_of, sheet_words};

use std::fmt;
use wire::Report;

/// Why a text is no sheet. A place is the byte of the text where the refused line starts.
#[derive(Clone, Copy, PartialEq, Eq, Debug)]
pub enum SheetRefusal {
    /// 29: the first line is not `slot least most rank` and a line feed.
    FirstLine,
    /// 30: a line is not four numbers, one space between, and a line feed.
    LineForm(usize),
    /// 31: a line's numbers are out of bounds, or its slot does not rise.
    LineBounds(usize),
}

impl SheetRefusal {
    /// The refusal's number, place and detail.
    pub fn report(self) -> Report
        ensures is { result ≡ sheet_report_of self }
        // Two refusals with the same number, place and detail are one.
        ensures apart { (other : SheetRefusal) → sheet_report_of other ≡ result → other ≡ self }
    {
        match self {
            SheetRefusal::FirstLine => Report::new(29, 0, 0),
            SheetRefusal::LineForm(start) => Report::new(30, start, 0),
            SheetRefusal::LineBounds(start) => Report::new(31, start, 0),
        }
    }
}

impl From<SheetRefusal> for Report {
    ghost from_gives = { λ refusal t. t ≡ sheet_report_of refusal };

    fn from(refusal: SheetRefusal) -> Report {
        refusal.report()
    }
}

/// In words, for the people who read what programs print.
impl fmt::Display for SheetRefusal {
    ghost output = { λ refusal. Some (sheet_words refusal) };

    fn fmt<W: fmt::Write>(&self, f: &mut fmt::Formatter<W>) -> fmt::Result {
        match self {
            SheetRefusal::FirstLine => f.write_str(
                "the first line is not 'slot least most rank' and a line feed",
            ),
            SheetRefusal::LineForm(start) => write!(
                f,
                "a line is not four numbers, one space between, and a line feed, byte {start}"
            ),
            SheetRefusal::LineBounds(start) => write!(
                f,
                "a line's numbers are out of bounds, or its slot does not rise, byte {start}"
            ),
        }
    }
}

impl std::error::Error for SheetRefusal {}
