//! How far a text can be continued to an expression: a scan that takes a byte a step.
ghost use Rattle.std.specs.Prelude.{◌≡◌, ◌<◌, ◌≤◌, Some, None, length, IfSome};
ghost use Rattle.periodic_expr.specs.Scan.{is_blank, calendar_word, moved, part_start, calendar_start, calendar_end, letters, number_start, after_index, after_number, digits, after_part, on_blank, on, set_first, IsSized, IsSmall, IsFitting};

use gtrbac_model::Calendar;

/// Where a scan stands: what may come next.
#[derive(Clone, Copy)]
pub(crate) enum ScanPlace {
    /// Nothing yet.
    Start,
    /// After `+`.
    PartNext,
    /// Within `all`, after one letter.
    OneLetter,
    /// After two.
    TwoLetters,
    /// After `all` or a set.
    DotNext,
    /// After the point of a part.
    CalendarNext,
    /// Within a calendar, of a part or of the length, after so many letters.
    Letters(bool, Calendar, usize),
    /// Directly after a part.
    PartDone,
    /// After blanks behind a part.
    PartPast,
    /// After the brace of a set.
    SetFirst,
    /// Within a number, of a set or of the length, of this value so far.
    Digits(bool, u32),
    /// After blanks behind a number of a set.
    NumberPast,
    /// After a comma.
    SetNext,
    /// After `>`.
    LengthNext,
    /// After blanks behind the length's number.
    LengthDot,
    /// After the point of the length.
    UnitNext,
    /// After the length's calendar.
    Finished,
}

/// What a step of the scan tells.
#[derive(Clone, Copy)]
pub(crate) enum Act {
    Nothing,
    /// A set begins here.
    Open,
    /// A number or a calendar begins here.
    Begin,
    /// A number of a set has ended.
    Index(u32),
    /// The length's number has ended.
    Length(u32),
    /// A part has ended with its calendar.
    Part(Calendar),
    /// The length has ended with its calendar.
    Unit(Calendar),
}

/// A step: where the scan stands then, and what it tells.
#[derive(Clone, Copy)]
pub(crate) struct Move {
    pub place: ScanPlace,
    pub act: Act,
}

/// The name of a calendar in an expression.
pub(crate) fn name_of(c: Calendar) -> &'static [u8]
    ensures { result.now ≡ calendar_word c }
{
    match c {
        Calendar::Years => b"Years",
        Calendar::Months => b"Months",
        Calendar::Weeks => b"Weeks",
        Calendar::Days => b"Days",
        Calendar::Hours => b"Hours",
        Calendar::Minutes => b"Minutes",
    }
}

/// Whether a byte may stand between two tokens: a space or a tab.
fn is_blank(b: u8) -> bool
    ensures { result ≡ is_blank b }
{
    b == b' ' || b == b'\t'
}

/// A step to a place, as the answers of the functions below give it.
fn to(place: ScanPlace, act: Act) -> Option<Move>
    ensures { result ≡ Some (record { place = place; act = act }) }
{
    Some(Move { place, act })
}

/// What may begin a part: the first letter of `all`, or the brace of a set.
fn part_start(b: u8) -> Option<Move>
    ensures goes { result ≡ part_start b }
    ensures fits { IfSome result IsFitting }
{
    match b {
        b'a' => to(ScanPlace::OneLetter, Act::Nothing),
        b'{' => to(ScanPlace::SetFirst, Act::Open),
        _ => None,
    }
}

/// What may begin a calendar, by its first letter; `M` is Months until `letters` sees an `i`.
fn calendar_start(unit: bool, b: u8) -> Option<Move>
    ensures goes { result ≡ calendar_start unit b }
    ensures fits { IfSome result IsFitting }
{
    let calendar = match b {
        b'Y' => Calendar::Years,
        b'M' => Calendar::Months,
        b'W' => Calendar::Weeks,
        b'D' => Calendar::Days,
        b'H' => Calendar::Hours,
        _ => return None,
    };
    to(ScanPlace::Letters(unit, calendar, 1), Act::Begin)
}

/// The step that ends a calendar: of the length where `unit` holds, else of a part.
fn calendar_end(unit: bool, c: Calendar) -> Option<Move>
    ensures goes { result ≡ calendar_end unit c }
    ensures fits { IfSome result IsFitting }
{
    if unit {
        to(ScanPlace::Finished, Act::Unit(c))
    } else {
        to(ScanPlace::PartDone, Act::Part(c))
    }
}

/// Within a calendar after k letters; Months and Minutes part at the second.
fn letters(unit: bool, c: Calendar, k: usize, b: u8) -> Option<Move>
    requires { k < length (calendar_word c) }
    ensures goes { result ≡ letters unit c k b }
    ensures fits { IfSome result IsFitting }
{
    let name = name_of(c);
    if b == name[k] {
        if k + 1 == name.len() {
            calendar_end(unit, c)
        } else {
            to(ScanPlace::Letters(unit, c, k + 1), Act::Nothing)
        }
    } else if c == Calendar::Months && k == 1 && b == b'i' {
        to(ScanPlace::Letters(unit, Calendar::Minutes, 2), Act::Nothing)
    } else {
        None
    }
}

/// The first digit of a number: of the length where `span` holds, else of a set.
fn number_start(span: bool, b: u8) -> Option<Move>
    ensures goes { result ≡ number_start span b }
    ensures fits { IfSome result IsFitting }
{
    if b.is_ascii_digit() {
        to(ScanPlace::Digits(span, u32::from(b - b'0')), Act::Begin)
    } else {
        None
    }
}

/// What may stand after a number of a set.
fn after_index(act: Act, b: u8) -> Option<Move>
    requires { IsSmall act }
    ensures goes { result ≡ after_index act b }
    ensures fits { IfSome result IsFitting }
{
    match b {
        b',' => to(ScanPlace::SetNext, act),
        b'}' => to(ScanPlace::DotNext, act),
        _ => None,
    }
}

/// What may stand behind a number: of the length where `span` holds, else of a set.
fn after_number(span: bool, v: u32, b: u8) -> Option<Move>
    requires { v ≤ 999_999_999 }
    ensures goes { result ≡ after_number span v b }
    ensures fits { IfSome result IsFitting }
{
    match (span, b) {
        (true, b' ' | b'\t') => to(ScanPlace::LengthDot, Act::Length(v)),
        (true, b'.') => to(ScanPlace::UnitNext, Act::Length(v)),
        (true, _) => None,
        (false, b' ' | b'\t') => to(ScanPlace::NumberPast, Act::Index(v)),
        (false, _) => after_index(Act::Index(v), b),
    }
}

/// Within a number: no digit after a leading 0, and none after nine.
fn digits(span: bool, v: u32, b: u8) -> Option<Move>
    requires { v ≤ 999_999_999 }
    ensures goes { result ≡ digits span v b }
    ensures fits { IfSome result IsFitting }
{
    if !b.is_ascii_digit() {
        return after_number(span, v, b);
    }
    if v >= 1 && v <= 99_999_999 {
        to(
            ScanPlace::Digits(span, 10 * v + u32::from(b - b'0')),
            Act::Nothing,
        )
    } else {
        None
    }
}

/// What may stand behind a part: a further part or the length.
fn after_part(b: u8) -> Option<Move>
    ensures goes { result ≡ after_part b }
    ensures fits { IfSome result IsFitting }
{
    match b {
        b'+' => to(ScanPlace::PartNext, Act::Nothing),
        b'>' => to(ScanPlace::LengthNext, Act::Nothing),
        _ => None,
    }
}

/// A blank leaves the scan at the place, any other byte is as told.
fn or_blank(b: u8, place: ScanPlace, other: Option<Move>) -> Option<Move>
    requires place_in { IsSized place }
    requires other_in { IfSome other IsFitting }
    ensures goes { result ≡ on_blank b place other }
    ensures fits { IfSome result IsFitting }
{
    if is_blank(b) {
        to(place, Act::Nothing)
    } else {
        other
    }
}

/// One byte alone leads on, to the place.
fn only(b: u8, byte: u8, place: ScanPlace, act: Act) -> Option<Move>
    requires place_in { IsSized place }
    requires act_in { IsSmall act }
    ensures goes { result ≡ on b byte (Some (record { place = place; act = act })) None }
    ensures fits { IfSome result IsFitting }
{
    if b == byte { to(place, act) } else { None }
}

/// After the brace of a set.
fn set_first(b: u8) -> Option<Move>
    ensures goes { result ≡ set_first b }
    ensures fits { IfSome result IsFitting }
{
    if b == b'}' {
        to(ScanPlace::DotNext, Act::Nothing)
    } else {
        number_start(false, b)
    }
}

/// Where a byte leads, none where no expression goes on so.
pub(crate) fn moved(place: ScanPlace, b: u8) -> Option<Move>
    requires { IsSized place }
    ensures goes { result ≡ moved place b }
    ensures fits { IfSome result IsFitting }
{
    match place {
        ScanPlace::Start => part_start(b),
        ScanPlace::PartNext => or_blank(b, place, part_start(b)),
        ScanPlace::OneLetter => only(b, b'l', ScanPlace::TwoLetters, Act::Nothing),
        ScanPlace::TwoLetters => only(b, b'l', ScanPlace::DotNext, Act::Nothing),
        ScanPlace::DotNext => or_blank(
            b,
            place,
            only(b, b'.', ScanPlace::CalendarNext, Act::Nothing),
        ),
        ScanPlace::CalendarNext => or_blank(b, place, calendar_start(false, b)),
        ScanPlace::Letters(unit, c, k) => letters(unit, c, k, b),
        ScanPlace::PartDone | ScanPlace::PartPast => or_blank(
            b,
            ScanPlace::PartPast,
            after_part(b),
        ),
        ScanPlace::SetFirst => or_blank(b, place, set_first(b)),
        ScanPlace::Digits(span, v) => digits(span, v, b),
        ScanPlace::NumberPast => or_blank(b, place, after_index(Act::Nothing, b)),
        ScanPlace::SetNext => or_blank(b, place, number_start(false, b)),
        ScanPlace::LengthNext => or_blank(b, place, number_start(true, b)),
        ScanPlace::LengthDot => or_blank(
            b,
            place,
            only(b, b'.', ScanPlace::UnitNext, Act::Nothing),
        ),
        ScanPlace::UnitNext => or_blank(b, place, calendar_start(true, b)),
        ScanPlace::Finished => None,
    }
}
