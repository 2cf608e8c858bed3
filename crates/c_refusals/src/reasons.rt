// The reason of a refusal's number. It is no TryFrom: the type is the crate rules', where no function stands.
ghost use Rattle.std.specs.Prelude.{◌≡◌};
ghost use Rattle.c_refusals.specs.Reasons.{reason_numbered};

use rules::Reason;

pub(crate) fn reason_of(number: u32) -> Option<Reason>
    ensures { result ≡ reason_numbered number }
{
    match number {
        1 => Some(Reason::Empty),
        2 => Some(Reason::TooLong),
        3 => Some(Reason::LineEnd),
        4 => Some(Reason::EmptyLine),
        5 => Some(Reason::Kind),
        6 => Some(Reason::Order),
        7 => Some(Reason::Length),
        8 => Some(Reason::Character),
        9 => Some(Reason::Form),
        10 => Some(Reason::Tile),
        11 => Some(Reason::Twice),
        12 => Some(Reason::Width),
        13 => Some(Reason::Column),
        14 => Some(Reason::Back),
        15 => Some(Reason::TableFull),
        16 => Some(Reason::EndsEarly),
        17 => Some(Reason::BadValue),
        18 => Some(Reason::NoRoom),
        19 => Some(Reason::Absent),
        20 => Some(Reason::NotNumber),
        21 => Some(Reason::InputOver),
        22 => Some(Reason::Time),
        23 => Some(Reason::Position),
        24 => Some(Reason::Altitude),
        25 => Some(Reason::Date),
        26 => Some(Reason::NotSame),
        27 => Some(Reason::Shelf),
        28 => Some(Reason::Id),
        29 => Some(Reason::Entries),
        30 => Some(Reason::NoRun),
        31 => Some(Reason::NotFound),
        _ => None,
    }
}
