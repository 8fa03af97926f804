ghost use Rattle.std.specs.Prelude.{◌≡◌};
ghost use Rattle.raw_values.specs.Sent.{raw_sent, sent_in};

use crate::sent_raw::SentRaw;
use nav_eph::SentSecond;

// The transmission time that the numbers say.
pub(crate) fn sent_of(raw: &SentRaw) -> SentSecond
    ensures { result ≡ sent_in raw.now }
{
    if raw.is_known == 0 {
        SentSecond::Unknown
    } else {
        SentSecond::At(raw.second)
    }
}

// The numbers that say it.
pub(crate) fn raw_sent(sent: &SentSecond) -> SentRaw
    ensures { result ≡ raw_sent sent.now }
{
    match sent {
        SentSecond::Unknown => SentRaw {
            is_known: 0,
            second: 0,
        },
        SentSecond::At(second) => SentRaw {
            is_known: 1,
            second: *second,
        },
    }
}
