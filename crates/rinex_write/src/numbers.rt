//! The numbers that are written for fields.

ghost use Rattle.std.specs.Prelude.{◌≡◌, ◌<◌, ◌≤◌};
ghost use Rattle.std.specs.Prelude.{◌≤ℤ◌, pos, get_or, unsigned_abs};
ghost use Rattle.rinex_write.specs.Accuracies.{sisa_nominal, ura_nominal};
ghost use Rattle.rinex_write.specs.Columns.{shown};
ghost use Rattle.rinex_write.specs.Mirrors.{IsSmall, IsWritable};

use crate::columns::Rule;

// The nominal values of the URA indices, in centimetres.
const URA: [i64; 16] = [
    200, 280, 400, 570, 800, 1_130, 1_600, 3_200, 6_400, 12_800, 25_600, 51_200, 102_400, 204_800,
    409_600, 819_200,
];

// The nominal value of a URA index, in centimetres.
#[tactic(auto, unfolding(crate::specs::Accuracies::ura_nominal))]
fn ura(index: usize) -> i64
    requires { index < 16 }
    ensures value { result ≡ pos (get_or ura_nominal index 0) }
    ensures small { IsSmall result }
{
    URA[index]
}

// The value that is written for a SISA index, in centimetres.
#[tactic(auto, unfolding(crate::specs::Accuracies::sisa_nominal))]
fn sisa(index: u64) -> i64
    requires { index ≤ 255 }
    ensures value { result ≡ sisa_nominal index }
    ensures small { IsSmall result }
{
    if index == 255 {
        return -100;
    }
    let value = match index {
        0..50 => index,
        50..75 => 50 + 2 * (index - 50),
        75..100 => 100 + 4 * (index - 75),
        _ => 200 + 16 * (index - 100),
    };
    value as i64
}

// The number that is written for a field.
pub(crate) fn field_number(rule: &Rule, field: i64) -> i64
    requires { IsWritable rule.now field }
    ensures shown { result ≡ shown rule.now field }
    ensures small { IsSmall result }
{
    match rule {
        Rule::Plain { .. } | Rule::OrZero { .. } => field,
        Rule::OrLeast { .. } | Rule::OrUnknown { .. } | Rule::Sent => field,
        Rule::Ura => ura(field as usize),
        Rule::Sisa => sisa(field as u64),
        Rule::Fit => { if field == 0 { 4 } else { 6 } }
        Rule::Unread { number } => *number,
    }
}
