//! Numbers in the fields of a record.
ghost use Rattle.std.specs.Prelude.{◌≡◌, ◌≤◌, ◌^◌};
ghost use Rattle.stop_plan.specs.Records.{number_below};

/// The number below a bound that a field spells by one or more digits, however many.
pub(crate) fn number_below(bound: u64, field: &[u8]) -> Option<u32>
    requires { bound ≤ 2 ^ 32 }
    ensures { result ≡ number_below bound field.now }
{
    if field.is_empty() {
        return None;
    }
    let mut value: u32 = 0;
    for digit in field {
        if !digit.is_ascii_digit() {
            return None;
        }
        value = value
            .checked_mul(10)?
            .checked_add(u32::from(*digit - b'0'))?;
    }
    if u64::from(value) < bound {
        Some(value)
    } else {
        None
    }
}
