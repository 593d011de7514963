// A list of amounts added up.
ghost use Rattle.std.specs.Prelude.{◌≡◌, if◌then◌else◌, Some, None, sum, nat_le};

/// The sum of the amounts, or `None` where it passes the most that is allowed.
pub fn total_within(amounts: &[u64], most: u64) -> Option<u64>
    ensures { result ≡ (if nat_le (sum amounts.now) most then Some (sum amounts.now) else None) }
{
    let mut total = 0;
    for &amount in amounts {
        if amount > most - total {
            return None;
        }
        total += amount;
    }
    Some(total)
}
