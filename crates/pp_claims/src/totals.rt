//! The sum of all counts.

ghost use Rattle.std.specs.Prelude.{◌≡◌, ◌+◌, ◌^◌, ◌<◌, ℕ, map, get_or, sum_by, IfOk};
ghost use Rattle.pp_claims.specs.Claimed.{sum_at, IsSum};

use pp_model::NoMemory;
use pp_running::jobs::append;
use std::alloc::Global;

/// The sum of tables of counts.
///
/// # Errors
///
/// There was no memory.
pub fn total_of(alloc: Global, counts: &[Vec<u32>], rest: &[u32]) -> Result<Vec<u32>, NoMemory>
    requires { (b : ℕ) → b < 256 → sum_at (map (λ v. v.items) counts.now) rest.now b < 2 ^ 32 }
    ensures { IfOk result (λ total. IsSum (map (λ v. v.items) counts.now) rest.now total.items) }
{
    let Ok(mut total) = Vec::with_capacity(alloc, 256) else {
        return Err(NoMemory);
    };
    for value in 0..256usize {
        append(&mut total, sum_of(counts, rest, value))?;
    }
    Ok(total)
}

/// The sum of tables at one byte value.
fn sum_of(counts: &[Vec<u32>], rest: &[u32], value: usize) -> u32
    requires { sum_at (map (λ v. v.items) counts.now) rest.now value < 2 ^ 32 }
    ensures { result ≡ sum_at (map (λ v. v.items) counts.now) rest.now value }
{
    let mut sum = count_at(rest, value);
    for counted in counts {
        sum += count_at(counted, value);
    }
    sum
}

fn count_at(table: &[u32], value: usize) -> u32
    ensures { result ≡ get_or table.now value 0 }
{
    match table.get(value) {
        Some(count) => *count,
        None => 0,
    }
}
